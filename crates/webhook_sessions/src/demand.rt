ghost use Rattle.std.specs.Prelude.{◌≡◌, ◌↔◌, IsTrue, Ok};
ghost use Rattle.wf_value.specs.Gives.{Gives, no_memory};
ghost use Rattle.webhook_sessions.specs.Asking.{admission, command_at, demand_of, prepared};
ghost use Rattle.webhook_sessions.specs.EventHeaders.{event_headers};

use crate::event_headers::event_headers;
use crate::fault::Fault;
use crate::fields::Fields;
use crate::head::Head;
use crate::path::Path;
use act_sessions::Demand;
use run_plan::{Command, DeliveryId, EventName, Prepared, SmallText, prepare_beside};
use std::alloc::Global;
use wf_value::{Code, Refusal};

fn is_want_of_memory(refusal: &Refusal) -> bool
    ensures { IsTrue result ↔ (refusal.now ≡ no_memory) }
{
    matches!(refusal, Refusal::Numbered(Code::NoMemory))
}

/// The admission of an event, or the first fault of its body.
fn prepared(
    alloc: Global,
    latest: Option<&Prepared>,
    delivery: DeliveryId,
    event: EventName,
    body: &[u8],
) -> Result<Demand<Fault>, Refusal>
    ensures { Gives (λ d. d) result (Ok (prepared (record { delivery = delivery; event = event; body = body.now }))) }
{
    match prepare_beside(alloc, latest, event, delivery, body) {
        Ok(admitted) => Ok(Demand::Command(Command::Admit(admitted))),
        Err(refusal) if is_want_of_memory(&refusal) => Err(refusal),
        Err(refusal) => Ok(Demand::Fault(Fault::Unprocessable(refusal))),
    }
}

/// What a posted event demands.
fn admission(
    alloc: Global,
    latest: Option<&Prepared>,
    fields: &Fields<'_>,
    body: &[u8],
) -> Result<Demand<Fault>, Refusal>
    ensures { Gives (λ d. d) result (Ok (admission (event_headers fields.now) body.now)) }
{
    match event_headers(fields) {
        Ok(headers) => {
            let delivery = SmallText::copy_of(alloc, headers.delivery)?;
            let event = SmallText::copy_of(alloc, headers.event)?;
            prepared(alloc, latest, delivery, event, body)
        }
        Err(fault) => Ok(Demand::Fault(fault)),
    }
}

/// What a path demands by its method.
fn command_at(
    alloc: Global,
    latest: Option<&Prepared>,
    path: Path,
    fields: &Fields<'_>,
    body: &[u8],
) -> Result<Demand<Fault>, Refusal>
    ensures { Gives (λ d. d) result (Ok (command_at path fields.now body.now)) }
{
    match path {
        Path::Events => admission(alloc, latest, fields, body),
        Path::Run(run) => Ok(Demand::Command(Command::Look(run))),
        Path::Body(run) => Ok(Demand::Command(Command::Fetch(run))),
        Path::Cancel(run) => Ok(Demand::Command(Command::Cancel(run))),
        Path::Attempt(attempt) => Ok(Demand::Command(Command::Rerun(attempt))),
        Path::Forget(run) => Ok(Demand::Command(Command::Forget(run))),
        Path::Lost(runner) => Ok(Demand::Command(Command::Lost(runner))),
        Path::Discharge(runner) => Ok(Demand::Command(Command::Discharge(runner))),
    }
}

/// What a request demands, by its head and its body. An event with the bytes of the latest one is not read again.
pub fn demand_of(
    alloc: Global,
    latest: Option<&Prepared>,
    head: &Head<'_>,
    body: &[u8],
) -> Result<Demand<Fault>, Refusal>
    ensures { Gives (λ d. d) result (Ok (demand_of head.now body.now)) }
{
    let Some(path) = Path::of(alloc, head.target())? else {
        return Ok(Demand::Fault(Fault::NoPath));
    };
    let method = path.method();
    if head.method() != method.as_str().as_bytes() {
        return Ok(Demand::Fault(Fault::WrongMethod(method)));
    }
    command_at(alloc, latest, path, head.fields(), body)
}

ghost use Rattle.std.specs.Prelude.{◌≡◌, Ok, option_copied};
ghost use Rattle.wf_value.specs.Gives.{Gives};
ghost use Rattle.webhook_sessions.specs.Statuses.{fault_status, fault_refusal, fault_allows, is_missing, refusal_status, reply_status};

use crate::fault::Fault;
use act_sessions::ends_by;
use http::{Method, StatusCode};
use run_plan::Reply;
use std::alloc::Global;
use wf_value::{Code, Refusal, TryCopy};

pub fn fault_status(fault: &Fault) -> StatusCode
    ensures { result ≡ fault_status fault.now }
{
    match fault {
        Fault::BadHead | Fault::BadLength | Fault::EventHeader => StatusCode::BAD_REQUEST,
        Fault::NoLength => StatusCode::LENGTH_REQUIRED,
        Fault::TooLong => StatusCode::PAYLOAD_TOO_LARGE,
        Fault::NoPath => StatusCode::NOT_FOUND,
        Fault::WrongMethod(_) => StatusCode::METHOD_NOT_ALLOWED,
        Fault::Unprocessable(_) => StatusCode::UNPROCESSABLE_ENTITY,
    }
}

pub fn fault_refusal(alloc: Global, fault: &Fault) -> Result<Refusal, Refusal>
    ensures { Gives (λ r. r) result (Ok (fault_refusal fault.now)) }
{
    match fault {
        Fault::BadHead => Ok(Refusal::Numbered(Code::Head)),
        Fault::NoLength | Fault::BadLength => Ok(Refusal::Numbered(Code::ContentLength)),
        Fault::TooLong => Ok(Refusal::Numbered(Code::TooLong)),
        Fault::EventHeader => Ok(Refusal::Numbered(Code::EventHeader)),
        Fault::NoPath => Ok(Refusal::Numbered(Code::Path)),
        Fault::WrongMethod(_) => Ok(Refusal::Numbered(Code::Method)),
        Fault::Unprocessable(refusal) => refusal.copy(alloc),
    }
}

/// The method that a path allows, if another one was used.
pub fn fault_allows(fault: &Fault) -> Option<&Method>
    ensures { option_copied result ≡ fault_allows fault.now }
{
    match fault {
        Fault::WrongMethod(allowed) => Some(allowed),
        _ => None,
    }
}

fn is_missing(refusal: &Refusal) -> bool
    ensures { result ≡ is_missing refusal.now }
{
    matches!(refusal, Refusal::Numbered(Code::NoRun | Code::NoRunner))
}

pub fn refusal_status(refusal: &Refusal) -> StatusCode
    ensures { result ≡ refusal_status refusal.now }
{
    if is_missing(refusal) {
        StatusCode::NOT_FOUND
    } else if ends_by(refusal) {
        StatusCode::SERVICE_UNAVAILABLE
    } else {
        StatusCode::CONFLICT
    }
}

pub fn reply_status(reply: &Reply) -> StatusCode
    ensures { result ≡ reply_status reply.now }
{
    match reply {
        Reply::Created(_) | Reply::Again(_) => StatusCode::CREATED,
        Reply::Ok | Reply::Forgotten(_) => StatusCode::ACCEPTED,
        Reply::Refused(refusal) => refusal_status(refusal),
        _ => StatusCode::OK,
    }
}

ghost use Rattle.std.specs.Prelude.{◌≡◌, ◌<◌, ◌≤◌, length, option_map, unwrap_or, false, Err};
ghost use Rattle.std.specs.Str.{is_utf8};
ghost use Rattle.definitions.specs.Limits.{max_body};
ghost use Rattle.serde_json.specs.Data.{null};
ghost use Rattle.serde_json.specs.View.{view};
ghost use Rattle.wf_value.specs.Gives.{Gives};
ghost use Rattle.wf_reader.specs.Event.{event_faults_in, event_in, event_faults, event_of};
ghost use Rattle.wf_value.specs.declared.code.Code.TheVariants.{NotJson, TooLong, WrongKind};
ghost use Rattle.wf_value.specs.declared.refusal.Refusal.TheVariants.{Numbered};
ghost use Rattle.wf_reader.specs.Faults.{unless_faulty, required};
ghost use Rattle.wf_reader.specs.Workflow.{workflow_faults_in, workflow_in};

use crate::body::read_body;
use crate::contexts::Contexts;
use crate::fields::{check_contexts, read_filled_text, wrong_kind};
use crate::workflow::{Workflow, workflow_in};
use serde_json::Value;
use std::alloc::Global;
use wf_value::{Chars, Refusal};

/// The body of an event: the repository, the workflow's path, the contexts and the workflow itself.
#[derive(Drop)]
pub struct Event {
    /// Not empty. Repositories compare by bytes.
    pub repo: Chars,
    /// Not empty. It names the workflow within the repository.
    pub path: Chars,
    /// The contexts `github`, `inputs` and `vars` that the sender supplies.
    pub contexts: Contexts,
    pub workflow: Workflow,
}

/// The contexts of an event, in the order in which they are checked. GitHub Docs, "Contexts".
const CONTEXTS: [&str; 3] = ["github", "inputs", "vars"];

/// The workflow of an envelope.
fn read_inner(alloc: Global, workflow: Option<Value>) -> Result<Workflow, Refusal>
    ensures { let given = option_map (λ v. view v) workflow in Gives (λ w. w) result
        (unless_faulty (required WrongKind workflow_faults_in given) (workflow_in (unwrap_or given null))) }
{
    match workflow {
        Some(value) => workflow_in(alloc, value),
        None => Err(wrong_kind()),
    }
}

/// The event of a value, or its first fault.
fn event_in(alloc: Global, value: Value) -> Result<Event, Refusal>
    ensures { Gives (λ e. e) result
        (unless_faulty (event_faults_in (view value)) (event_in (view value))) }
{
    if !value.is_object() {
        return Err(wrong_kind());
    }
    let repo = read_filled_text(alloc, &value, "repo")?;
    let path = read_filled_text(alloc, &value, "path")?;
    check_contexts(&value, &CONTEXTS)?;
    let (contexts, workflow) = Contexts::and_workflow(value);
    let workflow = read_inner(alloc, workflow)?;
    Ok(Event {
        repo,
        path,
        contexts,
        workflow,
    })
}

/// Reads the event of a body, or refuses its first fault: 24 for a body longer than 65,536 bytes, 10 if it is not UTF-8 or not
/// JSON, 11 for the envelope, and 11, 12, 15 to 20, 23, 25 and 26 for the workflow in it. Out of memory is 50.
pub fn read_event(alloc: Global, bytes: &[u8]) -> Result<Event, Refusal>
    ensures gives { Gives (λ e. e) result
        (unless_faulty (event_faults bytes.now) (event_of bytes.now)) }

    // These two hold with or without memory:
    ensures too_long { max_body < length bytes.now → result ≡ Err (Numbered TooLong) }
    ensures no_text { length bytes.now ≤ max_body → is_utf8 bytes.now ≡ false
        → result ≡ Err (Numbered NotJson) }
{
    let value = read_body(alloc, bytes)?;
    event_in(alloc, value)
}

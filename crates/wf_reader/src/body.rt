ghost use Rattle.std.specs.Prelude.{◌≡◌, ◌<◌, ◌≤◌, [], length, false, Err};
ghost use Rattle.std.specs.Str.{is_utf8};
ghost use Rattle.definitions.specs.Limits.{max_body};
ghost use Rattle.serde_json.specs.View.{view};
ghost use Rattle.wf_value.specs.Gives.{Gives};
ghost use Rattle.wf_value.specs.declared.code.Code.TheVariants.{NotJson, TooLong};
ghost use Rattle.wf_value.specs.declared.refusal.Refusal.TheVariants.{Numbered};
ghost use Rattle.wf_reader.specs.Workflow.{body_faults, body_value};
ghost use Rattle.wf_reader.specs.Faults.{unless_faulty};

use serde_json::Value;
use std::alloc::Global;
use std::str;
use wf_value::{Code, Refusal};

/// The maximum length of a body, in bytes.
pub const MAX_BODY: usize = 65_536;

/// Parses a body as JSON: 24 if it is longer than 65,536 bytes, 10 if it is not UTF-8 or not JSON. The length and the encoding are
/// checked before any memory is taken.
/// Promise (Bodies, plans and replies): JSON, an event or a workflow is read exactly where nothing is wrong with it, and otherwise refused with
///   the first of all faults
/// By: `wf_reader::{read_body, read_event, read_workflow}`, `gives`
/// Refusal (The layers below): `wf_reader`: `read_body`, `read_event`, `read_workflow`; `run_plan`: `prepare`
/// When: 24, 10 (no UTF-8): exactly. 10 (of `read_body`), 10 to 26 (of `prepare` with 13, 14, 21, 22): the first fault, exactly, with memory. 50
/// Afterwards: nothing is made
/// By: `too_long`, `no_text`, `gives`
pub fn read_body(alloc: Global, bytes: &[u8]) -> Result<Value, Refusal>
    ensures gives { Gives view result
        (unless_faulty (body_faults (λ _. []) bytes.now) (body_value bytes.now)) }
    ensures too_long { max_body < length bytes.now → result ≡ Err (Numbered TooLong) }
    ensures no_text { length bytes.now ≤ max_body → is_utf8 bytes.now ≡ false
        → result ≡ Err (Numbered NotJson) }
{
    if bytes.len() > MAX_BODY {
        return Err(Refusal::Numbered(Code::TooLong));
    }
    let Ok(text) = str::from_utf8(bytes) else {
        return Err(Refusal::Numbered(Code::NotJson));
    };
    match Value::from_str(alloc, text) {
        Ok(value) => Ok(value),
        Err(error) if error.is_memory() => Err(Refusal::Numbered(Code::NoMemory)),
        Err(_) => Err(Refusal::Numbered(Code::NotJson)),
    }
}

ghost use Rattle.std.specs.Prelude.{◌≡◌, ◌↔◌, ℕ, List, Some, codes, option_map};
ghost use Rattle.serde_json.specs.Data.{string};
ghost use Rattle.serde_json.specs.Find.{get};
ghost use Rattle.serde_json.specs.View.{view};
ghost use Rattle.wf_reader.specs.Job.{condition_in, condition_faults, condition_of_word, condition_where};
ghost use Rattle.wf_reader.specs.Job.{inside_braces, past_spaces, trimmed, up_to_spaces, word_in};
ghost use Rattle.wf_reader.specs.ConditionTexts.{EncodesCondition};
ghost use Rattle.wf_reader.specs.Faults.{unless_faulty, optional};
ghost use Rattle.wf_value.specs.declared.condition.Condition.{Condition};

use serde_json::Value;
use wf_value::{Code, Condition, Refusal};

/// The text without leading spaces. Only U+0020 is a space.
fn past_spaces(mut text: &[u8]) -> &[u8]
    ensures { result.now ≡ past_spaces text.entry.now }
{
    while let [b' ', rest @ ..] = text {
        text = rest;
    }
    text
}

/// The text without trailing spaces.
fn up_to_spaces(mut text: &[u8]) -> &[u8]
    ensures { result.now ≡ up_to_spaces text.entry.now }
{
    while let [rest @ .., b' '] = text {
        text = rest;
    }
    text
}

fn trimmed(text: &[u8]) -> &[u8]
    ensures { result.now ≡ trimmed text.now }
{
    up_to_spaces(past_spaces(text))
}

/// The text between `${{` and `}}`, if the text is enclosed in them.
fn inside_braces(text: &[u8]) -> Option<&[u8]>
    ensures { option_map (λ t. t.now) result ≡ inside_braces text.now }
{
    let opened = text.strip_prefix(b"${{".as_slice())?;
    opened.strip_suffix(b"}}".as_slice())
}

/// The word of a condition's text, bare or in braces.
fn word_in(text: &[u8]) -> &[u8]
    ensures { result.now ≡ word_in text.now }
{
    let text = trimmed(text);
    match inside_braces(text) {
        Some(inner) => trimmed(inner),
        None => text,
    }
}

fn condition_of_word(word: &[u8]) -> Option<Condition>
    ensures { result ≡ condition_of_word word.now }
{
    if word == b"success()".as_slice() || word == b"true".as_slice() {
        Some(Condition::Success)
    } else if word == b"failure()".as_slice() {
        Some(Condition::Failure)
    } else if word == b"always()".as_slice() {
        Some(Condition::Always)
    } else if word == b"cancelled()".as_slice() {
        Some(Condition::Cancelled)
    } else if word == b"!cancelled()".as_slice() {
        Some(Condition::NotCancelled)
    } else if word == b"false".as_slice() {
        Some(Condition::Never)
    } else {
        None
    }
}

/// The condition that a value of `if` states, if any.
pub fn condition_in(value: &Value) -> Option<Condition>
    ensures { result ≡ condition_in (view value.now) }
{
    match value {
        Value::Bool(true) => Some(Condition::Success),
        Value::Bool(false) => Some(Condition::Never),
        Value::String(text) => condition_of_word(word_in(text.as_bytes())),
        _ => None,
    }
}

/// The condition of a job. It is `success()` if the job has no `if`. A value that is not a condition is 26.
pub fn read_condition(job: &Value) -> Result<Condition, Refusal>
    ensures { result ≡ unless_faulty (optional condition_faults (get (codes "if") (view job.now)))
        (condition_where (get (codes "if") (view job.now))) }
{
    let Some(value) = job.get("if") else {
        return Ok(Condition::Success);
    };
    match condition_in(value) {
        Some(condition) => Ok(condition),
        None => Err(Refusal::Numbered(Code::Condition)),
    }
}

/// The text of an `if` is a condition if and only if it is one of the words, bare or in braces, with optional spaces around the
/// word and around the braces. The condition is that of the word.
/// Promise (Bodies, plans and replies): An `if` is a condition exactly where its text is one of the seven words, bare or in braces, with spaces
///   (U+0020) around word and braces
/// By: `wf_reader::conditions_are_their_encodings`
pub fn conditions_are_their_encodings()
    ensures { (text : List ℕ) (condition : Condition) →
        EncodesCondition text condition ↔ (condition_in (string text) ≡ Some condition) }
{}

//! The printed line of a finding.

ghost use Rattle.std.specs.Prelude.{◌≡◌, ◌++◌, IfOk, OnOk, flat_map, string_bytes};
ghost use Rattle.wf_value.specs.RefusalText.{refusal_detail};
ghost use Rattle.wf_value.specs.SpacedText.{spaced};
ghost use Rattle.workflow_lint.specs.Lines.{finding_line, meaning, meaning_of_code, shown_path};

use crate::finding::Finding;
use std::alloc::{AllocError, Global};
use std::fmt::Write;
use wf_value::{Chars, Code, Refusal};

fn meaning_of_code(code: Code) -> &'static str
    ensures { result.now ≡ meaning_of_code code }
{
    match code {
        Code::NotJson => "not JSON, or not UTF-8",
        Code::WrongKind => "of the wrong kind, or missing",
        Code::JobId => "not a job id",
        Code::UnknownNeed => "no job of the workflow",
        Code::NoLabels => "no label in runs-on",
        Code::LeftOut => "not supported",
        Code::Expression => "an expression that is not supported",
        Code::PlaceOfContext => "a context that may not be used here",
        Code::MatrixValue => "not a value of a matrix",
        Code::EmptyList => "empty",
        Code::MatrixTooLarge => "more than 4096 choices",
        Code::LegCount => "no leg, or more than 256",
        Code::TooManyJobs => "more than 256 jobs",
        Code::TooLong => "longer than 65536 bytes",
        Code::StrategyMember => "of the wrong kind, out of range, or with another member",
        Code::Condition => "a condition that is not supported",
        _ => "refused",
    }
}

/// A short description of a refusal.
fn meaning(refusal: &Refusal) -> &'static str
    ensures { result.now ≡ meaning refusal.now }
{
    match refusal {
        Refusal::Numbered(code) => meaning_of_code(*code),
        Refusal::Cycle(_) => "jobs that need one another in a cycle:",
        Refusal::Turn(_) => "refused",
    }
}

fn shown_path(path: &str) -> &str
    ensures { result.now ≡ shown_path path.now }
{
    if path.is_empty() { "." } else { path }
}

/// Appends each text after a space.
fn push_spaced(text: &mut String, ids: &[Chars]) -> Result<(), AllocError>
    ensures { OnOk result (string_bytes text.new ≡ string_bytes text.old ++ flat_map spaced ids.now) }
{
    for id in ids {
        text.push_str(" ")?;
        text.push_str(id.as_str())?;
    }
    Ok(())
}

fn push_detail(text: &mut String, refusal: &Refusal) -> Result<(), AllocError>
    ensures { OnOk result (string_bytes text.new ≡ string_bytes text.old ++ refusal_detail refusal.now) }
{
    match refusal {
        Refusal::Numbered(_) => Ok(()),
        Refusal::Cycle(ids) => push_spaced(text, ids.as_slice()),
        Refusal::Turn(last) => {
            let last = *last;
            write!(text, " {last}")
        }
    }
}

/// The line `NUMBER PATH: MEANING`, the ids of a cycle, if any, and a line feed.
pub fn finding_line(alloc: Global, finding: &Finding) -> Result<String, AllocError>
    ensures { IfOk result (λ s. string_bytes s ≡ finding_line finding.now) }
{
    let number = finding.refusal.number();
    let path = shown_path(finding.path.as_str());
    let meaning = meaning(&finding.refusal);
    let mut text = format!(in alloc; "{number} {path}: {meaning}")?;
    push_detail(&mut text, &finding.refusal)?;
    text.push_str("\n")?;
    Ok(text)
}

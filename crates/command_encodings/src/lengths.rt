//! The length of an encoding in bytes, before it is written.

ghost use Rattle.std.specs.Prelude.{◌≡◌, [], ◌≤◌, length, sum_by};
ghost use Rattle.run_plan.specs.PlanOf.{faults_of};
ghost use Rattle.run_plan.specs.declared.command.Command.TheVariants as requested_for;
ghost use Rattle.command_encodings.specs.Commands.{command};
ghost use Rattle.command_encodings.specs.Lengths.{command_length, fields_length, length_of, text_length, texts_length};

use run_plan::{Beat, Claim, Command, Done, Form, Label, Labels, Prepared, SmallText};

/// The bytes of a number, a length or a count.
pub const WORD: u64 = 4;

pub fn small_text_length<F: Form>(text: &SmallText<F>) -> u64
    ensures length { result ≡ text_length text.now }
    ensures most { result ≤ 68 }
{
    WORD + text.as_str().len() as u64
}

/// The bytes of each label and of the length before it.
fn label_list_length(list: &[Label]) -> u64
    requires { length list.now ≤ 16 }
    ensures length { result ≡ sum_by text_length list.now }
    ensures most { result ≤ 1088 }
{
    let mut total = 0;
    for label in list {
        total += small_text_length(label);
    }
    total
}

fn labels_length(labels: &Labels) -> u64
    ensures length { result ≡ texts_length labels.now }
    ensures most { result ≤ 1092 }
{
    WORD + label_list_length(labels.as_slice())
}

/// The bytes of the admitted body and of its length.
fn body_length(event: &Prepared) -> u64
    ensures length { result ≡ text_length event.now.body }
    ensures most { result ≤ 65540 }
    ensures faultless { faults_of event.now.body ≡ [] }
{
    WORD + event.body().len() as u64
}

pub fn admit_length(event: &Prepared) -> u64
    ensures length { result ≡ fields_length (requested_for.Admit event.now) }
    ensures most { result ≤ 65676 }
    ensures faultless { faults_of event.now.body ≡ [] }
{
    small_text_length(event.delivery()) + small_text_length(event.event()) + body_length(event)
}

pub fn claim_length(requests: &Claim) -> u64
    ensures length { result ≡ fields_length (requested_for.Claim requests.now) }
    ensures most { result ≤ 1164 }
{
    small_text_length(&requests.runner) + WORD + labels_length(&requests.labels)
}

pub fn done_length(report: &Done) -> u64
    ensures length { result ≡ fields_length (requested_for.Done report.now) }
    ensures most { result ≤ 77 }
{
    small_text_length(&report.runner) + WORD + WORD + 1
}

fn beat_length(requests: &Beat) -> u64
    ensures length { result ≡ fields_length (requested_for.Beat requests.now) }
    ensures most { result ≤ 72 }
{
    small_text_length(&requests.runner) + WORD
}

/// The bytes after the one for the command's kind.
fn fields_length(requested: &Command) -> u64
    ensures length { result ≡ fields_length requested.now }
    ensures most { result ≤ 65676 }
{
    match requested {
        Command::Admit(event) => admit_length(event),
        Command::Claim(requests) => claim_length(requests),
        Command::Done(report) => done_length(report),
        Command::Beat(requests) => beat_length(requests),
        Command::Lost(runner) | Command::Discharge(runner) => small_text_length(runner),
        Command::Rerun(_) => WORD + WORD,
        Command::Cancel(_) | Command::Look(_) | Command::Fetch(_) | Command::Forget(_) => WORD,
    }
}

/// The number of bytes in the encoding of a command: at most 65,677.
/// Promise (Encodings): The length of an encoding is known before it is written, without memory
/// By: `command_encodings::command_length`; `table_text::table_length`
pub fn command_length(requested: &Command) -> u64
    ensures length { result ≡ length_of command requested.now }
    ensures most { result ≤ 65677 }
{
    1 + fields_length(requested)
}

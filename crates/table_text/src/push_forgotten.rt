//! Appends what is kept of forgotten runs to bytes.
#![tactic(auto, using(command_encodings::proofs::Keeping::unchanged, command_encodings::proofs::Keeping::longer))]

ghost use Rattle.std.specs.Prelude.{◌≡◌, ◌++◌, ◌<◌, ◌^◌, length, OnErr, OnOk};
ghost use Rattle.command_encodings.specs.Commands.{small_text};
ghost use Rattle.command_encodings.specs.inner.Writing.{Keeps};
ghost use Rattle.definitions.specs.SmallText.{is_delivery_byte};
ghost use Rattle.table_text.specs.Tables.{count, forgotten, name};

use crate::push_list::{Push, push_list};
use command_encodings::{push_number, push_small_text, push_text, push_word};
use forgotten_runs::{ForgottenRuns, WorkflowCount};
use run_plan::DeliveryId;
use std::alloc::AllocError;

/// Appends a repository or a path.
fn push_name(out: &mut Vec<u8>, value: &str) -> Result<(), AllocError>
    requires { length value.now < 2 ^ 32 }
    ensures takes { OnOk result (name.Takes value.now) }
    ensures bytes { OnOk result (out.new.items ≡ out.old.items ++ name.encoding value.now) }
    ensures kept { OnErr result (Keeps out.old.items out.new.items) }
{
    push_text(out, value.as_bytes())
}

impl Push for WorkflowCount {
    ghost can_push = { λ c. Unit {0} };

    ghost takes = { count.Takes };

    ghost encoding = { count.encoding };

    fn push_to(&self, out: &mut Vec<u8>) -> Result<(), AllocError> {
        push_name(out, self.repo())?;
        push_name(out, self.path())?;
        push_number(out, self.runs())
    }
}

impl Push for DeliveryId {
    ghost can_push = { λ d. Unit {0} };

    ghost takes = { (small_text is_delivery_byte).Takes };

    ghost encoding = { (small_text is_delivery_byte).encoding };

    fn push_to(&self, out: &mut Vec<u8>) -> Result<(), AllocError> {
        push_small_text(out, self)
    }
}

/// Appends how many runs are forgotten, the counts of their workflows, and the deliveries of the last of them.
pub(crate) fn push_forgotten(out: &mut Vec<u8>, value: &ForgottenRuns) -> Result<(), AllocError>
    ensures takes { OnOk result (forgotten.Takes value.now) }
    ensures bytes { OnOk result (out.new.items ≡ out.old.items ++ forgotten.encoding value.now) }
    ensures kept { OnErr result (Keeps out.old.items out.new.items) }
{
    let counts = value.counts();
    push_word(out, value.through())?;
    push_word(out, counts.len() as u32)?;
    push_list(out, counts)?;
    push_list(out, value.deliveries())
}

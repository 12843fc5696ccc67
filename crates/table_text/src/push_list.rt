//! Appends consecutive values.
#![tactic(auto, using(command_encodings::proofs::Keeping::unchanged, command_encodings::proofs::Keeping::longer))]

ghost use Rattle.std.specs.Prelude.{◌≡◌, ◌++◌, ℕ, List, flat_map, OnErr, OnOk};
ghost use Rattle.std.specs.List.{AllByRecursion};
ghost use Rattle.command_encodings.specs.inner.Writing.{Keeps};

use std::alloc::AllocError;

/// A type whose encoding can be appended to bytes.
pub(crate) trait Push {
    /// What a caller has to prove of the value before it is written.
    ghost can_push: { Self → Type 0 };

    ghost takes: { Self → Type 0 };

    ghost encoding: { Self → List ℕ };

    fn push_to(&self, out: &mut Vec<u8>) -> Result<(), AllocError>
        requires { can_push self.now }
        ensures takes { OnOk result (takes self.now) }
        ensures bytes { OnOk result (out.new.items ≡ out.old.items ++ encoding self.now) }
        ensures kept { OnErr result (Keeps out.old.items out.new.items) };
}

/// Appends the values, one after another.
pub(crate) fn push_list<T: Push>(out: &mut Vec<u8>, list: &[T]) -> Result<(), AllocError>
    requires { AllByRecursion T.can_push list.now }
    ensures takes { OnOk result (AllByRecursion T.takes list.now) }
    ensures bytes { OnOk result (out.new.items ≡ out.old.items ++ flat_map T.encoding list.now) }
    ensures kept { OnErr result (Keeps out.old.items out.new.items) }
{
    for value in list {
        value.push_to(out)?;
    }
    Ok(())
}

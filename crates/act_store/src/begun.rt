ghost use Rattle.std.specs.Prelude.{◌≡◌, ◌≤◌, IfSome, OnErr, OnOk, length, option_map};
ghost use Rattle.act_store.specs.LaterEntries.{with_encoded, without_last};

use crate::last_part::LastPart;
use std::alloc::AllocError;

/// A checkpoint in progress.
#[derive(Drop)]
pub struct Begun {
    /// How many of the first entries lead to the table that it writes.
    pub place: usize,
    /// What follows the gate of the other area once it is written: a head with that table's text.
    pub head_and_text: Vec<u8>,
    /// How many of these bytes were written.
    pub put: usize,
    /// What follows the text: the record of the entries since, encoded as they come.
    pub last: LastPart,
}

/// Adds the encoding of a command to the last part of the checkpoint in progress, if any. Running out of memory changes nothing.
pub(crate) fn add_encoding(begun: &mut Option<Begun>, encoded: &[u8]) -> Result<(), AllocError>
    ensures added { OnOk result (begun.new ≡ option_map (with_encoded encoded.now) begun.old) }
    ensures unchanged { OnErr result (begun.new ≡ begun.old) }
{
    match begun {
        Some(begun) => begun.last.add(encoded),
        None => Ok(()),
    }
}

/// Takes as many bytes of encodings off the last part of the checkpoint in progress, if any.
pub(crate) fn take_off(begun: &mut Option<Begun>, count: usize)
    requires { IfSome begun.old (λ b. count ≤ length b.last.encoded) }
    ensures { begun.new ≡ option_map (without_last count) begun.old }
{
    if let Some(begun) = begun {
        begun.last.take_off(count);
    }
}

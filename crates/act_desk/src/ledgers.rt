ghost use Rattle.std.specs.Prelude.{◌≡◌};

use crate::prefix::Unnamed;
use std::sync::ledger::Blank;

/// How many seats a desk has.
pub const MAX_SEATS: u64 = 64;

/// What a desk counts with, before it has names: the ledgers of entries and of replies, each split into a share for every seat, and the
/// history that the seats will see.
#[derive(Drop)]
pub struct Ledgers {
    pub(crate) entries: Blank,
    pub(crate) replies: Blank,
    pub(crate) history: Unnamed,
    pub ghost entries_cut: { entries.parts ≡ 64 },
    pub ghost replies_cut: { replies.parts ≡ 64 },
}

impl Ledgers {
    pub fn new() -> Ledgers {
        Ledgers {
            entries: Blank::new(MAX_SEATS),
            replies: Blank::new(MAX_SEATS),
            history: Unnamed::new(),
        }
    }
}

use act_store::Entry;
use std::marker::Model;
use std::snapshot::Snapshot;

/// What happens at a desk.
#[derive(Drop)]
pub enum Event {
    /// An entry is made.
    Entered(Snapshot<Entry>),
    /// So many more entries are covered.
    Covered(u64),
    /// A reply is released.
    Told,
}

/// A note in the book of a desk: an event, the key of its token, and the key of the next note of its line. Proofs alone have such values.
pub struct Note {
    pub from: u64,
    pub to: u64,
    pub event: Event,
}

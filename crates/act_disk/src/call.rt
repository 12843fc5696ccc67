use wf_value::Sequence;

/// A completed call of an in-memory disk.
#[derive(Drop)]
pub enum Call {
    /// These bytes were written from this offset on.
    Write { at: u64, bytes: Sequence<u8> },
    Sync,
}

/// What an image contains of the writes since the last sync.
#[derive(Clone, Copy)]
pub enum Fill {
    /// None of them.
    Old,
    /// All of each write.
    New,
    /// The first half of each write, rounded down.
    Half,
    /// The byte 0xA5 throughout the range of each write.
    Gates,
}

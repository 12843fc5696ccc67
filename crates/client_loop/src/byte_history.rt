ghost use Rattle.std.specs.Prelude.{◌≡◌, ◌++◌, [], take};

use http_server::Log;
use std::marker::Model;

/// Bytes that only contracts read. They take no memory.
#[derive(Drop)]
pub(crate) struct ByteHistory {
    pieces: Log<Vec<u8>, usize>,
}

impl Model for ByteHistory {
    ghost use Rattle.std.specs.Prelude.{ℕ, List, take, flat_map};

    ghost Value = { List ℕ };

    ghost view = { λ b. flat_map (λ piece. take piece.1 piece.0.items) b.pieces.items };
}

impl ByteHistory {
    pub(crate) fn new() -> ByteHistory
        ensures { result ≡ [] }
    {
        ByteHistory { pieces: Log::new() }
    }

    /// The first `count` of these bytes.
    pub(crate) fn of(bytes: &Vec<u8>, count: usize) -> ByteHistory
        ensures { result ≡ take count bytes.now.items }
    {
        ByteHistory {
            pieces: Log::new().and(bytes, &count),
        }
    }

    /// Appends the first `count` of these bytes.
    pub(crate) fn add(&mut self, bytes: &Vec<u8>, count: usize)
        ensures { self.new ≡ self.old ++ take count bytes.now.items }
    {
        self.pieces = self.pieces.and(bytes, &count);
    }
}

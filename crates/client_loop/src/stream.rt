//! The stream of one client.

ghost use Rattle.std.specs.Prelude.{◌≡◌, ◌≤◌, ℕ, List, Option, IfNone, IfSome, length, take, vec_len};
ghost use Rattle.std.specs.Io.KnownBytes.{Appends, Consumes};
ghost use Rattle.client_loop.specs.Streams.{GivesNothing};

/// The stream of one client. Neither call waits: what has not come yet, or is not taken, is tried again later.
pub trait Stream: Drop {
    /// The bytes that reads will give from here on, where they are known.
    ghost remaining: { Self → Option (List ℕ) };

    /// All bytes that were written, where they are known.
    ghost contents: { Self → Option (List ℕ) };

    /// Reads once into a buffer. Returns how many bytes came, or `None` if nothing was read. Where it is known what it gives, it gives
    /// something until all is given.
    fn read(&mut self, buffer: &mut Vec<u8>) -> Option<usize>
        ensures bound { IfSome result (λ n. n ≤ vec_len buffer.new) }
        ensures bytes { IfSome result (λ n. Consumes (remaining self.old) (remaining self.new) (take n buffer.new.items)) }
        ensures none { IfNone result (remaining self.new ≡ remaining self.old) }
        ensures silent { IfNone result (GivesNothing (remaining self.old)) }
        ensures kept { contents self.new ≡ contents self.old };

    /// Writes the bytes in order, as many as the stream takes, and returns how many these are.
    fn write(&mut self, bytes: &[u8]) -> usize
        ensures bound { result ≤ length bytes.now }
        ensures bytes { Appends (contents self.old) (contents self.new) (take result bytes.now) }
        ensures kept { remaining self.new ≡ remaining self.old };
}

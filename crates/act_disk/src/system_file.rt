ghost use Rattle.std.specs.Prelude.{◌≡◌, ◌<◌, ◌≤◌, List, ℕ, length, IfOk};
ghost use Rattle.act_disk.specs.SystemCalls.{FileCall, measured, gave, wrote, grew, synced};

/// Why a system call gave no answer.
#[derive(Clone, Copy)]
pub enum CallError {
    /// A signal came before the call had an effect.
    Interrupted,
    Failed,
}

/// One file as the operating system serves it, one call at a time: POSIX `fstat`, `pread`, `pwrite`, `ftruncate` and `fdatasync`.
///
/// Each call adds itself and its answer to `calls`. `SystemCalls` defines the effect of a list of calls on a file's bytes and on what a
/// crash may leave, and whether the answers are those of a file.
pub trait SystemFile: Drop {
    /// The bytes that the file held before the first call.
    ghost held: { List ℕ };

    /// The images that a crash before the first call might have left.
    ghost left: { List ℕ → Type 0 };

    /// The calls made, with their answers, newest first.
    ghost calls: { Self → List FileCall };

    /// The length in bytes.
    fn len(&mut self) -> Result<u64, CallError>
        ensures { calls self.new ≡ measured result (calls self.old) };

    /// Reads bytes from `at` on and returns how many; at the end of the file it fails.
    fn read_at(&mut self, at: u64, buf: &mut [u8]) -> Result<usize, CallError>
        requires { 0 < length buf.old }
        ensures count { IfOk result (λ count. (0 < count) × (count ≤ length buf.old)) }
        ensures calls { calls self.new ≡ gave at buf.new result (calls self.old) };

    /// Writes the first bytes at `at` and returns how many; 0 only for an empty slice.
    fn write_at(&mut self, at: u64, bytes: &[u8]) -> Result<usize, CallError>
        ensures count { IfOk result (λ count. count ≤ length bytes.now) }
        ensures some { 0 < length bytes.now → IfOk result (λ count. 0 < count) }
        ensures calls { calls self.new ≡ wrote at bytes.now result (calls self.old) };

    /// Extends the file to this length, which is not below its own. Zeros follow the old end.
    fn set_len(&mut self, len: u64) -> Result<(), CallError>
        ensures { calls self.new ≡ grew len result (calls self.old) };

    /// Makes the bytes durable, with the metadata needed to find them.
    fn sync_data(&mut self) -> Result<(), CallError>
        ensures { calls self.new ≡ synced result (calls self.old) };

    /// What the file held is one of the images then.
    ghost held_is_left: { left held };
}

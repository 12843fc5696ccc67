/// A system call on a file, with its answer.
#[derive(Clone, Copy)]
pub(crate) enum SystemCall<'a> {
    Measured(u64),
    Gave {
        at: u64,
        bytes: &'a [u8],
    },
    Wrote {
        at: u64,
        bytes: &'a [u8],
        count: usize,
    },
    WriteFailed {
        at: u64,
        bytes: &'a [u8],
    },
    Grew(u64),
    GrowthFailed(u64),
    Synced,
    SyncFailed,
}

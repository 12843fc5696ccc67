//! The limit of the lengths of files that the system sets a process.

use libc::types::rlimit;

/// The resource of `getrlimit` that limits the length of a file.
const RLIMIT_FSIZE: i32 = 1;

/// Whether this process may write all bytes of a file of this length. The kernel ends a process that writes past the limit.
pub(crate) fn may_write(len: u64) -> bool {
    let mut limit = rlimit {
        rlim_cur: u64::MAX,
        rlim_max: u64::MAX,
    };
    let _ = libc::getrlimit(RLIMIT_FSIZE, &mut limit);
    len <= limit.rlim_cur
}

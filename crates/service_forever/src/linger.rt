use std::time::Duration;

/// How many commits at most skip the wait after clients were awaited needlessly.
const MAX_REST: u64 = 16;

/// The shortest half of a commit for which the service waits, in microseconds. It takes longer to wait for less than to
/// commit twice.
const SHORTEST: u64 = 100;

/// How many clients the service waits for before it commits: as many as the last commit released, who are about to send
/// their next command, and those that came during that commit.
///
/// Without this wait, two groups of clients alternate: while the entries of one group are committed, the clients of the
/// other read their answers, so each command waits for two commits.
#[derive(Drop)]
pub(crate) struct Linger {
    expected: usize,
    /// The mean duration of a commit.
    commit: Duration,
    /// How many commits skip the wait.
    rest: u64,
    /// How many commits skip it after the next needless wait. It doubles with each one in a row.
    next_rest: u64,
}

impl Linger {
    pub(crate) fn new() -> Linger {
        Linger {
            expected: 0,
            commit: Duration::ZERO,
            rest: 0,
            next_rest: 1,
        }
    }

    /// Whether as many clients have spoken as are expected.
    pub(crate) fn are_back(&self, spoke: usize) -> bool {
        spoke >= self.expected
    }

    /// Whether commits take so long that it helps to wait.
    pub(crate) fn helps(&self) -> bool {
        self.half() >= Duration::from_micros(SHORTEST)
    }

    /// Half the duration of a commit.
    fn half(&self) -> Duration {
        self.commit.checked_div(2).unwrap_or(Duration::ZERO)
    }

    /// Whether the service waits before it commits for the clients that have spoken.
    pub(crate) fn begins(&mut self, spoke: usize) -> bool {
        if self.are_back(spoke) || !self.helps() {
            return false;
        }
        if self.rest > 0 {
            self.rest = self.rest.saturating_sub(1);
            return false;
        }
        true
    }

    /// How much longer it waits, if it does: fewer have spoken than are expected, and it has waited for less than half the
    /// duration of a commit.
    pub(crate) fn left(&self, spoke: usize, waited: Duration) -> Option<Duration> {
        let left = self.half().saturating_sub(waited);
        if self.are_back(spoke) || left.is_zero() {
            return None;
        }
        Some(left)
    }

    /// The wait is over. After a needless one the next commits skip it, more of them each time in a row.
    pub(crate) fn ends(&mut self, spoke: usize) {
        if self.are_back(spoke) {
            self.next_rest = 1;
        } else {
            self.rest = self.next_rest;
            self.next_rest = self.next_rest.saturating_mul(2).min(MAX_REST);
        }
    }

    /// A commit of this duration was made for the clients that have spoken. `came` others came during it.
    pub(crate) fn has_committed(&mut self, took: Duration, spoke: usize, came: usize) {
        self.expected = spoke.saturating_add(came);
        self.commit = mean(self.commit, took);
    }
}

/// A mean in which the newest value has the weight of one eighth.
fn mean(so_far: Duration, newest: Duration) -> Duration {
    match (so_far.checked_div(8), newest.checked_div(8)) {
        (Some(less), Some(more)) if !so_far.is_zero() => {
            so_far.saturating_sub(less).saturating_add(more)
        }
        _ => newest,
    }
}

use std::time::Duration;

/// How many commits at most skip the wait after seats were awaited needlessly.
const MAX_REST: u64 = 16;

/// How many seats a leader waits for before it commits: as many as the last commit covered, whose clients are about to send their next
/// command, and those that came during that commit.
///
/// Without this wait, two groups of clients alternate: while the entries of one group are committed, the clients of the other read their
/// answers, so each command waits for two commits. Seats are only counted, since a client may return to another seat: a sender and a
/// runner alternate.
#[derive(Drop)]
pub(crate) struct Linger {
    /// How many seats are expected before the next commit.
    expected: u64,
    /// How many seats wait for the next commit, or lead it.
    back: u64,
    /// The mean duration of a commit.
    commit: Duration,
    /// How many commits skip the wait.
    rest: u64,
    /// How many commits skip it after the next needless wait. It doubles with each one in a row.
    next_rest: u64,
    /// A leader waits.
    waits: bool,
}

impl Linger {
    pub(crate) fn new() -> Linger {
        Linger {
            expected: 0,
            back: 0,
            commit: Duration::ZERO,
            rest: 0,
            next_rest: 1,
            waits: false,
        }
    }

    /// A seat starts to wait for the next commit, or to lead it.
    pub(crate) fn comes(&mut self) {
        self.back = self.back.saturating_add(1);
    }

    /// A seat stops waiting, and its entry was not covered.
    pub(crate) fn goes(&mut self) {
        self.back = self.back.saturating_sub(1);
    }

    fn are_back(&self) -> bool {
        self.back >= self.expected
    }

    /// Whether a leader waits and as many seats are back as expected.
    pub(crate) fn is_over(&self) -> bool {
        self.waits && self.are_back()
    }

    /// A leader is about to commit. Returns how long it waits first, if it does: at most half the duration of a commit.
    pub(crate) fn begins(&mut self) -> Option<Duration> {
        if self.are_back() {
            return None;
        }
        if self.rest > 0 {
            self.rest = self.rest.saturating_sub(1);
            return None;
        }
        self.waits = true;
        self.commit.checked_div(2)
    }

    /// A leader has waited. After a needless wait the next commits skip it, more of them each time in a row.
    pub(crate) fn ends(&mut self) {
        self.waits = false;
        if self.are_back() {
            self.next_rest = 1;
        } else {
            self.rest = self.next_rest;
            self.next_rest = self.next_rest.saturating_mul(2).min(MAX_REST);
        }
    }

    /// A commit of this duration covered all waiting entries. `came` other seats came during it.
    pub(crate) fn has_committed(&mut self, took: Duration, came: u64) {
        self.expected = self.back.saturating_add(came);
        self.back = 0;
        self.commit = mean(self.commit, took);
    }
}

/// A mean in which the newest value has the weight of one eighth.
fn mean(so_far: Duration, newest: Duration) -> Duration {
    match (so_far.checked_div(8), newest.checked_div(8)) {
        (Some(less), Some(more)) if !so_far.is_zero() => {
            so_far.saturating_sub(less).saturating_add(more)
        }
        _ => newest,
    }
}

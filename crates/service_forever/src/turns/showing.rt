//! How a turn shows clients of the view port what they ask for, and for how long.

use crate::turns::Turns;
use crate::turns::hearing::ACCEPTED;
use act_disk::Disk;
use client_ports::MAX_CLIENTS;
use service_views::Seen;
use std::time::{Clock, Duration, Instant, SystemTime, UNIX_EPOCH};
use wf_value::Refusal;

/// The part of a turn that more than one view may take, as a divisor.
const SHARE: u32 = 10;

/// How long ago a moment was; nothing if the clock cannot be read.
fn elapsed<R: Clock>(rt: &R, since: Instant) -> Duration {
    match Instant::now(rt) {
        Ok(now) => now.saturating_duration_since(since),
        Err(_) => Duration::ZERO,
    }
}

/// Milliseconds since 1970; `before` if the clock cannot be read.
fn milliseconds<R: Clock>(rt: &R, before: u64) -> u64 {
    let Ok(now) = SystemTime::now(rt) else {
        return before;
    };
    match now.duration_since(UNIX_EPOCH) {
        Ok(since) => u64::try_from(since.as_millis()).unwrap_or(before),
        Err(_) => before,
    }
}

impl<D: Disk> Turns<'_, D> {
    /// A commit has ended. It took so long.
    pub(crate) fn has_committed<R: Clock>(&mut self, rt: &R, took: Duration) {
        if let Some(views) = &mut self.views {
            self.committed = milliseconds(rt, self.committed);
            views.committed(took);
        }
    }

    /// Accepts connections that have come to the view port. Returns whether there were some.
    fn accept_views(&mut self) -> Result<bool, Refusal> {
        let Some(views) = &mut self.views else {
            return Ok(false);
        };
        for count in 0..ACCEPTED {
            if !views.accept(self.alloc, self.now)? {
                return Ok(count > 0);
            }
        }
        Ok(true)
    }

    /// Serves the next client of the view port. Returns false if there is none.
    fn show_next(&mut self) -> bool {
        let (hooks, runners) = self.clients.taken();
        let store = self.service.store();
        let Some(table) = self.service.seen_table() else {
            return false;
        };
        let Some(views) = &mut self.views else {
            return false;
        };
        let seen = Seen {
            table,
            version: views.version,
            board: views.board,
            area: store.area(),
            room: store.room(),
            generation: store.generation(),
            hooks,
            runners,
            viewers: views.clients(),
            checkpoints: self.checkpoints.finished(),
            now: self.now,
        };
        views.serve_next(self.alloc, seen, &mut self.buffer)
    }

    /// Serves clients of the view port, while all entries are covered: one, and more as long as that takes less than a
    /// tenth of the turn so far. Those whose wait for changes is over come first, and new ones last.
    pub(crate) fn show<R: Clock>(&mut self, rt: &R) -> Result<(), Refusal> {
        self.accept_views()?;
        if !self.service.is_covered() {
            return Ok(());
        }
        let Some(views) = &mut self.views else {
            return Ok(());
        };
        views.call_due(self.now);
        views.take_up(self.alloc, self.service.store(), self.committed, self.now);
        let most = self.time_to_show(rt);
        for _ in 0..MAX_CLIENTS {
            let is_shown = self.show_next() || self.accept_views()?;
            if !is_shown || elapsed(rt, self.began) >= most {
                break;
            }
        }
        Ok(())
    }

    /// Ends the sessions of the view port, since the device has failed.
    pub(crate) fn part_with_viewers(&mut self) {
        if let Some(views) = &mut self.views {
            views.part_with_all(self.alloc, &mut self.buffer, self.now);
        }
    }

    /// How long after the begin of a turn its views may end: a tenth more than has passed.
    fn time_to_show<R: Clock>(&self, rt: &R) -> Duration {
        let passed = elapsed(rt, self.began);
        passed.saturating_add(passed.checked_div(SHARE).unwrap_or(Duration::ZERO))
    }
}

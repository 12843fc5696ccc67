ghost use Rattle.act_desk.specs.Settled.{HasEnded};

use crate::checkpoints::flusher;
use crate::desk::Desk;
use crate::ended::Ended;
use crate::flusher_desk::FlusherDesk;
use crate::gate::Gate;
use crate::named::Named;
use crate::seat::Seat;
use crate::seat_answerer::hold;
use act_disk::Disk;
use act_sessions::Work;
use std::alloc::Global;
use std::sync::ledger::Ledger;
use std::sync::{Mutex, Wait};
use std::time::Clock;

/// Holds sessions at seats, from any thread.
pub(crate) trait Host<S> {
    /// A seat for one more session.
    fn seat(&self) -> Option<S>;

    /// Holds a session at a seat until it ends.
    fn hold<W: Work>(&self, seat: S, work: W) -> Ended
        ensures { HasEnded (W.ends work) result.transcript };

    /// Makes checkpoints beside the sessions until it is told to stop.
    fn flush(&self, stop: &Mutex<bool>);

    /// Tells the flusher to stop.
    fn stop_flushing(&self, stop: &Mutex<bool>);
}

/// A desk, with what a session at it needs.
#[derive(Drop)]
pub(crate) struct DeskHost<'a, D: Disk, E: Named, T: Ledger, G: Gate, R: Wait + Clock> {
    pub(crate) rt: &'a R,
    pub(crate) alloc: Global,
    pub(crate) desk: &'a Desk<D, E, T>,
    pub(crate) gate: &'a G,
}

impl<'a, D: Disk, E: Named, T: Ledger, G: Gate, R: Wait + Clock> Host<Seat<E, T>>
    for DeskHost<'a, D, E, T, G, R> {
    fn seat(&self) -> Option<Seat<E, T>> {
        self.desk.seat(self.rt)
    }

    fn hold<W: Work>(&self, seat: Seat<E, T>, work: W) -> Ended {
        Ended {
            transcript: hold(self.rt, self.alloc, self.desk, self.gate, seat, work),
        }
    }

    /// A device fault ends the flusher; the answers of the sessions report it.
    fn flush(&self, stop: &Mutex<bool>) {
        let _ = flusher(self.rt, self.alloc, &FlusherDesk::new(self.desk, stop));
    }

    fn stop_flushing(&self, stop: &Mutex<bool>) {
        *stop.lock(self.rt) = true;
        self.desk.wake_flusher(self.rt);
    }
}

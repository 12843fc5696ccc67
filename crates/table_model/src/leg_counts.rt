//! How many legs of a job are in each phase that settling, claims and ends ask about. With these counts none of them has to scan the legs
//! to find that there is none.

ghost use Rattle.std.specs.Prelude.{◌≡◌, ◌+◌, ◌<◌, ◌^◌, ◌||◌, [], nat_lt, replicate, true};
ghost use Rattle.table_model.specs.Fitting.{is_ready, is_at_work};
ghost use Rattle.table_model.specs.Groups.{leg_waits};
ghost use Rattle.table_model.specs.inner.LegCounts.{AreCounted, CanMove, one_where};
ghost use Rattle.table_model.specs.Settling.{new_leg};
ghost use Rattle.table_model.specs.Runs.{is_new};

use crate::leg::Leg;

/// How many legs are in each of these phases. All other legs have ended.
#[derive(Clone, Copy)]
pub struct LegCounts {
    /// The legs that have not arrived yet.
    pub newcomers: usize,
    /// The legs that wait for their group.
    pub waiting: usize,
    pub ready: usize,
    /// The legs that have a runner at work.
    pub at_work: usize,
}

impl LegCounts {
    pub(crate) fn none() -> Self
        ensures { AreCounted [] result }
    {
        LegCounts::all_new(0)
    }

    /// The counts of `legs` new legs.
    pub(crate) fn all_new(legs: usize) -> Self
        ensures { AreCounted (replicate legs new_leg) result }
    {
        LegCounts {
            newcomers: legs,
            waiting: 0,
            ready: 0,
            at_work: 0,
        }
    }

    pub(crate) fn of(legs: &[Leg]) -> Self
        ensures { AreCounted legs.now result }
    {
        LegCounts {
            newcomers: legs.iter().filter(|leg| leg.phase.is_new()).count(),
            waiting: legs.iter().filter(|leg| leg.phase.waits()).count(),
            ready: legs.iter().filter(|leg| leg.phase.is_ready()).count(),
            at_work: legs.iter().filter(|leg| leg.phase.is_at_work()).count(),
        }
    }

    /// Whether some leg is ready or at work, so that it holds its group.
    pub(crate) fn has_holding(self) -> bool
        ensures { result ≡ (nat_lt 0 self.ready || nat_lt 0 self.at_work) }
    {
        self.ready > 0 || self.at_work > 0
    }

    /// Whether some leg waits for its group or holds it.
    pub(crate) fn has_active(self) -> bool
        ensures { result ≡ (nat_lt 0 self.waiting || (nat_lt 0 self.ready || nat_lt 0 self.at_work)) }
    {
        self.waiting > 0 || self.has_holding()
    }

    /// Whether some leg is new or waits. No rule applies to any other leg.
    pub(crate) fn has_unready(self) -> bool
        ensures { result ≡ (nat_lt 0 self.newcomers || nat_lt 0 self.waiting) }
    {
        self.newcomers > 0 || self.waiting > 0
    }

    /// Whether some leg has not ended.
    pub(crate) fn has_unended(self) -> bool
        ensures { result ≡ (nat_lt 0 self.newcomers || (nat_lt 0 self.waiting || (nat_lt 0 self.ready || nat_lt 0 self.at_work))) }
    {
        self.newcomers > 0 || self.has_active()
    }

    /// The counts after the leg `from` is replaced by the leg `to`.
    pub(crate) fn moved(self, from: &Leg, to: &Leg) -> Self
        requires newcomers { CanMove is_new from.now.phase self.newcomers }
        requires waiting { CanMove leg_waits from.now.phase self.waiting }
        requires ready { CanMove is_ready from.now.phase self.ready }
        requires at_work { CanMove is_at_work from.now.phase self.at_work }
        ensures newcomers { result.newcomers + one_where (is_new from.now.phase) ≡ self.newcomers + one_where (is_new to.now.phase) }
        ensures waiting { result.waiting + one_where (leg_waits from.now.phase) ≡ self.waiting + one_where (leg_waits to.now.phase) }
        ensures ready { result.ready + one_where (is_ready from.now.phase) ≡ self.ready + one_where (is_ready to.now.phase) }
        ensures at_work { result.at_work + one_where (is_at_work from.now.phase) ≡ self.at_work + one_where (is_at_work to.now.phase) }
    {
        LegCounts {
            newcomers: count_moved(self.newcomers, from.phase.is_new(), to.phase.is_new()),
            waiting: count_moved(self.waiting, from.phase.waits(), to.phase.waits()),
            ready: count_moved(self.ready, from.is_ready(), to.is_ready()),
            at_work: count_moved(self.at_work, from.is_at_work(), to.is_at_work()),
        }
    }
}

/// The count after a change of one leg, which was counted before if `was`, and is counted after if `is`.
fn count_moved(count: usize, was: bool, is: bool) -> usize
    requires least { was ≡ true → 0 < count }
    requires most { count < 2 ^ 63 }
    ensures { result + one_where was ≡ count + one_where is }
{
    if was {
        if is { count } else { count - 1 }
    } else if is {
        count + 1
    } else {
        count
    }
}

//! The group of a run or a leg, whether it waits for the group or holds it, and the holders of a group. Only `group` takes memory.

ghost use Rattle.std.specs.Prelude.{◌≡◌, Some, ◌<◌, IfSome, Ok, false, true, find, is_some, option_and_then, option_map};
ghost use Rattle.definitions.specs.Limits.{max_runs};
ghost use Rattle.wf_value.specs.Gives.{Gives};
ghost use Rattle.group_name.specs.BoundGroup.{group_at as bound_group_at};
ghost use Rattle.table_model.specs.Settling.{is_in_group_of_run};
ghost use Rattle.table_model.specs.Groups.{RunFacts, group_at, run_facts_at};
ghost use Rattle.table_model.specs.Groups.{all_holders, holds, is_in_progress_in, is_pending_in, may_start, waits};
ghost use Rattle.table_model.specs.Holders.{run_of};
ghost use Rattle.table_model.specs.Runs.{run_at};
ghost use Rattle.table_model.specs.inner.Resuming.{makes_room};
ghost use Rattle.table_model.specs.declared.holder.Holder.TheVariants as held;
ghost use Rattle.table_bindings.specs.Bindings.{RunSays};
ghost use Rattle.table_bindings.specs.BoundGroups.{results_by_index};
ghost use Rattle.table_runs.specs.inner.GroupsKept.{is_there};

use crate::runs::Runs;
use group_name::GroupKey;
use std::alloc::Global;
use table_bindings::{GroupRequest, RunBindings};
use table_model::{Holder, LegSite, Run};
use wf_value::{Refusal, Same};

impl Runs {
    /// Run `r` with its bindings.
    pub(super) fn with_bindings(&self, r: usize) -> Option<(&Run, &RunBindings)>
        ensures run { option_map (λ it. it.0.now) result ≡ run_at self.now r }
        ensures says { IfSome result
            (λ it. (facts : RunFacts) → run_facts_at self.now r ≡ Some facts → RunSays facts it.1.now) }
    {
        let run = self.rows.runs.get(r)?;
        let bindings = self.rows.bindings.get(r)?;
        Some((run, bindings))
    }

    /// What a run or a leg asks of a group, and its run. The group's name may depend on the results of that run's jobs.
    fn requested(&self, holder: &Holder) -> Option<(&GroupRequest, &Run)>
        ensures group { option_and_then (λ a. bound_group_at (results_by_index a.1.now) a.0.now.group) result
            ≡ group_at self.now holder.now }
    {
        let (run, bindings) = self.with_bindings(holder.run())?;
        Some((bindings.requested(holder)?, run))
    }

    /// The group of a run or of a leg, if it has one. Its only `Err` is 50 (out of memory).
    pub fn group(&self, alloc: Global, holder: &Holder) -> Result<Option<GroupKey>, Refusal>
        ensures { Gives (λ group. group) result (Ok (group_at self.now holder.now)) }
    {
        match self.requested(holder) {
            Some((requested, run)) => requested.group.key(alloc, run),
            None => Ok(None),
        }
    }

    pub fn waits(&self, holder: &Holder) -> bool
        ensures { result ≡ waits self.now holder.now }
    {
        self.rows.waits(holder)
    }

    pub fn holds(&self, holder: &Holder) -> bool
        ensures { result ≡ holds self.now holder.now }
    {
        self.rows.holds(holder)
    }

    /// The holder of a group that is in progress.
    pub fn running(&self, group: &GroupKey) -> Option<Holder>
        ensures holder { result ≡ find (is_in_progress_in self.now group.now) (all_holders self.now) }
        ensures within { IfSome result (λ h. run_of h < max_runs) }
    {
        let _ = &self.rows.runs;
        self.book.running(group)
    }

    /// The holder of a group that is pending.
    pub fn pending(&self, group: &GroupKey) -> Option<Holder>
        ensures holder { result ≡ find (is_pending_in self.now group.now) (all_holders self.now) }
        ensures within { IfSome result (λ h. run_of h < max_runs) }
    {
        let _ = &self.rows.runs;
        self.book.pending(group)
    }

    /// Whether the run or the leg has a group.
    pub(crate) fn has_group(&self, holder: &Holder) -> bool
        requires { is_there self.now holder.now ≡ true }
        ensures { result ≡ is_some (group_at self.now holder.now) }
    {
        self.rows.key(holder).is_some()
    }

    /// Whether the leg's group is the group of its own run.
    pub(crate) fn is_in_group_of_run(&self, leg: LegSite) -> bool
        requires { is_there self.now (held.Leg leg) ≡ true }
        ensures { result ≡ is_in_group_of_run self.now leg }
    {
        match (
            self.rows.key(&Holder::Run(leg.run)),
            self.rows.key(&Holder::Leg(leg)),
        ) {
            (Some(group), Some(other)) => group.same(other),
            _ => false,
        }
    }

    /// Whether nobody is in progress in the group of a holder. A holder without a group may always start.
    pub(crate) fn may_start(&self, holder: &Holder) -> bool
        requires { is_there self.now holder.now ≡ true }
        ensures { result ≡ may_start self.now holder.now }
    {
        match self.rows.key(holder) {
            Some(group) => self.book.running(group).is_none(),
            None => true,
        }
    }

    /// Whether the arrival of a leg, which is new, affects others in its group: the pending holder ends, or the one in progress is stopped.
    pub(crate) fn makes_room(&self, newcomer: &Holder) -> bool
        requires there { is_there self.now newcomer.now ≡ true }
        requires waits_not { waits self.now newcomer.now ≡ false }
        ensures { result ≡ makes_room self.now newcomer.now }
    {
        match self.rows.key(newcomer) {
            Some(group) => {
                self.book.pending(group).is_some()
                    || (self.rows.cancels(newcomer) && self.book.running(group).is_some())
            }
            None => false,
        }
    }
}

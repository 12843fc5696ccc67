//! What a log tells of a table after a commit.

ghost use Rattle.std.specs.Prelude.{◌≡◌, ◌≤◌, ◌+◌, ◌++◌, ◌∷◌, [], ◌<◌, None, OnOk, IfOk, Some, drop, length, slice_get, take, unwrap_or};
ghost use Rattle.covered_log.specs.Lines.{Begins, Displaced, Entered, Forgets, LegStands, Stands, entries_of, with_all, with_more};
ghost use Rattle.covered_log.specs.Standings.{beginning, displaced_news, forgotten_news, moved_run, news_of, of_legs, run_news, runs_after, runs_news, table_news, told_after, told_of};

use crate::log::CoveredLog;
use crate::moved::moved_legs;
use crate::standings::{Standing, Standings, ToldRuns};
use run_plan::{Command, Number, Reply};
use run_table::{RunView, Table};
use std::alloc::Global;
use table_model::Run;
use table_runs::runs::Runs;
use table_views::{LeaseNames, LegNews};
use wf_value::Refusal;

/// What is looked at: a table after a commit, the time of the commit in milliseconds since 1970, the runs that its commands have cancelled, and
/// the runners of leases.
#[derive(Drop)]
pub struct Look<'t> {
    pub at: u64,
    pub table: &'t Table,
    pub cancelled: &'t [Number],
    pub names: &'t LeaseNames,
}

impl CoveredLog {
    // ---- one change, if there is room for it. Without memory for its line all lines are forgotten, and the counts go on.

    /// Tells an entry.
    pub fn tell_entry(&mut self, alloc: Global, at: u64, command: &Command, reply: &Reply)
        ensures { self.new.changes ≡ with_more self.old.changes (Entered at command.now reply.now) }
    {
        if self.has_room() {
            let _ = self.enter(alloc, at, command, reply);
        }
    }

    /// Tells how a run stands that begins an attempt.
    fn tell_begun(&mut self, alloc: Global, at: u64, table: &Table, view: &RunView<'_>)
        ensures told { self.new.changes ≡ with_more self.old.changes (Begins at table.now view.now) }
        ensures entries { entries_of self.new.changes ≡ entries_of self.old.changes }
    {
        if self.has_room() {
            let _ = self.begin(alloc, at, table, view);
        }
    }

    /// Tells how a run stands.
    fn tell_run(&mut self, alloc: Global, at: u64, id: Number, run: &Run)
        ensures told { self.new.changes ≡ with_more self.old.changes (Stands at id run.now) }
        ensures entries { entries_of self.new.changes ≡ entries_of self.old.changes }
    {
        if self.has_room() {
            let _ = self.stand(alloc, at, id, run);
        }
    }

    /// Tells how a leg stands.
    fn tell_leg(&mut self, alloc: Global, at: u64, news: &LegNews)
        ensures told { self.new.changes ≡ with_more self.old.changes (LegStands at news.now) }
        ensures entries { entries_of self.new.changes ≡ entries_of self.old.changes }
    {
        if self.has_room() {
            let _ = self.stand_leg(alloc, at, news);
        }
    }

    /// Tells that run `r` made way for a newcomer of its group.
    fn tell_displaced(&mut self, alloc: Global, at: u64, runs: &Runs, r: usize, run: &Run)
        ensures told { self.new.changes ≡ with_more self.old.changes (Displaced at runs.now r run.now) }
        ensures entries { entries_of self.new.changes ≡ entries_of self.old.changes }
    {
        if self.has_room() {
            let _ = self.displace(alloc, at, runs, r, run);
        }
    }

    /// Tells through which id runs are forgotten.
    fn tell_through(&mut self, alloc: Global, at: u64, through: u32)
        ensures told { self.new.changes ≡ with_more self.old.changes (Forgets at through) }
        ensures entries { entries_of self.new.changes ≡ entries_of self.old.changes }
    {
        if self.has_room() {
            let _ = self.forget(alloc, at, through);
        }
    }

    // ---- all that a table gives

    /// Tells how these legs stand.
    fn tell_legs(&mut self, alloc: Global, at: u64, legs: &[LegNews])
        ensures told { self.new.changes ≡ with_all self.old.changes (of_legs at legs.now) }
        ensures entries { entries_of self.new.changes ≡ entries_of self.old.changes }
    {
        for news in legs {
            self.tell_leg(alloc, at, news);
        }
    }

    /// Tells a run that begins an attempt, with its row.
    fn tell_beginning(&mut self, alloc: Global, look: &Look<'_>, run: &Run)
        ensures told { self.new.changes ≡ with_more self.old.changes (beginning look.now.at look.now.table.now run.now) }
        ensures entries { entries_of self.new.changes ≡ entries_of self.old.changes }
    {
        self.tell_begun(alloc, look.at, look.table, &RunView::of(run));
    }

    /// Tells a run that does not stand as it was told.
    fn tell_moved_run(&mut self, alloc: Global, look: &Look<'_>, told: &Standing, run: &Run)
        ensures told { self.new.changes ≡ with_more self.old.changes (moved_run look.now.at look.now.table.now told.now run.now) }
        ensures entries { entries_of self.new.changes ≡ entries_of self.old.changes }
    {
        if told.is_of_attempt(run) {
            self.tell_run(alloc, look.at, run.id(), run);
        } else {
            self.tell_beginning(alloc, look, run);
        }
    }

    /// Tells a run, if it does not stand as it was told.
    fn tell_unless_same(&mut self, alloc: Global, look: &Look<'_>, told: &Standing, run: &Run)
        ensures told { self.new.changes ≡ with_all self.old.changes (run_news look.now.at look.now.table.now told.now run.now) }
        ensures entries { entries_of self.new.changes ≡ entries_of self.old.changes }
    {
        if !told.is_same(run) {
            self.tell_moved_run(alloc, look, told, run);
        }
    }

    /// Tells that run `r` made way, if it did since it was told.
    fn tell_if_displaced(
        &mut self,
        alloc: Global,
        look: &Look<'_>,
        told: &Standing,
        r: usize,
        run: &Run,
    )
        ensures told { self.new.changes
            ≡ with_all self.old.changes (displaced_news look.now.at look.now.cancelled.now look.now.table.now told.now r run.now) }
        ensures entries { entries_of self.new.changes ≡ entries_of self.old.changes }
    {
        if told.is_displaced(look.cancelled, run) {
            self.tell_displaced(alloc, look.at, look.table.kept_runs(), r, run);
        }
    }

    /// Tells a run of which nothing was told, and its legs. Returns how it stands.
    #[tactic(auto, using(crate::proofs::Telling::all_of_both))]
    fn greet(
        &mut self,
        alloc: Global,
        look: &Look<'_>,
        r: usize,
        run: &Run,
    ) -> Result<Standing, Refusal>
        ensures news { OnOk result
            (self.new.changes ≡ with_all self.old.changes (news_of look.now.at look.now.cancelled.now look.now.names.now look.now.table.now None r run.now)) }
        ensures told { IfOk result (λ now. now ≡ told_of look.now.names.now look.now.table.now None r run.now) }
        ensures entries { entries_of self.new.changes ≡ entries_of self.old.changes }
    {
        let untold = Standing::untold(alloc);
        let legs = moved_legs(alloc, look, &untold, r, run)?;
        let now = Standing::of(alloc, run)?;
        self.tell_beginning(alloc, look, run);
        self.tell_if_displaced(alloc, look, &untold, r, run);
        self.tell_legs(alloc, look.at, legs.as_slice());
        Ok(now)
    }

    /// Tells a run if it does not stand as it was told, that it made way if it did, and its legs that do not. Returns how it stands, if something
    /// was told.
    #[tactic(auto, using(crate::proofs::Telling::all_of_both))]
    fn renew(
        &mut self,
        alloc: Global,
        look: &Look<'_>,
        told: &Standing,
        r: usize,
        run: &Run,
    ) -> Result<Option<Standing>, Refusal>
        ensures news { OnOk result (self.new.changes
            ≡ with_all self.old.changes (news_of look.now.at look.now.cancelled.now look.now.names.now look.now.table.now (Some told.now) r run.now)) }
        ensures told { IfOk result (λ now. unwrap_or now told.now ≡ told_of look.now.names.now look.now.table.now (Some told.now) r run.now) }
        ensures entries { entries_of self.new.changes ≡ entries_of self.old.changes }
    {
        if told.is_over(run) {
            return Ok(None);
        }
        let legs = moved_legs(alloc, look, told, r, run)?;
        let now = told.renewed(alloc, run, legs.as_slice())?;
        self.tell_unless_same(alloc, look, told, run);
        self.tell_if_displaced(alloc, look, told, r, run);
        self.tell_legs(alloc, look.at, legs.as_slice());
        Ok(now)
    }

    /// Tells what run `r` has become.
    fn look_at(
        &mut self,
        alloc: Global,
        look: &Look<'_>,
        standings: &mut ToldRuns,
        r: usize,
        run: &Run,
    ) -> Result<(), Refusal>
        requires known { r ≤ length standings.old }
        ensures news { OnOk result (self.new.changes
            ≡ with_all self.old.changes (news_of look.now.at look.now.cancelled.now look.now.names.now look.now.table.now (slice_get standings.old r) r run.now)) }
        ensures told { OnOk result (standings.new
            ≡ take r standings.old ++ told_of look.now.names.now look.now.table.now (slice_get standings.old r) r run.now
            ∷ drop (r + 1) standings.old) }
        ensures entries { entries_of self.new.changes ≡ entries_of self.old.changes }
    {
        if standings.is_over(r, run) {
            return Ok(());
        }
        let Some(told) = standings.get(r) else {
            let now = self.greet(alloc, look, r, run)?;
            standings.push(now)?;
            return Ok(());
        };
        let Some(now) = self.renew(alloc, look, told, r, run)? else {
            return Ok(());
        };
        standings.put(r, now);
        Ok(())
    }

    /// Tells which runs a table has forgotten, if these are more than were told.
    fn tell_forgotten(&mut self, alloc: Global, look: &Look<'_>, standings: &Standings)
        ensures told { self.new.changes ≡ with_all self.old.changes (forgotten_news look.now.at look.now.table.now standings.now) }
        ensures entries { entries_of self.new.changes ≡ entries_of self.old.changes }
    {
        let through = look.table.through();
        if standings.through() < through {
            self.tell_through(alloc, look.at, through);
        }
    }

    /// Tells what the runs of a table have become since they were last told, in the order of their ids: each that begins an attempt, with its
    /// row, or does not stand as it was told, and then each of its legs that does not.
    fn look_at_all(
        &mut self,
        alloc: Global,
        look: &Look<'_>,
        standings: &mut ToldRuns,
    ) -> Result<(), Refusal>
        ensures news { OnOk result
            (self.new.changes ≡ with_all self.old.changes (runs_news look.now.at look.now.cancelled.now look.now.names.now look.now.table.now standings.old)) }
        ensures told { OnOk result (standings.new ≡ runs_after look.now.names.now look.now.table.now standings.old) }
        ensures entries { entries_of self.new.changes ≡ entries_of self.old.changes }
    {
        let runs = look.table.kept_runs().as_slice();
        for r in 0..runs.len() {
            self.look_at(alloc, look, standings, r, &runs[r])?;
        }
        Ok(())
    }

    /// Tells which runs a table has forgotten, if these are more than were told, and what its runs have become since they were last told.
    /// Promise (Views of a service): Of a table it is told which runs it has forgotten, if more than were told; then, by ids, each run that begins
    ///   an attempt or is not as it was told, with each of its legs that is not
    /// By: `covered_log::CoveredLog::look`, `news` (`table_news`, `news_of`, `moved_legs`), `told` (`told_after`), `left`
    /// Promise (Views of a service): A run that was stopped since it was told, by no command, is told once more, with the run or leg that is pending
    ///   in its group, or else in progress
    /// By: `covered_log::CoveredLog::look`, `news` (`displaced_news`, `is_displaced`, `is_stopped`); `covered_log::displaced::displaced_line` (`next_after`)
    #[tactic(auto, using(crate::proofs::Telling::all_of_both))]
    pub fn look(
        &mut self,
        alloc: Global,
        look: &Look<'_>,
        standings: &mut Standings,
    ) -> Result<(), Refusal>
        ensures news { OnOk result
            (self.new.changes ≡ with_all self.old.changes (table_news look.now.at look.now.cancelled.now look.now.names.now look.now.table.now standings.old)) }
        ensures told { OnOk result (standings.new ≡ told_after look.now.names.now look.now.table.now standings.old) }
        ensures left { OnOk result (table_news look.now.at look.now.cancelled.now look.now.names.now look.now.table.now standings.new ≡ []) }
        ensures entries { entries_of self.new.changes ≡ entries_of self.old.changes }
    {
        self.tell_forgotten(alloc, look, standings);
        standings.forget(look.table);
        self.look_at_all(alloc, look, &mut standings.runs)?;
        Ok(())
    }
}

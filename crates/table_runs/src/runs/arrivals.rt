//! Arrivals: of a new run, of a run that begins its next attempt, and of a leg. GitHub Docs, "Control the concurrency of workflows and
//! jobs".

ghost use Rattle.std.specs.Prelude.{◌≡◌, ◌+◌, ◌<◌, ◌∷◌, ◌++◌, ℕ, [], IfOk, IfSome, None, Ok, OnErr, Some, if◌then◌else◌, length, true};
ghost use Rattle.definitions.specs.Limits.{last_attempt, last_number, max_runs};
ghost use Rattle.wf_value.specs.Gives.{Gives};
ghost use Rattle.run_marks.specs.Marked.{Covers, is_marked};
ghost use Rattle.table_model.specs.Settling.{arrived, first_site, newcomer_rule, settled};
ghost use Rattle.table_model.specs.Groups.{cancels_in_progress, group_at, run_waits, waits};
ghost use Rattle.table_model.specs.inner.Holders.{first_conflicting};
ghost use Rattle.table_model.specs.Holders.{run_of};
ghost use Rattle.table_model.specs.Forgotten.{next_run};
ghost use Rattle.table_model.specs.Runs.{again, run_at, with_run};
ghost use Rattle.table_model.specs.inner.Resuming.{is_new_at, resume_at_arrival};
ghost use Rattle.table_model.specs.Sound.{RunsAreSound};
ghost use Rattle.table_model.specs.Stops.{stop_holder};
ghost use Rattle.table_model.specs.declared.holder.Holder.{Holder as HolderInWords};
ghost use Rattle.table_model.specs.declared.holder.Holder.TheVariants as held;
ghost use Rattle.table_model.specs.declared.holder.HolderFilter.TheVariants.{InProgress, OthersPending};
ghost use Rattle.table_model.specs.declared.phases.RunPhase.TheVariants as run;
ghost use Rattle.table_runs.specs.inner.Arriving.{KeptBeside, stopped_if, with_first_stopped};
ghost use Rattle.table_runs.specs.inner.Counted.{number_among};
ghost use Rattle.table_runs.specs.inner.GroupsKept.{GroupsAreKept};
ghost use Rattle.table_runs.specs.inner.MarkedRuns.{AreMarked, is_due};

use crate::rows::{ComingRun, Rows};
use crate::runs::Runs;
use forgotten_runs::ForgottenRuns;
use group_book::Book;
use run_marks::RunBitmap;
use run_plan::Prepared;
use std::alloc::Global;
use table_model::{Change, Holder, JobSite, Leg, LegPhase, LegSite, Run};
use wf_value::{Outcome, Refusal};

impl Runs {
    /// Adds the run of an event at the end, which waits and arrives in its group, and settles. No rule applies before it comes. On an `Err`
    /// nothing has changed.
    /// Promise (Runs, and how they are found): The runs of a table, with their ids, numbers and deliveries, and what an end, a stop, an arrival
    ///   and a re-run change, are the definition's
    /// By: `table_runs::Runs::{admit, position, result, stop, end, lease, rerun, running, pending, of_parts}`
    /// Refusal (The layers below): `table_runs`: `Runs::{admit, rerun, job_id, combo, group}`; `run_table`: `kept_lease`; all copies
    /// When: 50
    /// Afterwards: as it was; lists of labels only grow
    /// By: one clause each (`Gives`); `Runs::{admit, rerun}`, `err`
    pub fn admit(
        &mut self,
        alloc: Global,
        forgotten: &ForgottenRuns,
        event: &Prepared,
    ) -> Result<(), Refusal>
        requires few { length self.old < max_runs }
        requires ids { forgotten.now.through + length self.old < last_number }
        requires sound { RunsAreSound self.old }
        requires rests { first_site self.old ≡ None }
        requires added { RunsAreSound (self.old ++ next_run forgotten.now self.old event.now ∷ []) }
        ensures admitted { Gives (λ _. self.new) result
            (Ok (settled (arrived (held.Run (length self.old)) (self.old ++ next_run forgotten.now self.old event.now ∷ [])).runs)) }
        ensures err { OnErr result (self.new ≡ self.old) }
    {
        let coming = self.rows.coming(event)?;
        let id = forgotten.next_id(self.len());
        let number = forgotten.next_number(event, coming.number);
        let run = Run::of_event(alloc, id, number, event)?;
        let start = self.arrive(alloc, run, coming)?;
        self.settle_from(start);
        Ok(())
    }

    /// Adds a run at the end, which waits and arrives in its group. Returns where settling begins to search.
    fn arrive(&mut self, alloc: Global, run: Run, coming: ComingRun) -> Result<JobSite, Refusal>
        requires few { length self.old < max_runs }
        requires workflow { coming.workflow ≡ run.admitted }
        requires number { coming.number ≡ number_among self.old run.admitted }
        requires waits { run_waits run.phase ≡ true }
        requires sound { RunsAreSound (self.old ++ run ∷ []) }
        ensures admitted { Gives (λ _. self.new) result (Ok (arrived (held.Run (length self.old)) (self.old ++ run ∷ [])).runs) }
        ensures start { IfOk result (λ start. start ≡ resume_at_arrival (self.old ++ run ∷ []) (length self.old)) }
        ensures err { OnErr result (self.new ≡ self.old) }
    {
        let r = self.len();
        self.due.reserve_up_to(r + 1)?;
        self.rows.add(alloc, run, coming, &mut self.book)?;
        self.due.mark(r);
        let to_stop = enter(
            &mut self.rows,
            &mut self.book,
            &mut self.due,
            &Holder::Run(r),
        );
        let start = self.start_of_search(r);
        self.stop_running(to_stop);
        Ok(start)
    }

    /// Where settling begins to search after the arrival of a new run.
    fn start_of_search(&self, newcomer: usize) -> JobSite
        requires { newcomer < length self.now }
        ensures { result ≡ resume_at_arrival self.now newcomer }
    {
        let run = if self.has_group(&Holder::Run(newcomer)) {
            0
        } else {
            newcomer
        };
        JobSite { run, job: 0 }
    }

    /// Puts run `r`, which has ended, into its next attempt, in which it waits and arrives in its group. On an `Err` nothing has changed.
    pub fn rerun(&mut self, alloc: Global, r: usize) -> Result<(), Refusal>
        requires within { r < length self.old }
        requires attempt { IfSome (run_at self.old r) (λ run. run.attempt < last_attempt) }
        requires ended { IfSome (run_at self.old r) (λ x. x.phase ≡ run.Ended) }
        requires sound { RunsAreSound self.old }
        requires begun { RunsAreSound (with_run r again self.old) }
        ensures again { Gives (λ _. self.new) result (Ok (arrived (held.Run r) (with_run r again self.old)).runs) }
        ensures err { OnErr result (self.new ≡ self.old) }
    {
        self.rows.rerun(alloc, r, &mut self.book)?;
        self.due.mark(r);
        let to_stop = enter(
            &mut self.rows,
            &mut self.book,
            &mut self.due,
            &Holder::Run(r),
        );
        self.stop_running(to_stop);
        Ok(())
    }

    /// Stops the holder that an arrival with cancel-in-progress found in progress.
    fn stop_running(&mut self, running: Option<Holder>)
        requires { RunsAreSound self.old }
        ensures { self.new ≡ stopped_if running self.old }
    {
        if let Some(holder) = running {
            self.stop_holder(&holder);
        }
    }

    /// The leg arrives in its group and waits. If its group is its own run's, it is cancelled instead.
    pub(super) fn begin_leg(&mut self, site: LegSite)
        requires new { is_new_at self.old site ≡ true }
        requires sound { RunsAreSound self.old }
        ensures { self.new ≡ (newcomer_rule self.old site).runs }
    {
        let Some(leg) = self.leg(site) else {
            return;
        };
        let leg = *leg;
        if self.is_in_group_of_run(site) {
            let ended = leg.in_phase(LegPhase::Ended(Outcome::Cancelled));
            self.change_within(site.run, Change::PutLeg(site.job, site.leg, ended));
            return;
        }
        let waiting = leg.in_phase(LegPhase::Waiting);
        self.rows
            .change(site.run, Change::PutLeg(site.job, site.leg, waiting));
        self.due.mark(site.run);
        let to_stop = enter(
            &mut self.rows,
            &mut self.book,
            &mut self.due,
            &Holder::Leg(site),
        );
        self.stop_running(to_stop);
    }
}

/// Enters a newcomer, which waits, in the book of groups, and ends the holder that was pending in its group. Returns the holder that is to
/// be stopped.
fn enter(
    rows: &mut Rows,
    book: &mut Book<Holder>,
    due: &mut RunBitmap,
    newcomer: &Holder,
) -> Option<Holder>
    requires sound { RunsAreSound rows.old.runs }
    requires waits { waits rows.old.runs newcomer.now ≡ true }
    requires beside { KeptBeside newcomer.now rows.old.runs rows.old.bindings book.old }
    requires due { AreMarked (is_due rows.old.runs) rows.old.runs due.old }
    ensures displaced { rows.new.runs ≡ with_first_stopped rows.old.runs newcomer.now OthersPending }
    ensures to_stop { result ≡ (if cancels_in_progress rows.old.runs newcomer.now
        then first_conflicting rows.new.runs newcomer.now InProgress else None) }
    ensures kept { GroupsAreKept rows.new.runs rows.new.bindings book.new }
    ensures due { AreMarked (is_due rows.new.runs) rows.new.runs due.new }
    ensures sound { RunsAreSound rows.new.runs }
    ensures group { group_at rows.new.runs newcomer.now ≡ group_at rows.old.runs newcomer.now }
    ensures len { length rows.new.runs ≡ length rows.old.runs }
{
    let cancels = rows.cancels(newcomer);
    let group = rows.spend(newcomer)?;
    let arrival = book.arrive(group, *newcomer, cancels);
    displace(rows, due, arrival.displaced);
    arrival.to_stop
}

/// Ends a holder that waits, if there is one, as cancelled.
fn displace(rows: &mut Rows, due: &mut RunBitmap, displaced: Option<Holder>)
    requires sound { RunsAreSound rows.old.runs }
    requires waits { (h : HolderInWords) → displaced ≡ Some h → waits rows.old.runs h ≡ true }
    requires covers { Covers due.old (length rows.old.runs) }
    ensures runs { rows.new.runs ≡ stopped_if displaced rows.old.runs }
    ensures bindings { rows.new.bindings ≡ rows.old.bindings }
    ensures marked { (h : HolderInWords) → displaced ≡ Some h → is_marked due.new (run_of h) ≡ true }
    ensures marks { (i : ℕ) → is_marked due.old i ≡ true → is_marked due.new i ≡ true }
    ensures len { length due.new ≡ length due.old }
{
    if let Some(holder) = displaced {
        cancel(rows, &holder);
        due.mark(holder.run());
    }
}

/// Ends a holder that waits, as cancelled.
fn cancel(rows: &mut Rows, holder: &Holder)
    requires sound { RunsAreSound rows.old.runs }
    requires waits { waits rows.old.runs holder.now ≡ true }
    ensures runs { rows.new.runs ≡ (stop_holder holder.now rows.old.runs).runs }
    ensures bindings { rows.new.bindings ≡ rows.old.bindings }
{
    match holder {
        Holder::Run(r) => rows.change(*r, Change::Cancel),
        Holder::Leg(site) => {
            let ended = Leg::new().in_phase(LegPhase::Ended(Outcome::Cancelled));
            rows.change(site.run, Change::PutLeg(site.job, site.leg, ended));
        }
    }
}

//! The changes of a table's runs. Each changes at most one holder of a group, and keeps the book of groups exact.

ghost use Rattle.std.specs.Prelude.{◌≡◌, ◌<◌, ◌+◌, ◌⊎◌, ℕ, None, Some, length, option_map, true};
ghost use Rattle.group_book.specs.Books.{slot_in};
ghost use Rattle.group_name.specs.Group.{Group};
ghost use Rattle.run_marks.specs.Marked.{Covers, is_marked};
ghost use Rattle.table_model.specs.Changes.{changed};
ghost use Rattle.table_model.specs.Groups.{may_start, waits};
ghost use Rattle.table_model.specs.Holders.{run_of};
ghost use Rattle.table_model.specs.Runs.{with_job, with_run};
ghost use Rattle.table_model.specs.Settling.{may_run, opened, run_in_phase, finished_as, with_leg_in, first_site};
ghost use Rattle.table_model.specs.Sound.{RunsAreSound};
ghost use Rattle.table_model.specs.LegContext.{planned_legs};
ghost use Rattle.table_model.specs.declared.holder.Holder.{Holder as HolderInWords};
ghost use Rattle.table_model.specs.declared.holder.Holder.TheVariants as held;
ghost use Rattle.table_model.specs.declared.phases.LegPhase.TheVariants as leg;
ghost use Rattle.table_model.specs.declared.phases.RunPhase.TheVariants as run;
ghost use Rattle.table_model.specs.declared.sites.RuleSite.TheVariants.{Opening};
ghost use Rattle.table_runs.specs.inner.BookSteps.{Begins, Leaves};
ghost use Rattle.table_runs.specs.inner.HolderChanges.{ChangesNobody, EndsOnly, StartsOnly};
ghost use Rattle.table_runs.specs.inner.RowsKept.{key_at};

use crate::rows::Rows;
use crate::runs::Runs;
use group_book::Book;
use run_marks::RunBitmap;
use table_model::{Change, Holder, LegPhase, LegSite, RunPhase};
use wf_value::JobResult;

impl Runs {
    /// A change after which the same runs and legs wait for their groups and hold them.
    pub(super) fn change_within(&mut self, r: usize, change: Change)
        requires within { r < length self.old }
        requires nobody { ChangesNobody self.old (with_run r (changed change) self.old) }
        ensures { self.new ≡ with_run r (changed change) self.old }
    {
        self.rows.change(r, change);
        self.due.mark(r);
    }

    /// A change by which a holder that waits begins. Nobody is in progress in its group.
    fn change_starting(&mut self, holder: &Holder, change: Change)
        requires { StartsOnly holder.now self.old (with_run (run_of holder.now) (changed change) self.old) }
        ensures { self.new ≡ with_run (run_of holder.now) (changed change) self.old }
    {
        begin_in_group(&self.rows, &mut self.book, holder);
        let r = holder.run();
        self.rows.change(r, change);
        self.due.mark(r);
    }

    /// A change by which a run or a leg ends. If it held a group, the pending holder of that group may begin, and nobody else.
    pub(super) fn change_ending(&mut self, holder: &Holder, change: Change)
        requires { EndsOnly holder.now self.old (with_run (run_of holder.now) (changed change) self.old) }
        ensures { self.new ≡ with_run (run_of holder.now) (changed change) self.old }
    {
        let next = leave_group(&self.rows, &mut self.book, holder);
        mark_run_of(&mut self.due, next);
        let r = holder.run();
        self.rows.change(r, change);
        self.due.mark(r);
    }

    /// The waiting run begins.
    pub(super) fn start_run(&mut self, r: usize)
        requires sound { RunsAreSound self.old }
        requires waits { waits self.old (held.Run r) ≡ true }
        requires may { may_start self.old (held.Run r) ≡ true }
        ensures { self.new ≡ with_run r (run_in_phase run.Live) self.old }
    {
        self.change_starting(&Holder::Run(r), Change::Phase(RunPhase::Live));
    }

    /// The live run, whose jobs have all finished, ends.
    pub(super) fn end_run(&mut self, r: usize)
        requires { EndsOnly (held.Run r) self.old (with_run r (run_in_phase run.Ended) self.old) }
        ensures { self.new ≡ with_run r (run_in_phase run.Ended) self.old }
    {
        self.change_ending(&Holder::Run(r), Change::Phase(RunPhase::Ended));
    }

    /// Opens job `j` of run `r` with all legs of its plan, and decides their groups.
    pub(crate) fn open_job(&mut self, r: usize, j: usize)
        requires sound { RunsAreSound self.old }
        requires first { first_site self.old ≡ Some (Opening r j) }
        requires may { may_run self.old r j ≡ true }
        ensures { self.new ≡ with_job r j (opened (planned_legs self.old r j)) self.old }
    {
        let without_group = self.rows.decide(r, j);
        self.book.forgo(without_group);
        self.rows.change(r, Change::Open(j));
        self.due.mark(r);
    }

    pub(crate) fn settle_job(&mut self, r: usize, j: usize, settled: JobResult)
        requires within { r < length self.old }
        requires nobody { ChangesNobody self.old (with_job r j (finished_as settled) self.old) }
        ensures { self.new ≡ with_job r j (finished_as settled) self.old }
    {
        self.change_within(r, Change::Settle(j, settled));
    }

    /// The waiting leg becomes ready.
    pub(crate) fn start_leg(&mut self, site: LegSite)
        requires sound { RunsAreSound self.old }
        requires waits { waits self.old (held.Leg site) ≡ true }
        requires may { may_start self.old (held.Leg site) ≡ true }
        ensures { self.new ≡ with_leg_in leg.Ready site self.old }
    {
        if let Some(leg) = self.leg(site) {
            let change = Change::PutLeg(site.job, site.leg, leg.in_phase(LegPhase::Ready));
            self.change_starting(&Holder::Leg(site), change);
        }
    }
}

/// The holder begins in its group, if it has one.
pub(super) fn begin_in_group(rows: &Rows, book: &mut Book<Holder>, holder: &Holder)
    requires { (g : Group) → key_at rows.now.bindings holder.now ≡ Some g → (slot_in book.old.entries g).in_progress ≡ None }
    ensures begins { Begins (key_at rows.now.bindings holder.now) book.old.entries book.new.entries }
    ensures expected { book.new.expected ≡ book.old.expected }
{
    if let Some(group) = rows.key(holder) {
        book.start(group);
    }
}

/// The holder leaves its group, if it has one. Returns the pending holder, which may begin now.
fn leave_group(rows: &Rows, book: &mut Book<Holder>, holder: &Holder) -> Option<Holder>
    ensures leaves { Leaves (key_at rows.now.bindings holder.now) holder.now book.old.entries book.new.entries result }
    ensures expected { book.new.expected ≡ book.old.expected }
{
    match rows.key(holder) {
        Some(group) => book.leave(group, holder),
        None => None,
    }
}

/// Marks the run of a holder, if there is one.
fn mark_run_of(marks: &mut RunBitmap, holder: Option<Holder>)
    requires { (h : HolderInWords) → holder ≡ Some h → Covers marks.old (run_of h + 1) }
    ensures marked { (h : HolderInWords) → holder ≡ Some h → is_marked marks.new (run_of h) ≡ true }
    ensures kept { (i : ℕ) → is_marked marks.old i ≡ true → is_marked marks.new i ≡ true }
    ensures others { (i : ℕ) → is_marked marks.new i ≡ true → (is_marked marks.old i ≡ true) ⊎ (option_map run_of holder ≡ Some i) }
    ensures len { length marks.new ≡ length marks.old }
{
    if let Some(one) = holder {
        marks.mark(one.run());
    }
}

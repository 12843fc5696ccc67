//! Where commands and settling search: in the runs that are marked for them. A search that finds nothing in a run removes the mark.

ghost use Rattle.std.specs.Prelude.{◌≡◌, ℕ, ◌<◌, ◌≤◌, IfNone, IfSome, None, Some, false, length, true};
ghost use Rattle.std.specs.Bool.{Decides};
ghost use Rattle.definitions.specs.Limits.{max_runs};
ghost use Rattle.run_marks.specs.Marked.{is_marked};
ghost use Rattle.table_model.specs.inner.ActiveRuns.{is_active};
ghost use Rattle.table_model.specs.inner.Resuming.{JobsRestBefore, RestBefore, apply_at};
ghost use Rattle.table_model.specs.Runs.{run_at, RunState};
ghost use Rattle.table_model.specs.Settling.{first_site};
ghost use Rattle.table_model.specs.inner.WithinRun.{first_in_run, fit_in_run};
ghost use Rattle.settling_laws.specs.inner.RunFacts.{is_so_at};

use crate::first_site::first_in_run_at;
use crate::rows::offers::{below, first_offering};
use crate::runs::Runs;
use run_marks::RunBitmap;
use run_plan::Label;
use table_model::{JobSite, RuleSite};

impl Runs {
    /// The next run that may have a ready leg whose labels are all among `labels`.
    pub(crate) fn next_offering(&self, labels: &[Label], from: usize) -> Option<usize>
        ensures within { IfSome result (λ r. r < length self.now) }
        ensures few { IfSome result (λ r. r < max_runs) }
        ensures from { IfSome result (λ r. from ≤ r) }
        ensures between { IfSome result (λ r. (i : ℕ) → from ≤ i → i < r → apply_at (fit_in_run labels.now self.now) self.now i ≡ None) }
        ensures none { IfNone result ((i : ℕ) → from ≤ i → apply_at (fit_in_run labels.now self.now) self.now i ≡ None) }
    {
        let found = first_offering(&self.rows.index.lists, labels, from);
        below(found, self.len())
    }

    /// The next run in which a rule may apply.
    pub(crate) fn next_due(&self, from: usize) -> Option<usize>
        ensures within { IfSome result (λ r. r < length self.now) }
        ensures few { IfSome result (λ r. r < max_runs) }
        ensures from { IfSome result (λ r. from ≤ r) }
        ensures between { IfSome result (λ r. (i : ℕ) → from ≤ i → i < r → apply_at (first_in_run self.now) self.now i ≡ None) }
        ensures none { IfNone result ((i : ℕ) → from ≤ i → apply_at (first_in_run self.now) self.now i ≡ None) }
    {
        next_below(&self.due, from, self.len())
    }

    /// The next run that may be active: one that waits or is live, or has a leg that waits for its group or holds it.
    pub(crate) fn next_active(&self, from: usize) -> Option<usize>
        ensures within { IfSome result (λ r. r < length self.now) }
        ensures few { IfSome result (λ r. r < max_runs) }
        ensures from { IfSome result (λ r. from ≤ r) }
        ensures between { IfSome result (λ r. (i : ℕ) → from ≤ i → i < r → is_so_at is_active self.now i ≡ false) }
        ensures none { IfNone result ((i : ℕ) → from ≤ i → is_so_at is_active self.now i ≡ false) }
    {
        next_below(&self.rows.active, from, self.len())
    }

    /// Unmarks run `r`, in which no rule applies, as due, until it changes or may advance. Its changes have marked it as active too. That
    /// mark is checked here, once however many of its legs changed.
    pub(crate) fn rest(&mut self, r: usize)
        requires within { r < length self.old }
        requires rests { apply_at (first_in_run self.old) self.old r ≡ None }
        ensures { self.new ≡ self.old }
    {
        self.due.unmark(r);
        self.rows.refresh_marks(r);
    }

    /// The first site in run `r` where a rule applies. None applies before the job at index `from`.
    fn first_site_in_run(&mut self, r: usize, from: usize) -> Option<RuleSite>
        requires { (run : RunState) → run_at self.old r ≡ Some run → JobsRestBefore self.old r run from }
        ensures found { result ≡ apply_at (first_in_run self.old) self.old r }
        ensures kept { self.new ≡ self.old }
    {
        let mut tries = self.tries;
        let site = first_in_run_at(self, r, from, &mut tries);
        self.tries = tries;
        site
    }

    /// The first site where a rule applies. None applies before `from`.
    pub(crate) fn first_site(&mut self, from: JobSite) -> Option<RuleSite>
        requires { RestBefore self.old from }
        ensures found { result ≡ first_site self.old }
        ensures kept { self.new ≡ self.old }
    {
        let mut run = from.run;
        while let Some(r) = self.next_due(run) {
            let job = if r == from.run { from.job } else { 0 };
            let site = self.first_site_in_run(r, job);
            if site.is_some() {
                return site;
            }
            self.rest(r);
            run = r + 1;
        }
        None
    }

    /// Whether no rule applies to the runs.
    pub fn are_at_rest(&mut self) -> bool
        ensures rest { Decides result (first_site self.old ≡ None) }
        ensures kept { self.new ≡ self.old }
    {
        self.first_site(JobSite { run: 0, job: 0 }).is_none()
    }

    /// How often settling has tried a rule at a site. No contract depends on it.
    pub fn tries(&self) -> u64 {
        self.tries
    }
}

/// The first marked run at or after `from`, below `bound`.
fn next_below(marks: &RunBitmap, from: usize, bound: usize) -> Option<usize>
    ensures within { IfSome result (λ r. r < bound) }
    ensures from { IfSome result (λ r. from ≤ r) }
    ensures itself { IfSome result (λ r. is_marked marks.now r ≡ true) }
    ensures between { IfSome result (λ r. (i : ℕ) → from ≤ i → i < r → is_marked marks.now i ≡ false) }
    ensures none { IfNone result ((i : ℕ) → from ≤ i → i < bound → is_marked marks.now i ≡ false) }
{
    match marks.first_from(from) {
        Some(r) if r < bound => Some(r),
        _ => None,
    }
}

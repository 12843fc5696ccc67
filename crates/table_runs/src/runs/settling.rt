//! Settling: apply one rule after another, until none applies.

ghost use Rattle.std.specs.Prelude.{◌≡◌, ◌<◌, false, if◌then◌else◌, is_some, Some, None, IfSome, option_map, option_and_then};
ghost use Rattle.std.specs.Prelude.{filter_map};
ghost use Rattle.std.specs.List.{list_any};
ghost use Rattle.std.specs.Option.{option_map_or};
ghost use Rattle.needs_graph.specs.Needs.{fails_job, gathered, is_cancelled};
ghost use Rattle.table_model.specs.Runs.{first_some, placed, job_at, leg_at, run_at, with_job, outcome_of};
ghost use Rattle.table_model.specs.inner.Resuming.{RestBefore, at_job_again, may_invalidate_others, is_new_at, resume_point};
ghost use Rattle.table_model.specs.Settling.{closing_rule, decided, leg_end, leg_rule, may_run, rule_at, whole_rule};
ghost use Rattle.table_model.specs.Settling.{first_site, first_rule, settled};
ghost use Rattle.table_model.specs.Sound.{RunsAreSound};
ghost use Rattle.table_model.specs.declared.sites.RuleSite.TheVariants.{AtLeg, Closing, Opening, Whole};
ghost use Rattle.table_model.specs.inner.WithinRun.{failing};
ghost use Rattle.table_model.specs.LegContext.{is_stopping};

use crate::runs::Runs;
use crate::walk::Legs;
use table_model::{Holder, JobSite, Leg, LegPhase, LegSite, RuleSite, RunPhase};
use wf_value::JobResult;

impl Runs {
    /// Applies one rule after another, until none applies.
    /// Promise (Runs, and how they are found): Settling goes to a fixpoint, without memory
    /// By: `table_runs::Runs::{settle, are_at_rest}`
    pub fn settle(&mut self)
        requires { RunsAreSound self.old }
        ensures { self.new ≡ settled self.old }
    {
        self.settle_from(JobSite { run: 0, job: 0 });
    }

    /// Settles. The search for rules begins at `start`, and no rule applies before it.
    pub(super) fn settle_from(&mut self, start: JobSite)
        requires sound { RunsAreSound self.old }
        requires rest { RestBefore self.old start }
        ensures { self.new ≡ settled self.old }
    {
        let mut from = start;
        while let Some(next) = self.take_first_rule(from) {
            from = next;
        }
    }

    /// Applies the rule at the first site where one applies, and returns where to search for the next.
    fn take_first_rule(&mut self, from: JobSite) -> Option<JobSite>
        requires sound { RunsAreSound self.old }
        requires rest { RestBefore self.old from }
        ensures took { option_map (λ next. next.runs) (first_rule self.old) ≡ (if is_some result then Some self.new else None) }
        ensures kept { is_some result ≡ false → self.new ≡ self.old }
        ensures rest { IfSome result (λ next. RestBefore self.new next) }
    {
        match self.first_site(from) {
            Some(site) => Some(self.take_first_rule_at(site)),
            None => None,
        }
    }

    /// Applies the rule at `site`, which is the first site where one applies, and returns where to search for the next.
    fn take_first_rule_at(&mut self, site: RuleSite) -> JobSite
        requires sound { RunsAreSound self.old }
        requires first { first_site self.old ≡ Some site }
        ensures took { option_map (λ next. next.runs) (first_rule self.old) ≡ Some self.new }
        ensures rest { RestBefore self.new result }
    {
        let may_invalidate_others = self.may_invalidate_others(&site);
        self.take_rule(site);
        self.resume_point(&site, may_invalidate_others)
    }

    /// Where to search for the next rule after the one at the site: no rule applies before.
    fn resume_point(&self, site: &RuleSite, freed: bool) -> JobSite
        ensures { result ≡ resume_point freed self.now site.now }
    {
        if freed {
            return JobSite { run: 0, job: 0 };
        }
        match site {
            RuleSite::Opening(r, j) => self.at_job_again(*r, *j),
            RuleSite::AtLeg(leg) => self.at_job_again(leg.run, leg.job),
            RuleSite::Closing(r, j) => self.at_job_again(*r, *j),
            RuleSite::Whole(r) => JobSite { run: *r, job: 0 },
        }
    }

    /// Whether the rule there may let a holder of another run go on: a leg arrives there and another holder ends or is stopped, or a live
    /// run with a group ends.
    fn may_invalidate_others(&self, site: &RuleSite) -> bool
        ensures { result ≡ may_invalidate_others self.now site.now }
    {
        match site {
            RuleSite::AtLeg(leg) => self.is_new(*leg) && self.makes_room(&Holder::Leg(*leg)),
            RuleSite::Whole(r) => self.holds(&Holder::Run(*r)) && self.has_group(&Holder::Run(*r)),
            RuleSite::Opening(_, _) | RuleSite::Closing(_, _) => false,
        }
    }

    fn is_new(&self, leg: LegSite) -> bool
        ensures { result ≡ is_new_at self.now leg }
    {
        match self.leg(leg) {
            Some(leg) => leg.phase.is_new(),
            None => false,
        }
    }

    fn at_job_again(&self, r: usize, j: usize) -> JobSite
        ensures { result ≡ at_job_again self.now r j }
    {
        match self.rows.runs.get(r) {
            Some(run) => JobSite {
                run: r,
                job: run.job_again(j),
            },
            None => JobSite { run: r, job: j },
        }
    }

    /// Applies the rule at a site, if one applies.
    fn take_rule(&mut self, site: RuleSite)
        requires sound { RunsAreSound self.old }
        requires first { first_site self.old ≡ Some site }
        ensures { IfSome (rule_at self.old site) (λ next. self.new ≡ next.runs) }
    {
        match site {
            RuleSite::Opening(r, j) => self.decide(r, j),
            RuleSite::AtLeg(leg) => self.move_leg(leg),
            RuleSite::Closing(r, j) => self.close(r, j),
            RuleSite::Whole(r) => self.move_run(r),
        }
    }

    /// Opens the job if its condition holds, and finishes it otherwise.
    fn decide(&mut self, r: usize, j: usize)
        requires sound { RunsAreSound self.old }
        requires first { first_site self.old ≡ Some (Opening r j) }
        ensures { self.new ≡ with_job r j (decided self.old r j) self.old }
    {
        let stopping = self.is_stopping(r);
        if self.may_run(r, j) {
            self.open_job(r, j);
        } else if stopping {
            self.settle_job(r, j, JobResult::Cancelled);
        } else {
            self.settle_job(r, j, JobResult::Skipped);
        }
    }

    /// Whether the condition of the job holds.
    fn may_run(&self, r: usize, j: usize) -> bool
        ensures { result ≡ may_run self.now r j }
    {
        match self.rows.runs.get(r) {
            Some(run) => run.may_run(j),
            None => false,
        }
    }

    fn is_stopping(&self, r: usize) -> bool
        ensures { result ≡ is_stopping self.now r }
    {
        match self.rows.runs.get(r) {
            Some(run) => run.is_stopping(),
            None => false,
        }
    }

    /// A new leg arrives, and a waiting leg becomes ready.
    fn move_leg(&mut self, site: LegSite)
        requires sound { RunsAreSound self.old }
        requires first { first_site self.old ≡ Some (AtLeg site) }
        ensures { IfSome (option_and_then (leg_rule self.old site) (leg_at self.old site)) (λ next. self.new ≡ next.runs) }
    {
        match self.leg_phase(site) {
            Some(LegPhase::New) => self.begin_leg(site),
            Some(LegPhase::Waiting) => self.start_leg(site),
            _ => {}
        }
    }

    fn leg_phase(&self, site: LegSite) -> Option<LegPhase>
        ensures { result ≡ option_map (λ leg. leg.phase) (leg_at self.now site) }
    {
        Some(self.leg(site)?.phase)
    }

    /// Finishes job `j` with the result of its legs.
    fn close(&mut self, r: usize, j: usize)
        requires sound { RunsAreSound self.old }
        requires first { first_site self.old ≡ Some (Closing r j) }
        ensures { IfSome (option_and_then (closing_rule self.old r j) (job_at self.old r j)) (λ next. self.new ≡ next.runs) }
    {
        if let Some(job) = self.job(r, j) {
            let settled = self.result(r, j, job.legs());
            self.settle_job(r, j, settled);
        }
    }

    /// The result of a job from those of its legs that have ended: a failure if a leg failed whose failure is not ignored, otherwise
    /// cancelled if a leg was cancelled, otherwise a success.
    pub fn result(&self, r: usize, j: usize, legs: &[Leg]) -> JobResult
        ensures { result ≡ gathered (filter_map (leg_end self.now r j) (placed legs.now)) }
    {
        if self.failing_leg(r, j, legs).is_some() {
            JobResult::Failure
        } else if any_was_cancelled(legs) {
            JobResult::Cancelled
        } else {
            JobResult::Success
        }
    }

    /// Whether the leg fails its job.
    fn fails_job(&self, site: LegSite, leg: &Leg) -> bool
        ensures { result ≡ option_map_or fails_job (leg_end self.now site.run site.job (site.leg, leg.now)) false }
    {
        leg.has_failed() && !self.continues_on_error(site)
    }

    /// The index of the first leg that fails its job.
    fn failing_leg(&self, r: usize, j: usize, legs: &[Leg]) -> Option<usize>
        ensures { result ≡ first_some (failing self.now r j) (placed legs.now) }
    {
        for (site, leg) in Legs::of_job(r, j, legs) {
            if self.fails_job(site, leg) {
                return Some(site.leg);
            }
        }
        None
    }

    /// A waiting run becomes live, and a live run ends.
    fn move_run(&mut self, r: usize)
        requires sound { RunsAreSound self.old }
        requires first { first_site self.old ≡ Some (Whole r) }
        ensures { IfSome (option_and_then (whole_rule self.old r) (run_at self.old r)) (λ next. self.new ≡ next.runs) }
    {
        if let Some(run) = self.run(r) {
            match run.phase() {
                RunPhase::Waiting => self.start_run(r),
                RunPhase::Live => self.end_run(r),
                RunPhase::Ended => {}
            }
        }
    }
}

fn any_was_cancelled(legs: &[Leg]) -> bool
    ensures { result ≡ list_any (λ leg. option_map_or is_cancelled (outcome_of leg.phase) false) legs.now }
{
    legs.iter().any(|leg| leg.was_cancelled())
}

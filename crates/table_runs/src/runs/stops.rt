//! Stopping runs and legs, one holder at a time. GitHub Docs, "Canceling a workflow".

ghost use Rattle.std.specs.Prelude.{◌≡◌, ◌&&◌, Some, false, not, option_map};
ghost use Rattle.std.specs.Option.{option_map_or};
ghost use Rattle.table_model.specs.Runs.{run_at, with_job, with_leg, with_run};
ghost use Rattle.table_model.specs.LegContext.{may_run_in};
ghost use Rattle.table_model.specs.Sound.{RunsAreSound};
ghost use Rattle.table_model.specs.Stops.{stop_holder};
ghost use Rattle.table_model.specs.Stops.{is_open_at, stopped, stopped_run, with_job_stopped, with_stop_requested, with_stopped_legs};
ghost use Rattle.table_model.specs.declared.phases.RunPhase.TheVariants as run;

use crate::runs::Runs;
use table_model::{Change, Holder, LegSite, RunPhase};

impl Runs {
    /// Stops run `r`, if there is one.
    pub fn stop(&mut self, r: usize)
        requires { RunsAreSound self.old }
        ensures { self.new ≡ with_run r stopped_run self.old }
    {
        let Some(run) = self.run(r) else {
            return;
        };
        match run.phase() {
            RunPhase::Waiting => self.change_ending(&Holder::Run(r), Change::Cancel),
            RunPhase::Live => {
                if !run.is_stopping() {
                    self.request_stop(r);
                }
            }
            RunPhase::Ended => {}
        }
    }

    /// Asks a live run to stop, and stops the legs of each open job whose condition is now false.
    fn request_stop(&mut self, r: usize)
        requires sound { RunsAreSound self.old }
        requires live { option_map (λ x. x.phase) (run_at self.old r) ≡ Some run.Live }
        ensures { self.new ≡ with_run r with_stop_requested self.old }
    {
        self.change_within(r, Change::RequestStop);
        for j in 0..self.rows.job_count(r) {
            self.stop_job(r, j);
        }
        self.rows.refresh_offers(r);
    }

    /// Whether job `j` of run `r` is open and its condition is false.
    fn is_to_stop(&self, r: usize, j: usize) -> bool
        ensures { result ≡ option_map_or (λ run. is_open_at run j && not (may_run_in run j)) (run_at self.now r) false }
    {
        match self.rows.runs.get(r) {
            Some(run) => run.is_to_stop(j),
            None => false,
        }
    }

    /// Stops the legs of job `j` if it is open and its condition is false.
    fn stop_job(&mut self, r: usize, j: usize)
        requires { RunsAreSound self.old }
        ensures stopped { self.new ≡ with_run r (with_job_stopped j) self.old }
        ensures sound { RunsAreSound self.new }
    {
        if self.is_to_stop(r, j) {
            self.stop_each_leg(r, j);
        }
    }

    /// Stops all legs of job `j` of run `r`. Claims then skip the run for lists that only these legs asked for.
    pub(super) fn stop_legs(&mut self, r: usize, j: usize)
        requires { RunsAreSound self.old }
        ensures stopped { self.new ≡ with_job r j with_stopped_legs self.old }
        ensures sound { RunsAreSound self.new }
    {
        self.stop_each_leg(r, j);
        self.rows.refresh_offers(r);
    }

    /// Stops all legs of job `j` of run `r`. Its run stays marked for the lists of legs that were ready.
    fn stop_each_leg(&mut self, r: usize, j: usize)
        requires { RunsAreSound self.old }
        ensures stopped { self.new ≡ with_job r j with_stopped_legs self.old }
        ensures sound { RunsAreSound self.new }
    {
        for l in 0..self.rows.leg_count(r, j) {
            self.stop_one(LegSite::new(r, j, l));
        }
    }

    fn stop_leg(&mut self, site: LegSite)
        requires { RunsAreSound self.old }
        ensures { self.new ≡ with_leg site stopped self.old }
    {
        self.stop_one(site);
        self.rows.refresh_list(site);
    }

    /// Stops the leg, if there is one at the site: it ends as cancelled, or is asked to stop if a runner has it.
    fn stop_one(&mut self, site: LegSite)
        requires { RunsAreSound self.old }
        ensures stopped { self.new ≡ with_leg site stopped self.old }
        ensures sound { RunsAreSound self.new }
    {
        let Some(leg) = self.leg(site) else {
            return;
        };
        let change = Change::PutLeg(site.job, site.leg, leg.stopped());
        if leg.is_at_work() {
            self.change_within(site.run, change);
        } else {
            self.change_ending(&Holder::Leg(site), change);
        }
    }

    /// Stops the run or the leg.
    pub(super) fn stop_holder(&mut self, holder: &Holder)
        requires { RunsAreSound self.old }
        ensures { self.new ≡ (stop_holder holder.now self.old).runs }
    {
        match holder {
            Holder::Run(r) => self.stop(*r),
            Holder::Leg(site) => self.stop_leg(*site),
        }
    }
}

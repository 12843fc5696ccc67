//! The legs of a table or of a run, one after the other in the order of run, job and leg, each with its site.

ghost use Rattle.std.specs.Prelude.{◌≡◌, ◌<◌, ◌^◌, IfSome, map};
ghost use Rattle.std.specs.Iterator.{YieldsFirstBy, item_count};
ghost use Rattle.table_model.specs.Runs.{placed};
ghost use Rattle.table_model.specs.inner.PlacedLegs.{placed_leg, placed_legs, placed_legs_of_run};

use crate::runs::Runs;
use std::marker::Model;
use table_model::{Job, Leg, LegSite, Run};

/// The remaining legs. A contract sees them as a list, each with its site.
#[derive(Drop)]
pub struct Legs<'a> {
    /// The remaining legs of one job, and the site of the first of them.
    legs: &'a [Leg],
    at: LegSite,
    /// The later jobs of its run, and the index of the first of them.
    jobs: &'a [Job],
    job: usize,
    /// The later runs, and the index of the first of them.
    runs: &'a [Run],
    run: usize,
}

impl<'a> Model for Legs<'a> {
    ghost use Rattle.std.specs.Prelude.{List};
    ghost use Rattle.table_model.specs.inner.PlacedLegs.{Fits, PlacedLeg, to_come};

    ghost Value = { List PlacedLeg };

    ghost view = { λ w. to_come w.at w.legs.now w.job w.jobs.now w.run w.runs.now };

    ghost invariant = { λ w. Fits w.at.leg w.legs.now × Fits w.job w.jobs.now × Fits w.run w.runs.now };
}

impl<'a> Legs<'a> {
    /// All legs of the table.
    pub fn of_runs(runs: &'a Runs) -> Self
        ensures { result ≡ placed_legs runs.now }
    {
        Legs {
            legs: &[],
            at: LegSite::new(0, 0, 0),
            jobs: &[],
            job: 0,
            runs: runs.as_slice(),
            run: 0,
        }
    }

    /// All legs of run `r`.
    pub fn of_run(r: usize, run: &'a Run) -> Self
        ensures { result ≡ placed_legs_of_run (r, run.now) }
    {
        Legs {
            legs: &[],
            at: LegSite::new(r, 0, 0),
            jobs: run.jobs(),
            job: 0,
            runs: &[],
            run: 0,
        }
    }

    /// These legs of job `j` of run `r`.
    pub fn of_job(r: usize, j: usize, legs: &'a [Leg]) -> Self
        ensures { result ≡ map (placed_leg r j) (placed legs.now) }
    {
        Legs {
            legs,
            at: LegSite::new(r, j, 0),
            jobs: &[],
            job: 0,
            runs: &[],
            run: 0,
        }
    }
}

impl<'a> Iterator for Legs<'a> {
    type Item = (LegSite, &'a Leg);

    ghost next_gives = { λ s r t. YieldsFirstBy (λ item. record { site = item.0; leg = item.1.now }) (λ rest. rest) s r t
        × IfSome r (λ item. item.0.leg < 2 ^ 63) };

    ghost remaining = { item_count (λ rest. rest) };

    fn next(&mut self) -> Option<(LegSite, &'a Leg)> {
        while self.legs.is_empty() {
            if let Some((job, jobs)) = self.jobs.split_first() {
                self.legs = job.legs();
                self.at = LegSite::new(self.at.run, self.job, 0);
                self.jobs = jobs;
                self.job += 1;
            } else {
                let (run, runs) = self.runs.split_first()?;
                self.jobs = run.jobs();
                self.job = 0;
                self.at = LegSite::new(self.run, 0, 0);
                self.runs = runs;
                self.run += 1;
            }
        }
        let (leg, legs) = self.legs.split_first()?;
        let site = self.at;
        self.legs = legs;
        self.at.leg += 1;
        Some((site, leg))
    }
}

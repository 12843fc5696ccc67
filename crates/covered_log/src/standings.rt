//! How runs stood when they were last told.

ghost use Rattle.std.specs.Prelude.{◌≡◌, ◌==◌, ◌&&◌, ◌||◌, ◌++◌, ◌∷◌, [], ◌<◌, IfOk, OnOk, drop, false, if◌then◌else◌, length, map, nat_eq, option_copied, option_map, slice_get, slice_set, unwrap_or};
ghost use Rattle.std.specs.List.{list_all, list_any};
ghost use Rattle.std.specs.Option.{option_map_or};
ghost use Rattle.table_model.specs.inner.Cells.{states};
ghost use Rattle.covered_log.specs.Standings.{has_no_leg, is_displaced, is_over, is_same, is_same_leg, is_same_lease, is_stopped, knows_stop, left_of, legs_to_keep, standing_of, standings_of, told_leg, untold};

use run_plan::Number;
use run_table::{Table, conclusion_word, leg_word, status_word};
use std::alloc::{AllocError, Global};
use std::marker::Model;
use table_model::{Job, Leg, LegSite, Run, RunPhase};
use table_views::LegNews;

/// The legs of a job.
#[derive(Drop)]
struct JobLegs {
    legs: Vec<Leg>,
}

impl Model for JobLegs {
    ghost use Rattle.std.specs.Prelude.{List};
    ghost use Rattle.table_model.specs.Runs.{LegState};

    ghost Value = { List LegState };

    ghost view = { λ j. j.legs.items };
}

/// How a run stood when it was last told.
#[derive(Drop)]
pub(crate) struct Standing {
    attempt: u32,
    status: &'static str,
    /// Whether the status is `completed`. Most runs of a service have completed, and are looked at after each commit.
    is_completed: bool,
    conclusion: &'static str,
    is_stopped: bool,
    jobs: Vec<JobLegs>,
}

impl Model for Standing {
    ghost use Rattle.std.specs.Prelude.{◌≡◌, codes};
    ghost use Rattle.std.specs.Str.{bytes_eq};
    ghost use Rattle.covered_log.specs.Standings.{Standing as StandingState};

    ghost Value = { StandingState };

    ghost view = { λ s. record { attempt = s.attempt; status = s.status.now; conclusion = s.conclusion.now; stopped = s.is_stopped; jobs = s.jobs.items } };

    ghost invariant = { λ s. s.is_completed ≡ bytes_eq s.status.now (codes "completed") };
}

/// Whether none of these jobs has a leg.
fn have_no_legs(jobs: &[Job]) -> bool
    ensures { result ≡ list_all (λ job. has_no_leg job.state) jobs.now }
{
    jobs.iter().all(|job| job.legs().is_empty())
}

/// Whether none of the jobs of a run has a leg.
fn has_no_legs(run: &Run) -> bool
    ensures { result ≡ list_all has_no_leg run.now.jobs }
{
    have_no_legs(run.jobs())
}

/// Whether a run has been asked to stop, or ended as cancelled before it began.
fn is_stopped(run: &Run) -> bool
    ensures { result ≡ is_stopped run.now }
{
    run.is_stopping()
        || (conclusion_word(run.phase(), run.jobs()) == "cancelled" && has_no_legs(run))
}

/// The legs of each of these jobs.
fn legs_of(alloc: Global, jobs: &[Job]) -> Result<Vec<JobLegs>, AllocError>
    ensures { IfOk result (λ legs. legs.items ≡ map (λ j. j.legs) (states jobs.now)) }
{
    let mut all = Vec::with_capacity(alloc, jobs.len())?;
    for job in jobs {
        let legs = Vec::from_slice(alloc, job.legs())?;
        all.push(JobLegs { legs })?;
    }
    Ok(all)
}

/// The legs of the jobs of a run that goes on.
fn legs_to_keep(alloc: Global, phase: RunPhase, jobs: &[Job]) -> Result<Vec<JobLegs>, AllocError>
    ensures { IfOk result (λ legs. legs.items ≡ legs_to_keep phase (states jobs.now)) }
{
    match phase {
        RunPhase::Waiting | RunPhase::Live => legs_of(alloc, jobs),
        RunPhase::Ended => Ok(Vec::new(alloc)),
    }
}

fn is_same_lease(one: Option<Number>, other: Option<Number>) -> bool
    ensures { result ≡ is_same_lease one other }
{
    match (one, other) {
        (None, None) => true,
        (Some(one), Some(other)) => one.get() == other.get(),
        (None, Some(_)) | (Some(_), None) => false,
    }
}

/// Whether the state and the lease of a leg are the same.
fn is_same_leg(told: &Leg, leg: &Leg) -> bool
    ensures { result ≡ is_same_leg told.now leg.now }
{
    leg_word(told.phase) == leg_word(leg.phase) && is_same_lease(told.lease, leg.lease)
}

/// Whether the id is one of these.
fn has_id(ids: &[Number], id: Number) -> bool
    ensures { result ≡ list_any (nat_eq id) ids.now }
{
    ids.iter().any(|one| id.get() == one.get())
}

impl Standing {
    /// A run of which nothing was told.
    pub(crate) fn untold(alloc: Global) -> Standing
        ensures { result ≡ untold }
    {
        Standing {
            attempt: 0,
            status: "",
            is_completed: false,
            conclusion: "",
            is_stopped: false,
            jobs: Vec::new(alloc),
        }
    }

    pub(crate) fn of(alloc: Global, run: &Run) -> Result<Standing, AllocError>
        ensures { IfOk result (λ standing. standing ≡ standing_of run.now) }
    {
        let status = status_word(run.phase(), run.jobs());
        Ok(Standing {
            attempt: run.attempt().get(),
            status,
            is_completed: status == "completed",
            conclusion: conclusion_word(run.phase(), run.jobs()),
            is_stopped: is_stopped(run),
            jobs: legs_to_keep(alloc, run.phase(), run.jobs())?,
        })
    }

    /// Whether it is of the attempt that a run is in.
    pub(crate) fn is_of_attempt(&self, run: &Run) -> bool
        ensures { result ≡ (self.now.attempt == run.now.attempt) }
    {
        self.attempt == run.attempt().get()
    }

    /// Whether the attempt was told as completed.
    pub(crate) fn is_over(&self, run: &Run) -> bool
        ensures { result ≡ is_over self.now run.now }
    {
        self.is_completed && self.is_of_attempt(run)
    }

    /// Whether the attempt, the status and the conclusion are those that were told.
    pub(crate) fn is_same(&self, run: &Run) -> bool
        ensures { result ≡ is_same self.now run.now }
    {
        self.is_of_attempt(run)
            && self.status == status_word(run.phase(), run.jobs())
            && self.conclusion == conclusion_word(run.phase(), run.jobs())
    }

    /// Whether it was told as stopped in the attempt that a run is in, if the run is.
    fn knows_stop(&self, run: &Run) -> bool
        ensures { result ≡ knows_stop self.now run.now }
    {
        !is_stopped(run) || (self.is_stopped && self.is_of_attempt(run))
    }

    /// Whether a run made way for a newcomer of its group since it was told. `cancelled` are the ids of the runs that commands have cancelled since.
    pub(crate) fn is_displaced(&self, cancelled: &[Number], run: &Run) -> bool
        ensures { result ≡ is_displaced cancelled.now self.now run.now }
    {
        !self.knows_stop(run) && !has_id(cancelled, run.id())
    }

    /// How the run stands, if it does not stand as it was told, or these legs do not.
    pub(crate) fn renewed(
        &self,
        alloc: Global,
        run: &Run,
        moved: &[LegNews],
    ) -> Result<Option<Standing>, AllocError>
        ensures { IfOk result (λ now. unwrap_or now self.now
            ≡ (if is_same self.now run.now && (knows_stop self.now run.now && nat_eq (length moved.now) 0)
            then self.now else standing_of run.now)) }
    {
        if self.is_same(run) && self.knows_stop(run) && moved.is_empty() {
            return Ok(None);
        }
        Ok(Some(Standing::of(alloc, run)?))
    }

    /// A leg as it was told in an attempt, if it was.
    fn leg(&self, attempt: Number, site: LegSite) -> Option<&Leg>
        ensures { option_copied result ≡ told_leg self.now attempt site }
    {
        if self.attempt != attempt.get() {
            return None;
        }
        let job = self.jobs.get(site.job)?;
        job.legs.get(site.leg)
    }

    /// Whether a leg was told in an attempt as it stands.
    pub(crate) fn has_told(&self, attempt: Number, site: LegSite, leg: &Leg) -> bool
        ensures { result ≡ option_map_or (λ told. is_same_leg told leg.now) (told_leg self.now attempt site) false }
    {
        match self.leg(attempt, site) {
            Some(told) => is_same_leg(told, leg),
            None => false,
        }
    }
}

/// How runs stood when they were last told.
#[derive(Drop)]
pub(crate) struct ToldRuns {
    runs: Vec<Standing>,
}

impl Model for ToldRuns {
    ghost use Rattle.std.specs.Prelude.{List};
    ghost use Rattle.covered_log.specs.Standings.{Standing as StandingState};

    ghost Value = { List StandingState };

    ghost view = { λ s. s.runs.items };
}

impl ToldRuns {
    /// How the runs of a table stand.
    fn of(alloc: Global, table: &Table) -> Result<ToldRuns, AllocError>
        ensures { IfOk result (λ told. told ≡ map standing_of table.now.runs) }
    {
        let runs = table.runs();
        let mut standings = Vec::with_capacity(alloc, runs.len())?;
        for run in runs {
            standings.push(Standing::of(alloc, run)?)?;
        }
        Ok(ToldRuns { runs: standings })
    }

    /// How a run stood, if it was told.
    pub(crate) fn get(&self, r: usize) -> Option<&Standing>
        ensures { option_map (λ told. told.now) result ≡ slice_get self.now r }
    {
        self.runs.get(r)
    }

    /// Whether an attempt of run `r` was told as completed.
    pub(crate) fn is_over(&self, r: usize, run: &Run) -> bool
        ensures { result ≡ option_map_or (λ told. is_over told run.now) (slice_get self.now r) false }
    {
        match self.runs.get(r) {
            Some(told) => told.is_over(run),
            None => false,
        }
    }

    /// Replaces how run `r` stood.
    pub(crate) fn put(&mut self, r: usize, now: Standing)
        requires { r < length self.old }
        ensures { self.new ≡ slice_set self.old r now }
    {
        self.runs[r] = now;
    }

    /// Leaves out so many of the first runs.
    fn forget(&mut self, count: usize)
        ensures { self.new ≡ drop count self.old }
    {
        if count < self.runs.len() {
            self.runs.drain(..count);
        } else {
            self.runs.clear();
        }
    }

    /// Adds how the next run stands.
    pub(crate) fn push(&mut self, now: Standing) -> Result<(), AllocError>
        ensures { OnOk result (self.new ≡ self.old ++ now ∷ []) }
    {
        self.runs.push(now)?;
        Ok(())
    }
}

/// How the runs of a table stood when they were last told, and which were forgotten then.
#[derive(Drop)]
pub struct Standings {
    through: u32,
    pub(crate) runs: ToldRuns,
}

impl Model for Standings {
    ghost use Rattle.covered_log.specs.Standings.{Standings as StandingsState};

    ghost Value = { StandingsState };

    ghost view = { λ s. record { through = s.through; runs = s.runs } };
}

impl Standings {
    /// How those of a table stand, for those that list them now.
    pub fn of(alloc: Global, table: &Table) -> Result<Standings, AllocError>
        ensures { IfOk result (λ standings. standings ≡ standings_of table.now) }
    {
        Ok(Standings {
            through: table.through(),
            runs: ToldRuns::of(alloc, table)?,
        })
    }

    /// Through which id runs were forgotten.
    pub(crate) fn through(&self) -> u32
        ensures { result ≡ self.now.through }
    {
        self.through
    }

    /// Leaves out the runs that a table has forgotten since.
    pub(crate) fn forget(&mut self, table: &Table)
        ensures { self.new ≡ record { through = table.now.forgotten.through; runs = left_of table.now self.old } }
    {
        let through = table.through();
        let count = through.saturating_sub(self.through) as usize;
        self.runs.forget(count);
        self.through = through;
    }
}

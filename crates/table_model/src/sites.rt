ghost use Rattle.std.specs.Prelude.{◌≡◌};

/// The site of a leg: the index of its run in the table, of its job in the run and of the leg in the job, each from 0.
#[derive(Clone, Copy)]
pub struct LegSite {
    pub run: usize,
    pub job: usize,
    pub leg: usize,
}

impl LegSite {
    ghost use Rattle.table_model.specs.Runs.{leg_site};

    pub fn new(run: usize, job: usize, leg: usize) -> Self
        ensures { result ≡ leg_site run job leg }
    {
        LegSite { run, job, leg }
    }
}

/// The site of a job: the index of its run in the table and of the job in the run, each from 0.
#[derive(Clone, Copy)]
pub struct JobSite {
    pub run: usize,
    pub job: usize,
}

/// Where settling looks for a rule.
#[derive(Clone, Copy)]
pub enum RuleSite {
    /// Where a job opens: the indices of its run and of the job.
    Opening(usize, usize),
    AtLeg(LegSite),
    /// Where a job finishes with its result: the indices of its run and of the job.
    Closing(usize, usize),
    /// The run itself.
    Whole(usize),
}

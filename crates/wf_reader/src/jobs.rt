ghost use Rattle.std.specs.Prelude.{◌≡◌, IsTrue};
ghost use Rattle.wf_reader.specs.JobOrder.{ids_rise};

use crate::job::Job;
use std::marker::Model;

/// The jobs of a workflow, strictly increasing in byte order of their ids. In contracts it is the list of them.
/// Promise (Bodies, plans and replies): The ids of a workflow's jobs rise
/// By: `wf_reader::Jobs` (its invariant); `wf_reader::Jobs::as_slice`, `rising`; `wf_reader::Jobs::into_vec`, `rising`
#[derive(Drop)]
pub struct Jobs {
    jobs: Vec<Job>,
}

impl Model for Jobs {
    ghost use Rattle.std.specs.Prelude.{List, IsTrue};
    ghost use Rattle.wf_reader.specs.declared.job.Job.{Job};
    ghost use Rattle.wf_reader.specs.JobOrder.{ids_rise};

    ghost Value = { List Job };

    ghost view = { λ j. j.jobs.items };

    ghost invariant = { λ j. IsTrue (ids_rise j.jobs.items) };
}

impl Jobs {
    /// Moves a `Vec` of jobs with increasing ids into it, without copying it.
    pub fn new(jobs: Vec<Job>) -> Self
        requires { IsTrue (ids_rise jobs.items) }
        ensures { result ≡ jobs.items }
    {
        Jobs { jobs }
    }

    /// Moves the `Vec` out.
    pub fn into_vec(self) -> Vec<Job>
        ensures jobs { result.items ≡ self }
        ensures rising { IsTrue (ids_rise result.items) }
    {
        let Jobs { jobs } = self;
        jobs
    }

    pub fn as_slice(&self) -> &[Job]
        ensures jobs { result.now ≡ self.now }
        ensures rising { IsTrue (ids_rise result.now) }
    {
        self.jobs.as_slice()
    }
}

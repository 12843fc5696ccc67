ghost use Rattle.std.specs.List.{slice_index_or};
ghost use Rattle.std.specs.Prelude.{◌≡◌, ◌<◌, [], length, option_map, Ok};
ghost use Rattle.wf_value.specs.Gives.{Gives};
ghost use Rattle.run_plan.specs.PlanOf.{combinations_where, matrix_of};

use matrix_expand::Expansion;
use std::alloc::Global;
use std::marker::Model;
use wf_reader::Job;
use wf_value::{Combo, Matrix, Refusal};

/// The combinations of a job's legs, each made on demand.
#[derive(Drop)]
pub struct JobLegs<'a> {
    /// The combinations of the matrix. A job without a matrix has one leg, with the empty combination.
    expansion: Option<Expansion<'a>>,
}

impl<'a> Model for JobLegs<'a> {
    ghost use Rattle.std.specs.Prelude.{[], ◌∷◌, List};
    ghost use Rattle.std.specs.Option.{option_map_or};
    ghost use Rattle.matrix_expand.specs.Combinations.{Combination};

    ghost Value = { List Combination };

    ghost view = { λ l. option_map_or (λ e. e) l.expansion ([] ∷ []) };
}

/// The matrix of a job, if any.
fn matrix_of(job: &Job) -> Option<&Matrix>
    ensures { option_map (λ m. m.now) result ≡ matrix_of job.now }
{
    match &job.strategy {
        Some(strategy) => strategy.matrix.as_ref(),
        None => None,
    }
}

impl<'a> JobLegs<'a> {
    /// The legs of a job. The `Err` is 21 if the product of the lengths of the matrix's lists is over 4,096, else 22 if the matrix
    /// has no leg or more than 256.
    pub fn of(alloc: Global, job: &'a Job) -> Result<Self, Refusal>
        ensures { Gives (λ l. l) result (combinations_where (matrix_of job.entry.now)) }
    {
        match matrix_of(job) {
            Some(matrix) => Ok(JobLegs {
                expansion: Some(Expansion::of(alloc, matrix)?),
            }),
            None => Ok(JobLegs { expansion: None }),
        }
    }

    pub fn len(&self) -> usize
        ensures { result ≡ length self.now }
    {
        match &self.expansion {
            Some(expansion) => expansion.len(),
            None => 1,
        }
    }

    /// The combination of a leg, by the leg's index.
    pub fn combination(&self, alloc: Global, leg: usize) -> Result<Combo, Refusal>
        requires { leg < length self.now }
        ensures { Gives (λ c. c) result (Ok (slice_index_or self.now leg [])) }
    {
        match &self.expansion {
            Some(expansion) => expansion.combination(alloc, leg),
            None => Ok(Combo::new(alloc)),
        }
    }
}

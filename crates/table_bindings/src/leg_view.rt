ghost use Rattle.std.specs.Prelude.{◌≡◌};

mod label_texts;

use crate::leg_context::LegContext;
use itoa::Buffer;
use run_plan::PlannedJob;
use std::marker::Model;
use table_model::Run;

/// A planned leg, with the facts of its run that its context gives.
#[derive(Drop)]
pub struct LegView<'a> {
    pub run: &'a Run,
    pub job: &'a PlannedJob,
    /// The job's index in its run.
    pub index: usize,
    /// The leg's index in its job, from 0.
    pub leg: usize,
}

impl<'a> Model for LegView<'a> {
    ghost use Rattle.std.specs.Fmt.{decimal};
    ghost use Rattle.std.specs.Prelude.{◌<◌, ◌^◌};
    ghost use Rattle.table_model.specs.Runs.{direct_needs};
    ghost use Rattle.table_model.specs.LegContext.{LegFacts};

    ghost Value = { LegFacts };

    ghost view = { λ v. record {
      event = v.run.now.admitted;
      run_id = decimal v.run.now.id;
      run_number = decimal v.run.now.number;
      run_attempt = decimal v.run.now.attempt;
      job = v.job.now;
      leg = v.leg;
      needs = direct_needs v.run.now v.index;
    } };

    ghost invariant = { λ v. v.leg < 2 ^ 63 };
}

impl<'a> LegView<'a> {
    /// The leg's context. The buffers take the digits of the run's id, number and attempt.
    fn context<'d>(
        &'d self,
        id_digits: &'d mut Buffer,
        number_digits: &'d mut Buffer,
        attempt_digits: &'d mut Buffer,
    ) -> LegContext<'d>
        ensures { result ≡ self.now }
    {
        LegContext {
            run: self.run,
            run_id: id_digits.format(self.run.id().get() as usize),
            run_number: number_digits.format(self.run.number().get() as usize),
            run_attempt: attempt_digits.format(self.run.attempt().get() as usize),
            job: self.job,
            index: self.index,
            leg: self.leg,
        }
    }
}

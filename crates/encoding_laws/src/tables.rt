ghost use Rattle.std.specs.Prelude.{◌<◌, ◌≤◌, ◌^◌, length};
ghost use Rattle.run_plan.specs.declared.last_command.LastCommand.TheVariants as last;
ghost use Rattle.table_model.specs.Parts.{stored_run};
ghost use Rattle.table_model.specs.Sound.{IsSound};
ghost use Rattle.stored_tables.specs.Stored.{stored_last, stored_lease, stored_runner, stored_table};
ghost use Rattle.command_encodings.specs.Commands.{small_text};
ghost use Rattle.definitions.specs.SmallText.{is_delivery_byte};
ghost use Rattle.table_text.specs.Tables.{count, forgotten, job, kept_lease, last_command, lease, leg, run, runner, table};
ghost use Rattle.table_text.specs.inner.Writing.{HasByte, JobHasBytes, KeptHasBytes, RunHasBytes};

use crate::commands::{admit_fits, claim_fits, done_fits, number_fits, small_text_fits};
use crate::lists::{Fits, all_fit};
use forgotten_runs::{ForgottenRuns, WorkflowCount};
use run_plan::{Claim, ClaimReply, DeliveryId, KeptLease, LastCommand, Number};
use run_table::{Runner, Table};
use table_model::{Job, Leg, Run};

fn lease_fits(value: Option<Number>)
    ensures { lease.Takes value }
{
    match value {
        Some(number) => number_fits(number),
        None => {}
    }
}

// ---- runs

impl Fits for Leg {
    ghost can = { HasByte };

    ghost takes = { leg.Takes };

    fn fits(&self) {
        lease_fits(self.lease);
    }
}

impl Fits for Job {
    ghost can = { λ j. JobHasBytes j.state };

    ghost takes = { λ j. job.Takes j.state };

    fn fits(&self) {
        all_fit(self.legs());
    }
}

impl Fits for Run {
    ghost can = { RunHasBytes };

    ghost takes = { λ r. run.Takes (stored_run r) };

    fn fits(&self) {
        admit_fits(self.prepared());
        all_fit(self.jobs());
    }
}

// ---- runners

fn kept_lease_fits(kept: &KeptLease)
    requires job { kept.now.job < 2 ^ 32 }
    requires leg { kept.now.lease_reply.leg < 2 ^ 32 }
    ensures { kept_lease.Takes (stored_lease kept.now) }
{
    number_fits(kept.lease_reply.lease);
    number_fits(kept.lease_reply.run);
    number_fits(kept.attempt);
}

fn last_claim_fits(claim: &Claim, reply: &ClaimReply)
    requires { KeptHasBytes (last.Claim claim.now reply.now) }
    ensures { last_command.Takes (stored_last (last.Claim claim.now reply.now)) }
{
    claim_fits(claim);
    match reply {
        ClaimReply::Nothing => {}
        ClaimReply::Lease(given) => kept_lease_fits(given),
    }
}

fn last_fits(value: &LastCommand)
    requires { KeptHasBytes value.now }
    ensures { last_command.Takes (stored_last value.now) }
{
    match value {
        LastCommand::Claim(claim, reply) => last_claim_fits(claim, reply),
        LastCommand::Done(report) => done_fits(report),
    }
}

impl Fits for Runner {
    ghost can = { λ r. KeptHasBytes r.last };

    ghost takes = { λ r. runner.Takes (stored_runner r) };

    fn fits(&self) {
        small_text_fits(&self.name);
        number_fits(self.number);
        last_fits(&self.last);
        lease_fits(self.holds);
    }
}

// ---- what is kept of forgotten runs

impl Fits for WorkflowCount {
    ghost can = { λ c. Unit {0} };

    ghost takes = { count.Takes };

    fn fits(&self) {
        let _repo = self.repo();
        let _path = self.path();
        number_fits(self.runs());
    }
}

impl Fits for DeliveryId {
    ghost can = { λ d. Unit {0} };

    ghost takes = { (small_text is_delivery_byte).Takes };

    fn fits(&self) {
        small_text_fits(self);
    }
}

fn forgotten_fits(value: &ForgottenRuns)
    ensures { forgotten.Takes value.now }
{
    let _through = value.through();
    all_fit(value.counts());
    all_fit(value.deliveries());
}

// ---- tables

pub(crate) fn table_fits(value: &Table)
    requires { length value.now.runners ≤ 4294967295 }
    ensures sound { IsSound value.now }
    ensures takes { table.Takes (stored_table value.now) }
{
    let _ = value.last_lease();
    forgotten_fits(value.forgotten());
    let runs = value.runs();
    let runners = value.runners();
    all_fit(runs);
    all_fit(runners);
}

//! Whether a failure of a leg is ignored, bound when an attempt of its run begins. GitHub Docs, "Workflow syntax for GitHub Actions",
//! `jobs.<job_id>.continue-on-error`.

ghost use Rattle.std.specs.Prelude.{◌≡◌, IfOk, length};
ghost use Rattle.wf_value.specs.Gives.{ErrsOnlyByMemory};
ghost use Rattle.table_bindings.specs.BoundFlags.{EachSays, FlagsSay};

use crate::groups::BoundFlag;
use crate::run_identity::RunIdentity;
use run_plan::PlannedJob;
use std::alloc::Global;
use wf_reader::Flag;
use wf_value::{Refusal, Sequence};

/// The flag of each leg of a job if it depends on the leg's context; empty if it is fixed.
pub(crate) fn bind_flags<'x>(
    alloc: Global,
    identity: &'x RunIdentity<'_>,
    j: usize,
    job: &'x PlannedJob,
) -> Result<Sequence<BoundFlag>, Refusal>
    ensures err { ErrsOnlyByMemory result }
    ensures says { IfOk result (FlagsSay identity.now j job.now) }
{
    match &job.continue_on_error {
        Flag::Fixed(_) => Ok(Sequence::new(Vec::new(alloc))),
        Flag::Template(_) => Ok(Sequence::new(bind_each(alloc, identity, j, job)?)),
    }
}

/// One for each leg of the job.
fn bind_each<'x>(
    alloc: Global,
    identity: &'x RunIdentity<'_>,
    j: usize,
    job: &'x PlannedJob,
) -> Result<Vec<BoundFlag>, Refusal>
    ensures err { ErrsOnlyByMemory result }
    ensures says { IfOk result (λ flags. EachSays identity.now j job.now flags.items) }
    ensures each { IfOk result (λ flags. length flags.items ≡ length job.now.legs) }
{
    let needs = identity.leg_needs(j);
    let count = job.legs.as_slice().len();
    let mut flags = Vec::with_capacity(alloc, count)?;
    for leg in 0..count {
        let context = identity.leg_context(j, job, leg);
        let bound = BoundFlag::bind(alloc, &job.continue_on_error, &context, &needs)?;
        flags.push(bound)?;
    }
    Ok(flags)
}

//! What a run and its legs ask of concurrency groups and of runners. When an attempt of the run begins, everything that their templates use
//! is known, except the results of the jobs that a leg's job needs. The templates are therefore bound then, and memory for the names of
//! groups is taken. From then on deciding a group and comparing labels takes no memory and looks nothing up. What was bound does not change,
//! so runs for which the same was bound share it. The keys of groups change as they are decided, and are each run's own.

ghost use Rattle.std.specs.Prelude.{◌≡◌, ◌<◌, ◌++◌, ◌∷◌, ℕ, [], IfOk, List, Ok, OnOk, Some, length, option_map, slice_get};
ghost use Rattle.std.specs.Option.{option_map_or};
ghost use Rattle.definitions.specs.Limits.{max_runs};
ghost use Rattle.wf_value.specs.Gives.{ErrsOnlyByMemory, Gives};
ghost use Rattle.label_lists.specs.Lists.{HasPlace, OnlyGrows};
ghost use Rattle.run_plan.specs.PlanOf.{plan_of};
ghost use Rattle.run_plan.specs.declared.planned.PlannedJob.{PlannedJob as Planned};
ghost use Rattle.table_model.specs.Fitting.{has_labels};
ghost use Rattle.table_model.specs.Groups.{run_facts};
ghost use Rattle.table_bindings.specs.Bindings.{JobSays, KeepsLabels, KeepsLabelsAt, RunSays, group_request_of, flag_for};
ghost use Rattle.table_bindings.specs.BoundGroups.{results_by_index};
ghost use Rattle.table_bindings.specs.inner.BoundJobs.{AddsOne, AreBeside, AreNumbersOf};
ghost use Rattle.table_bindings.specs.GroupKeys.{AllAreLater, AreLater, decided};
ghost use Rattle.table_bindings.specs.LabelNumbers.{AreListsOf};
ghost use Rattle.table_bindings.specs.declared.bindings.JobBindings.{JobBindings as RequestsOfJob};
ghost use Rattle.table_bindings.specs.declared.group_keys.HolderKey.TheVariants.{NoGroup};

use crate::flags::bind_flags;
use crate::group_keys::{GroupKeys, HolderKey, LegKeys};
use crate::groups::{BoundFlag, GroupRequest, bind_groups, bind_own};
use crate::label_numbers::{ListNumbers, enter_job};
use crate::plain_labels::plain_texts;
use crate::resolved_labels::{ResolvedLabels, bind_labels, has_texts};
use crate::run_identity::RunIdentity;
use crate::shared::Shared;
use itoa::Buffer;
use label_lists::{LabelList, LabelLists};
use run_plan::{Label, PlannedJob};
use std::alloc::Global;
use table_model::{Holder, Run};
use wf_expr::NeedResults;
use wf_value::{Refusal, Sequence, TryCopy};

/// What the legs of a job ask.
#[derive(Drop)]
pub struct JobBindings {
    /// What each leg asks of a concurrency group; empty if the job has no `concurrency`.
    pub groups: Sequence<GroupRequest>,
    /// The labels that each leg asks for; empty if all legs ask for the same texts.
    pub labels: Sequence<ResolvedLabels>,
    /// These texts, if each label of the job is one plain text.
    pub plain: Option<LabelList>,
    /// For each leg, whether its failure is ignored; empty unless this depends on the leg's context.
    pub flags: Sequence<BoundFlag>,
}

/// What a run asks, and what its legs ask, job by job.
#[derive(Drop)]
pub struct RunBindings {
    /// What the run itself asks of a concurrency group.
    pub own: Option<Shared<GroupRequest>>,
    pub jobs: Shared<Sequence<JobBindings>>,
    /// The groups that the run and its legs ask for, once their names are known.
    pub keys: GroupKeys,
    /// The numbers of the lists of labels that the legs ask for, job by job.
    pub lists: Shared<Sequence<ListNumbers>>,
}

impl JobBindings {
    /// Whether `labels` has each label that leg `l` asks for, given the results. False if the leg's labels were not bound.
    fn is_served<R: NeedResults>(&self, labels: &[Label], l: usize, results: &R) -> bool
        ensures { (whole : List (List ℕ)) → KeepsLabels (R.result_of results.now) self.now l whole → result ≡ has_labels labels.now whole }
    {
        match self.labels.as_slice().get(l) {
            Some(wanted) => wanted.are_among(labels, results),
            None => match &self.plain {
                Some(texts) => has_texts(labels, texts.as_slice()),
                None => false,
            },
        }
    }
}

impl RunBindings {
    /// What the run itself, or one of its legs, asks of a group.
    pub fn requested(&self, holder: &Holder) -> Option<&GroupRequest>
        ensures { option_map (λ requested. requested.now) result ≡ group_request_of self.now holder.now }
    {
        match holder {
            Holder::Run(_) => match &self.own {
                Some(own) => Some(own.get()),
                None => None,
            },
            Holder::Leg(leg) => {
                let job = self.jobs.as_slice().get(leg.job)?;
                job.groups.as_slice().get(leg.leg)
            }
        }
    }

    /// Whether `labels` has each label that leg `l` of job `j` asks for, given the results. Takes no memory.
    pub fn is_served<R: NeedResults>(
        &self,
        labels: &[Label],
        j: usize,
        l: usize,
        results: &R,
    ) -> bool
        ensures { (whole : List (List ℕ)) → KeepsLabelsAt (R.result_of results.now) self.now j l whole → result ≡ has_labels labels.now whole }
    {
        match self.jobs.as_slice().get(j) {
            Some(job) => job.is_served(labels, l, results),
            None => false,
        }
    }

    /// What was bound for whether the leg's failure is ignored.
    pub fn flag(&self, j: usize, l: usize) -> Option<&BoundFlag>
        ensures { option_map (λ flag. flag.now) result ≡ flag_for self.now j l }
    {
        let job = self.jobs.as_slice().get(j)?;
        job.flags.as_slice().get(l)
    }

    /// Binds what the run and its legs ask, for run `r` of a table. The lists of labels that the legs ask for are entered. On an `Err` (50,
    /// out of memory) some of them may have been. What was bound alike for `like`, another run, is kept once.
    /// Promise (Runs, and how they are found): What an attempt binds of groups, labels and flags says, by any results of jobs, what its
    ///   templates say in the context with these results; so a report evaluates no template
    /// By: `table_bindings::RunBindings::{bind, requested, flag, is_served}`; `table_bindings::LegView::label_texts`
    /// Promise (Runs, and how they are found): What is bound for a run is the same whether it refers to the copy of another run or to one of its
    ///   own. What memory either takes is in no clause
    /// By: `table_bindings::RunBindings::bind`; `table_bindings::Shared::{get, as_slice, copy}`
    pub fn bind(
        alloc: Global,
        run: &Run,
        lists: &mut LabelLists,
        r: usize,
        like: Option<&RunBindings>,
    ) -> Result<Self, Refusal>
        requires few { r < max_runs }
        requires place { HasPlace lists.old 0 r }
        ensures err { ErrsOnlyByMemory result }
        ensures grows { OnlyGrows lists.old lists.new }
        ensures says { IfOk result (RunSays (run_facts run.now)) }
        ensures own { IfOk result (λ b. b.keys.own ≡ option_map_or (decided (results_by_index run.now)) b.own NoGroup) }
        ensures as_many { IfOk result (λ b. length b.keys.jobs ≡ length b.jobs) }
        ensures later { IfOk result (λ b. AllAreLater b.jobs b.keys.jobs) }
        ensures lists { IfOk result (λ b. AreListsOf lists.new r b.jobs b.lists) }
    {
        let mut id_digits = Buffer::new();
        let mut number_digits = Buffer::new();
        let mut attempt_digits = Buffer::new();
        let identity = RunIdentity {
            run,
            run_id: id_digits.format(run.id().get() as usize),
            run_number: number_digits.format(run.number().get() as usize),
            run_attempt: attempt_digits.format(run.attempt().get() as usize),
        };
        bind_identity(alloc, &identity, run, lists, r, like)
    }
}

fn bind_identity(
    alloc: Global,
    identity: &RunIdentity<'_>,
    run: &Run,
    lists: &mut LabelLists,
    r: usize,
    like: Option<&RunBindings>,
) -> Result<RunBindings, Refusal>
    requires { HasPlace lists.old 0 r }
    ensures err { ErrsOnlyByMemory result }
    ensures grows { OnlyGrows lists.old lists.new }
    ensures says { IfOk result (RunSays identity.now) }
    ensures own { IfOk result (λ b. b.keys.own ≡ option_map_or (decided (results_by_index run.now)) b.own NoGroup) }
    ensures as_many { IfOk result (λ b. length b.keys.jobs ≡ length b.jobs) }
    ensures later { IfOk result (λ b. AllAreLater b.jobs b.keys.jobs) }
    ensures lists { IfOk result (λ b. AreListsOf lists.new r b.jobs b.lists) }
{
    let own = bind_own(alloc, identity)?;
    let key = HolderKey::of_run(alloc, &own, run)?;
    let bound = bind_jobs(alloc, identity, lists, r)?;
    Ok(bound.with_own(alloc, own, key, like)?)
}

/// What is bound of the jobs of a run, job by job: what the legs ask, the memory for the keys of their groups, and the numbers of their
/// lists of labels.
#[derive(Drop)]
struct BoundJobs {
    jobs: Vec<JobBindings>,
    keys: Vec<LegKeys>,
    lists: Vec<ListNumbers>,
}

impl BoundJobs {
    fn with_capacity(alloc: Global, count: usize) -> Result<Self, Refusal>
        ensures err { ErrsOnlyByMemory result }
        ensures empty { IfOk result (λ b. (b.jobs.items ≡ []) × (b.keys.items ≡ []) × (b.lists.items ≡ [])) }
    {
        Ok(BoundJobs {
            jobs: Vec::with_capacity(alloc, count)?,
            keys: Vec::with_capacity(alloc, count)?,
            lists: Vec::with_capacity(alloc, count)?,
        })
    }

    /// Adds a job of run `r`, whose lists of labels are entered.
    fn add(
        &mut self,
        alloc: Global,
        job: JobBindings,
        lists: &mut LabelLists,
        r: usize,
    ) -> Result<(), Refusal>
        requires { HasPlace lists.old 0 r }
        ensures err { ErrsOnlyByMemory result }
        ensures grows { OnlyGrows lists.old lists.new }
        ensures jobs { OnOk result (self.new.jobs.items ≡ self.old.jobs.items ++ job ∷ []) }
        ensures keys { OnOk result (AddsOne (AreLater job.groups) self.old.keys.items self.new.keys.items) }
        ensures lists { OnOk result (AddsOne (AreNumbersOf lists.new r job) self.old.lists.items self.new.lists.items) }
    {
        let keys = LegKeys::take(alloc, job.groups.as_slice())?;
        let numbers = enter_job(alloc, &job, lists, r)?;
        self.jobs.push(job)?;
        self.keys.push(keys)?;
        self.lists.push(numbers)?;
        Ok(())
    }

    /// All that is bound of a run, which asks this for itself. What was bound alike for `like` is kept once.
    fn with_own(
        self,
        alloc: Global,
        own: Option<GroupRequest>,
        key: HolderKey,
        like: Option<&RunBindings>,
    ) -> Result<RunBindings, Refusal>
        ensures { Gives (λ b. b) result (Ok (record {
          own = own;
          jobs = self.jobs.items;
          keys = record { own = key; jobs = self.keys.items };
          lists = self.lists.items;
        })) }
    {
        let BoundJobs { jobs, keys, lists } = self;
        Ok(RunBindings {
            own: share_own(alloc, own, like)?,
            jobs: Shared::of(alloc, Sequence::new(jobs), jobs_of(like))?,
            keys: GroupKeys::new(key, keys),
            lists: Shared::of(alloc, Sequence::new(lists), lists_of(like))?,
        })
    }
}

fn share_own(
    alloc: Global,
    own: Option<GroupRequest>,
    like: Option<&RunBindings>,
) -> Result<Option<Shared<GroupRequest>>, Refusal>
    ensures { Gives (λ o. o) result (Ok own) }
{
    match own {
        Some(own) => Ok(Some(Shared::of(alloc, own, own_of(like))?)),
        None => Ok(None),
    }
}

fn own_of(bindings: Option<&RunBindings>) -> Option<&Shared<GroupRequest>> {
    bindings?.own.as_ref()
}

fn jobs_of(bindings: Option<&RunBindings>) -> Option<&Shared<Sequence<JobBindings>>> {
    Some(&bindings?.jobs)
}

fn lists_of(bindings: Option<&RunBindings>) -> Option<&Shared<Sequence<ListNumbers>>> {
    Some(&bindings?.lists)
}

fn bind_jobs(
    alloc: Global,
    identity: &RunIdentity<'_>,
    lists: &mut LabelLists,
    r: usize,
) -> Result<BoundJobs, Refusal>
    requires { HasPlace lists.old 0 r }
    ensures err { ErrsOnlyByMemory result }
    ensures grows { OnlyGrows lists.old lists.new }
    ensures many { IfOk result (λ bound. length bound.jobs.items ≡ length (plan_of identity.now.event.body)) }
    ensures says { IfOk result (λ bound. (j : ℕ) (bindings : RequestsOfJob) → slice_get bound.jobs.items j ≡ Some bindings → (job : Planned)
        → slice_get (plan_of identity.now.event.body) j ≡ Some job → JobSays identity.now j job bindings) }
    ensures beside { IfOk result (λ bound. AreBeside lists.new r bound.jobs.items bound.keys.items bound.lists.items) }
{
    let plan = identity.prepared().plan().as_slice();
    let mut bound = BoundJobs::with_capacity(alloc, plan.len())?;
    for j in 0..plan.len() {
        let job = bind_job(alloc, identity, j, &plan[j])?;
        bound.add(alloc, job, lists, r)?;
    }
    Ok(bound)
}

fn bind_job<'x>(
    alloc: Global,
    identity: &'x RunIdentity<'_>,
    j: usize,
    job: &'x PlannedJob,
) -> Result<JobBindings, Refusal>
    ensures err { ErrsOnlyByMemory result }
    ensures says { IfOk result (JobSays identity.now j job.now) }
{
    let groups = bind_groups(alloc, identity, j, job)?;
    let plain = plain_texts(alloc, job.labels.as_slice())?;
    let labels = bind_labels(alloc, identity, j, job, &plain)?;
    let flags = bind_flags(alloc, identity, j, job)?;
    Ok(JobBindings {
        groups,
        labels,
        plain,
        flags,
    })
}

impl TryCopy for RunBindings {
    fn copy(&self, alloc: Global) -> Result<Self, Refusal> {
        let own = match &self.own {
            Some(requested) => Some(requested.copy(alloc)?),
            None => None,
        };
        Ok(RunBindings {
            own,
            jobs: self.jobs.copy(alloc)?,
            keys: self.keys.copy(alloc)?,
            lists: self.lists.copy(alloc)?,
        })
    }
}

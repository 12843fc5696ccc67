//! The runs of a table with what is kept of each, and with the marks and indexes by which commands find them. Concurrency groups stand
//! beside them, in `Runs`.

ghost use Rattle.std.specs.Prelude.{◌≡◌, ◌≤◌, ◌<◌, ◌+◌, ◌*◌, [], length, sum_by, IfOk, IfSome, OnErr, OnOk, option_and_then, option_copied, option_map};
ghost use Rattle.std.specs.Prelude.{Ok, Some, false, slice_get};
ghost use Rattle.std.specs.List.{position};
ghost use Rattle.std.specs.Option.{option_map_or};
ghost use Rattle.definitions.specs.Limits.{max_runs};
ghost use Rattle.wf_value.specs.Gives.{ErrsOnlyByMemory, Gives};
ghost use Rattle.label_lists.specs.Lists.{HasPlace, OnlyGrows};
ghost use Rattle.table_bindings.specs.Bindings.{RunSays};
ghost use Rattle.table_bindings.specs.Bindings.{AreBound};
ghost use Rattle.table_bindings.specs.GroupKeys.{arrivals_of, ticket_in};
ghost use Rattle.table_bindings.specs.LabelNumbers.{AreListsOf};
ghost use Rattle.table_bindings.specs.declared.bindings.RunBindings.{RunBindings as BindingsInCode};
ghost use Rattle.table_bindings.specs.declared.group_keys.HolderKey.TheVariants as key;
ghost use Rattle.table_bindings.specs.declared.group_keys.KnownGroup.{KnownGroup as KnownInCode};
ghost use Rattle.table_model.specs.Changes.{changed};
ghost use Rattle.table_model.specs.Runs.{is_delivered_as, job_at, leg_at, run_at, with_run};
ghost use Rattle.table_model.specs.Groups.{holds, run_facts, waits};
ghost use Rattle.table_runs.specs.inner.Counted.{number_among};
ghost use Rattle.table_runs.specs.inner.Begun.{AddsOrStays, IsBegun, IsBegunBelow, has_legs_at};
ghost use Rattle.table_runs.specs.inner.GroupsKept.{arrivals_to_come};
ghost use Rattle.table_runs.specs.StoredSizes.{max_run_size, run_size};
ghost use Rattle.table_runs.specs.inner.RowsKept.{IsUndecided, decided_in, holder_key_at, key_at, keys_decided, keys_spent};

mod active;
pub(crate) mod counts;
pub(crate) mod index;
pub(crate) mod offers;
mod rerun;
pub(crate) mod sizes;
pub(crate) mod workflow;

use crate::rows::index::Index;
use crate::rows::offers::{offer, offer_run};
use crate::rows::sizes::{run_size, size_added};
use crate::rows::workflow::Workflow;
use group_book::Book;
use group_name::GroupKey;
use label_lists::LabelLists;
use run_marks::RunBitmap;
use run_plan::{DeliveryId, Number, Prepared};
use std::alloc::Global;
use std::marker::Model;
use table_bindings::RunBindings;
use table_model::{Change, Holder, Job, Leg, LegSite, Run};
use wf_value::{Code, Refusal, TryCopy, copy_items};

/// The run that comes next: its workflow, its number among the runs of the workflow that are there, and the index of the latest of them. No
/// contract mentions the index.
#[derive(Drop)]
pub(crate) struct ComingRun {
    pub workflow: Workflow,
    pub number: Number,
    pub latest: Option<usize>,
}

/// The runs, in the order of their ids, with what is kept of each. A contract sees the runs and their bindings as lists.
pub(crate) struct Rows {
    pub(crate) runs: Vec<Run>,
    /// What each run and its legs ask of concurrency groups and of runners.
    pub(crate) bindings: Vec<RunBindings>,
    pub(crate) index: Index,
    /// The runs that wait or are live, or have a leg that waits for its group or holds it.
    pub(crate) active: RunBitmap,
    /// How many bytes the runs have in the text of the table.
    pub(crate) text: u64,
}

impl Model for Rows {
    ghost use Rattle.table_runs.specs.inner.RowsKept.{RowState, RunsAreKept};
    ghost use Rattle.table_runs.specs.StoredSizes.{IsSizeOf};

    ghost Value = { RowState };

    ghost view = { λ r. record { runs = r.runs.items; bindings = r.bindings.items } };

    ghost invariant = { λ r. RunsAreKept r.runs.items r.bindings.items r.index r.active × IsSizeOf r.runs.items r.text };
}

impl Rows {
    pub(crate) fn new(alloc: Global) -> Self
        ensures runs { result.runs ≡ [] }
        ensures bindings { result.bindings ≡ [] }
    {
        Rows {
            runs: Vec::new(alloc),
            bindings: Vec::new(alloc),
            index: Index::new(alloc),
            active: RunBitmap::new(alloc),
            text: 0,
        }
    }

    pub(crate) fn as_slice(&self) -> &[Run]
        ensures runs { result.now ≡ self.now.runs }
        ensures most { length self.now.runs ≤ max_runs }
    {
        self.runs.as_slice()
    }

    /// How many bytes the runs have in the text of the table.
    pub(crate) fn text_size(&self) -> u64
        ensures size { result ≡ sum_by run_size self.now.runs }
        ensures most { result ≤ max_runs * max_run_size }
    {
        self.text
    }

    /// Run `r`.
    pub(crate) fn run(&self, r: usize) -> Option<&Run>
        ensures run { option_copied result ≡ run_at self.now.runs r }
        ensures within { IfSome result (λ run. r < max_runs) }
    {
        self.as_slice().get(r)
    }

    /// The index of the first run of the delivery.
    pub(crate) fn position(&self, delivery: &DeliveryId) -> Option<usize>
        ensures found { result ≡ position (is_delivered_as delivery.now) self.now.runs }
        ensures most { IfSome result (λ i. i < max_runs) }
    {
        self.index.deliveries.index_of(delivery)
    }

    /// What the run is that an event makes next. It takes no memory.
    pub(crate) fn coming(&self, event: &Prepared) -> Result<ComingRun, Refusal>
        requires { length self.now.runs < max_runs }
        ensures err { ErrsOnlyByMemory result }
        ensures workflow { IfOk result (λ coming. coming.workflow ≡ event.now) }
        ensures number { IfOk result (λ coming. coming.number ≡ number_among self.now.runs event.now) }
    {
        let workflow = Workflow::of(event)?;
        let counted = self.index.counts.next(&workflow);
        Ok(ComingRun {
            workflow,
            number: Number::new(counted.number as u32),
            latest: counted.latest,
        })
    }

    /// Adds a run at the end, with its bindings, and takes the memory for the arrivals of the run and of its legs. On an `Err` nothing has
    /// changed.
    pub(crate) fn add(
        &mut self,
        alloc: Global,
        run: Run,
        coming: ComingRun,
        book: &mut Book<Holder>,
    ) -> Result<(), Refusal>
        requires room { length self.old.runs < max_runs }
        requires workflow { coming.workflow ≡ run.admitted }
        requires number { coming.number ≡ number_among self.old.runs run.admitted }
        ensures err { ErrsOnlyByMemory result }
        ensures adds { AddsOrStays result run self.old self.new book.old book.new }
    {
        let ComingRun {
            workflow,
            number,
            latest,
            ..
        } = coming;
        let run = self.sharing(run, latest);
        self.add_numbered(alloc, run, workflow, number, latest, book)
    }

    /// The run, which refers to the copy of its workflow that run `latest` refers to, if they are the same.
    fn sharing(&self, run: Run, latest: Option<usize>) -> Run
        ensures { result ≡ run }
    {
        let mut run = run;
        if let Some(latest) = latest_in(&self.runs, latest) {
            run.share_workflow(latest);
        }
        run
    }

    /// Adds a run of this workflow, whose count is this number from then on. What was bound alike for run `latest` is kept once.
    fn add_numbered(
        &mut self,
        alloc: Global,
        run: Run,
        workflow: Workflow,
        number: Number,
        latest: Option<usize>,
        book: &mut Book<Holder>,
    ) -> Result<(), Refusal>
        requires room { length self.old.runs < max_runs }
        requires workflow { workflow ≡ run.admitted }
        requires number { number ≡ number_among self.old.runs run.admitted }
        ensures err { ErrsOnlyByMemory result }
        ensures adds { AddsOrStays result run self.old self.new book.old book.new }
    {
        let delivery = self.index.make_room(alloc, run.prepared().delivery())?;
        self.runs.reserve(1)?;
        self.bindings.reserve(1)?;
        let r = self.runs.len();
        self.active.reserve_up_to(r + 1)?;
        self.index.lists.reserve_up_to(r + 1)?;
        let like = latest_in(&self.bindings, latest);
        let bindings = bind(alloc, &run, &mut self.index.lists, r, like)?;
        expect(book, &bindings)?;
        self.text += run_size(&run);
        offer_run(&mut self.index.lists, &bindings, r, &run);
        self.active.mark(r);
        self.runs.push_reserved(run);
        self.bindings.push_reserved(bindings);
        self.index.enter(delivery, workflow, number, r);
        Ok(())
    }

    /// How many jobs run `r` has.
    pub(crate) fn job_count(&self, r: usize) -> usize
        ensures { result ≡ option_map_or (λ run. length run.jobs) (run_at self.now.runs r) 0 }
    {
        match self.runs.get(r) {
            Some(run) => run.job_count(),
            None => 0,
        }
    }

    /// Job `j` of run `r`.
    pub(crate) fn job(&self, r: usize, j: usize) -> Option<&Job>
        ensures { option_map (λ job. job.now.state) result ≡ job_at self.now.runs r j }
    {
        self.runs.get(r)?.job(j)
    }

    /// How many legs job `j` of run `r` has.
    pub(crate) fn leg_count(&self, r: usize, j: usize) -> usize
        ensures { result ≡ option_map_or (λ job. length job.legs) (job_at self.now.runs r j) 0 }
    {
        match self.job(r, j) {
            Some(job) => job.legs().len(),
            None => 0,
        }
    }

    /// The leg at a site.
    pub(crate) fn leg(&self, site: LegSite) -> Option<&Leg>
        ensures { option_copied result ≡ leg_at self.now.runs site }
    {
        self.job(site.run, site.job)?.legs().get(site.leg)
    }

    /// Whether the run or the leg waits.
    pub(crate) fn waits(&self, holder: &Holder) -> bool
        ensures { result ≡ waits self.now.runs holder.now }
    {
        match holder {
            Holder::Run(r) => match self.runs.get(*r) {
                Some(run) => run.phase().waits(),
                None => false,
            },
            Holder::Leg(site) => match self.leg(*site) {
                Some(leg) => leg.phase.waits(),
                None => false,
            },
        }
    }

    /// Whether the run or the leg holds its group.
    pub(crate) fn holds(&self, holder: &Holder) -> bool
        ensures { result ≡ holds self.now.runs holder.now }
    {
        match holder {
            Holder::Run(r) => match self.runs.get(*r) {
                Some(run) => run.phase().is_live(),
                None => false,
            },
            Holder::Leg(site) => match self.leg(*site) {
                Some(leg) => leg.phase.holds(),
                None => false,
            },
        }
    }

    /// The key of the group of a run, or of a leg whose job has opened, if it has a group.
    pub(crate) fn key(&self, holder: &Holder) -> Option<&GroupKey>
        ensures { option_copied result ≡ key_at self.now.bindings holder.now }
    {
        self.bindings.get(holder.run())?.keys.key(holder)
    }

    /// Whether the arrival of the holder cancels what is in progress.
    pub(crate) fn cancels(&self, holder: &Holder) -> bool
        ensures { (known : KnownInCode) → holder_key_at self.now.bindings holder.now ≡ Some (key.Known known) → result ≡ known.cancels }
    {
        match self.bindings.get(holder.run()) {
            Some(bindings) => bindings.keys.cancels(holder),
            None => false,
        }
    }

    /// Takes the key that the holder brings to its group when it arrives.
    pub(crate) fn spend(&mut self, holder: &Holder) -> Option<GroupKey>
        ensures ticket { result ≡ option_and_then ticket_in (holder_key_at self.old.bindings holder.now) }
        ensures runs { self.new.runs ≡ self.old.runs }
        ensures spent { self.new.bindings ≡ keys_spent holder.now self.old.bindings }
    {
        let r = holder.run();
        if r < self.bindings.len() {
            let bindings = &mut self.bindings[r];
            bindings.keys.spend(holder)
        } else {
            None
        }
    }

    /// Decides the groups of the legs of job `j` of run `r`. All jobs that it needs have finished. Returns how many of its legs have no
    /// group, so that they will not arrive in one.
    pub(crate) fn decide(&mut self, r: usize, j: usize) -> usize
        requires { (kept : BindingsInCode) → slice_get self.old.bindings r ≡ Some kept → IsUndecided j kept }
        ensures runs { self.new.runs ≡ self.old.runs }
        ensures decided { self.new.bindings ≡ keys_decided r j self.old.runs self.old.bindings }
        ensures without { arrivals_to_come self.new.bindings + result ≡ arrivals_to_come self.old.bindings }
        ensures bound { AreBound self.old.runs self.old.bindings }
    {
        if r < self.runs.len() {
            let bindings = &mut self.bindings[r];
            decide_job(bindings, j, &self.runs[r])
        } else {
            0
        }
    }

    /// Changes run `r`, if there is one. Every change of a run within an attempt goes through this function.
    pub(crate) fn change(&mut self, r: usize, change: Change)
        ensures runs { self.new.runs ≡ with_run r (changed change) self.old.runs }
        ensures bindings { self.new.bindings ≡ self.old.bindings }
    {
        if r < self.runs.len() {
            let offered = change.offered(r);
            let bindings = &self.bindings[r];
            offer(&mut self.index.lists, offered, bindings);
            self.active.mark(r);
            let run = &mut self.runs[r];
            let more = size_added(run, &change);
            run.change(change);
            self.text += more;
        }
    }

    pub(crate) fn copy(&self, alloc: Global) -> Result<Self, Refusal>
        ensures { Gives (λ rows. rows) result (Ok self.now) }
    {
        Ok(Rows {
            runs: copy_items(alloc, &self.runs)?,
            bindings: copy_items(alloc, &self.bindings)?,
            index: self.index.copy(alloc)?,
            active: self.active.copy()?,
            text: self.text,
        })
    }
}

/// What a list has for run `latest`, if there is one.
fn latest_in<T>(items: &[T], latest: Option<usize>) -> Option<&T> {
    items.get(latest?)
}

/// What run `r` and its legs ask for, bound now. The groups of the legs that it has are decided. What was bound alike for `like`, another
/// run, is kept once.
fn bind(
    alloc: Global,
    run: &Run,
    lists: &mut LabelLists,
    r: usize,
    like: Option<&RunBindings>,
) -> Result<RunBindings, Refusal>
    requires few { r < max_runs }
    requires place { HasPlace lists.old 0 r }
    ensures err { ErrsOnlyByMemory result }
    ensures grows { OnlyGrows lists.old lists.new }
    ensures says { IfOk result (RunSays (run_facts run.now)) }
    ensures begun { IfOk result (IsBegun run.now) }
    ensures lists { IfOk result (λ bindings. AreListsOf lists.new r bindings.jobs bindings.lists) }
{
    let mut bindings = RunBindings::bind(alloc, run, lists, r, like)?;
    decide_begun(&mut bindings, run);
    Ok(bindings)
}

/// Takes the memory for the arrivals of a run and of its legs.
fn expect(book: &mut Book<Holder>, bindings: &RunBindings) -> Result<(), Refusal>
    ensures err { ErrsOnlyByMemory result }
    ensures entries { book.new.entries ≡ book.old.entries }
    ensures more { OnOk result (book.new.expected ≡ book.old.expected + arrivals_of bindings.now.keys) }
    ensures same { OnErr result (book.new.expected ≡ book.old.expected) }
{
    match bindings.keys.arrivals() {
        Some(arrivals) => book.expect(arrivals),
        None => Err(Refusal::Numbered(Code::NoMemory)),
    }
}

/// Decides the groups of the legs of a job, given the results of the run's jobs. Returns how many of them have no group.
fn decide_job(bindings: &mut RunBindings, j: usize, run: &Run) -> usize
    requires { IsUndecided j bindings.old }
    ensures decided { bindings.new ≡ decided_in j run.now bindings.old }
    ensures without { arrivals_of bindings.new.keys + result ≡ arrivals_of bindings.old.keys }
{
    match bindings.jobs.as_slice().get(j) {
        Some(job) => bindings.keys.decide(j, job.groups.as_slice(), run),
        None => 0,
    }
}

/// Decides the groups of all legs that a run has already.
fn decide_begun(bindings: &mut RunBindings, run: &Run)
    requires { IsBegunBelow 0 run.now bindings.old }
    ensures begun { IsBegun run.now bindings.new }
    ensures own { bindings.new.own ≡ bindings.old.own }
    ensures jobs { bindings.new.jobs ≡ bindings.old.jobs }
    ensures lists { bindings.new.lists ≡ bindings.old.lists }
{
    for j in 0..run.job_count() {
        if has_legs(run, j) {
            decide_job(bindings, j, run);
        }
    }
}

fn has_legs(run: &Run, j: usize) -> bool
    ensures { result ≡ has_legs_at run.now j }
{
    match run.job(j) {
        Some(job) => !job.legs().is_empty(),
        None => false,
    }
}

/// Drops each part, as a derived `Drop` does. Written out, it is a single call in the proof of each caller that drops runs.
impl Drop for Rows {
    fn drop(self) {
        let Self {
            runs: _,
            bindings: _,
            index: _,
            active: _,
            text: _,
        } = self;
    }
}

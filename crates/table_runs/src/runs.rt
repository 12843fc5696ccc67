ghost use Rattle.std.specs.Prelude.{◌≡◌, ◌≤◌, ◌<◌, ◌*◌, [], length, sum_by, IfSome};
ghost use Rattle.std.specs.Prelude.{option_map, option_copied, slice_get, Ok, ◌^◌};
ghost use Rattle.std.specs.List.{position};
ghost use Rattle.std.specs.Option.{option_map_or};
ghost use Rattle.definitions.specs.Limits.{max_runs};
ghost use Rattle.wf_value.specs.Gives.{Gives};
ghost use Rattle.table_model.specs.LegContext.{facts_at, combo_at, id_at, job_id};
ghost use Rattle.table_model.specs.Runs.{is_delivered_as, job_at, leg_at, plan_at, run_at};
ghost use Rattle.table_model.specs.Fitting.{most_at_work};
ghost use Rattle.table_runs.specs.StoredSizes.{max_run_size, run_size};

mod arrivals;
mod changes;
mod ending;
mod flags;
mod groups;
mod label_texts;
mod labels;
mod of;
mod refreshing;
mod settling;
mod stops;

use crate::rows::Rows;
use group_book::Book;
use run_marks::RunBitmap;
use run_plan::{DeliveryId, Number, PlannedJob};
use std::alloc::Global;
use std::marker::Model;
use table_bindings::LegView;
use table_model::{Holder, Job, Leg, LegSite, Run};
use wf_value::{Chars, Combo, Refusal, TryCopy};

/// The runs of a table, in the order of their ids, which count from 1. A contract sees them as a list.
pub struct Runs {
    rows: Rows,
    /// The holders of each concurrency group: exactly those that the table has.
    book: Book<Holder>,
    /// The runs in which a settling rule applies.
    due: RunBitmap,
    /// How often settling has tried a rule at a site.
    tries: u64,
}

impl Model for Runs {
    ghost use Rattle.std.specs.Prelude.{List};
    ghost use Rattle.table_model.specs.Runs.{RunState};
    ghost use Rattle.table_runs.specs.inner.GroupsKept.{GroupsAreKept};
    ghost use Rattle.table_runs.specs.inner.MarkedRuns.{AreMarked, is_due};

    ghost Value = { List RunState };

    ghost view = { λ r. r.rows.runs };

    ghost invariant = { λ r. GroupsAreKept r.rows.runs r.rows.bindings r.book × AreMarked (is_due r.rows.runs) r.rows.runs r.due };
}

impl Runs {
    pub fn new(alloc: Global) -> Self
        ensures { result ≡ [] }
    {
        Runs {
            rows: Rows::new(alloc),
            book: Book::new(alloc),
            due: RunBitmap::new(alloc),
            tries: 0,
        }
    }

    pub fn as_slice(&self) -> &[Run]
        ensures runs { result.now ≡ self.now }
        ensures most { length self.now ≤ max_runs }
    {
        self.rows.as_slice()
    }

    /// How many bytes the runs have in the text of a table.
    pub fn text_size(&self) -> u64
        ensures size { result ≡ sum_by run_size self.now }
        ensures most { result ≤ max_runs * max_run_size }
    {
        self.rows.text_size()
    }

    /// Run `r`.
    fn run(&self, r: usize) -> Option<&Run>
        ensures run { option_copied result ≡ run_at self.now r }
        ensures within { IfSome result (λ run. r < max_runs) }
    {
        self.rows.run(r)
    }

    pub fn len(&self) -> usize
        ensures len { result ≡ length self.now }
        ensures most { result ≤ max_runs }
    {
        self.rows.runs.len()
    }

    /// The id of run `r`.
    pub fn id(&self, r: usize) -> Number
        requires { r < length self.now }
        ensures { result ≡ id_at self.now r }
    {
        self.rows.runs[r].id()
    }

    /// The plan of job `j` of run `r`.
    pub fn planned(&self, r: usize, j: usize) -> Option<&PlannedJob>
        ensures { option_map (λ p. p.now) result ≡ plan_at self.now r j }
    {
        let run = self.rows.runs.get(r)?;
        run.prepared().plan().as_slice().get(j)
    }

    pub fn job_id(&self, alloc: Global, r: usize, j: usize) -> Result<Chars, Refusal>
        ensures { Gives (λ id. id) result (Ok (job_id self.now r j)) }
    {
        match self.planned(r, j) {
            Some(planned) => planned.id.copy(alloc),
            None => Chars::from_str(alloc, ""),
        }
    }

    pub fn combo(&self, alloc: Global, site: LegSite) -> Result<Combo, Refusal>
        ensures { Gives (λ combo. combo) result (Ok (combo_at self.now site)) }
    {
        match self.planned(site.run, site.job) {
            Some(planned) => combo_of(alloc, planned, site.leg),
            None => Ok(Combo::new(alloc)),
        }
    }

    /// The most legs of the job that may be at work at a time, if its plan sets a bound.
    pub fn most_at_work(&self, r: usize, j: usize) -> Option<u16>
        ensures { result ≡ most_at_work self.now r j }
    {
        self.planned(r, j)?.max_parallel
    }

    /// The planned leg at a site.
    #[tactic(auto, unfolding(table_model::specs::LegContext::facts_at))]
    pub(super) fn leg_view(&self, site: LegSite) -> Option<LegView<'_>>
        requires leg { site.leg < 2 ^ 63 }
        ensures { result ≡ facts_at self.now site }
    {
        let run = self.rows.runs.get(site.run)?;
        let job = run.prepared().plan().as_slice().get(site.job)?;
        Some(LegView {
            run,
            job,
            index: site.job,
            leg: site.leg,
        })
    }

    /// The index of the first run of the delivery.
    pub fn position(&self, delivery: &DeliveryId) -> Option<usize>
        ensures found { result ≡ position (is_delivered_as delivery.now) self.now }
        ensures most { IfSome result (λ i. i < max_runs) }
    {
        self.rows.position(delivery)
    }

    /// Job `j` of run `r`.
    fn job(&self, r: usize, j: usize) -> Option<&Job>
        ensures { option_map (λ job. job.now.state) result ≡ job_at self.now r j }
    {
        let run = self.rows.runs.get(r)?;
        run.job(j)
    }

    /// The leg at a site.
    pub fn leg(&self, site: LegSite) -> Option<&Leg>
        ensures { option_copied result ≡ leg_at self.now site }
    {
        let job = self.job(site.run, site.job)?;
        job.legs().get(site.leg)
    }
}

/// Drops each part, as a derived `Drop` does. Written out, it is a single call in the proof of each caller that drops runs.
impl Drop for Runs {
    fn drop(self) {
        let Self {
            rows: _,
            book: _,
            due: _,
            tries: _,
        } = self;
    }
}

impl TryCopy for Runs {
    fn copy(&self, alloc: Global) -> Result<Self, Refusal> {
        Ok(Runs {
            rows: self.rows.copy(alloc)?,
            book: self.book.copy(alloc)?,
            due: self.due.copy()?,
            tries: self.tries,
        })
    }
}

fn combo_of(alloc: Global, planned: &PlannedJob, l: usize) -> Result<Combo, Refusal>
    ensures { Gives (λ combo. combo) result (Ok (option_map_or (λ leg. leg.combo) (slice_get planned.now.legs l) [])) }
{
    match planned.legs.as_slice().get(l) {
        Some(leg) => leg.combo.copy(alloc),
        None => Ok(Combo::new(alloc)),
    }
}

//! How many runs there are of each workflow, so that the number of the next run is known without a scan of the runs.

ghost use Rattle.std.specs.Prelude.{◌≡◌, ◌<◌, ◌≤◌, ◌+◌, IfOk, OnOk, if◌then◌else◌};
ghost use Rattle.definitions.specs.Limits.{max_runs};
ghost use Rattle.indexmap.specs.IndexMap.{spare};
ghost use Rattle.wf_value.specs.Gives.{ErrsOnlyByMemory};
ghost use Rattle.definitions.specs.SmallText.{Admitted};
ghost use Rattle.table_model.specs.LegContext.{same_workflow};
ghost use Rattle.table_runs.specs.inner.Counted.{count_of};

use crate::rows::workflow::Workflow;
use indexmap::IndexMap;
use run_plan::Number;
use std::alloc::Global;
use wf_value::Refusal;

/// How many runs a workflow has so far, and the index of the latest. No contract mentions the index.
#[derive(Clone, Copy)]
pub(crate) struct Counted {
    pub runs: usize,
    pub latest: usize,
}

/// The number of the next run of a workflow, and the index of the latest, if it has one. No contract mentions the index.
#[derive(Drop)]
pub(crate) struct NextRun {
    pub number: usize,
    pub latest: Option<usize>,
}

/// The number of runs so far, by workflow.
#[derive(Drop)]
pub(crate) struct Counts {
    pub counts: IndexMap<Workflow, Counted>,
}

impl Counts {
    pub(crate) fn new(alloc: Global) -> Self
        ensures { (event : Admitted) → count_of result.counts event ≡ 0 }
    {
        Counts {
            counts: IndexMap::new(alloc),
        }
    }

    /// What the next run of the workflow is.
    pub(crate) fn next(&self, workflow: &Workflow) -> NextRun
        requires { count_of self.now.counts workflow.now < max_runs }
        ensures number { result.number ≡ count_of self.now.counts workflow.now + 1 }
        ensures most { result.number ≤ max_runs }
    {
        match self.counts.get(workflow) {
            Some(counted) => NextRun {
                number: counted.runs + 1,
                latest: Some(counted.latest),
            },
            None => NextRun {
                number: 1,
                latest: None,
            },
        }
    }

    /// Reserves memory, so that counting one more run takes none.
    pub(crate) fn make_room(&mut self) -> Result<(), Refusal>
        ensures err { ErrsOnlyByMemory result }
        ensures same { (event : Admitted) → count_of self.new.counts event ≡ count_of self.old.counts event }
        ensures room { OnOk result (0 < spare self.new.counts) }
    {
        self.counts.reserve(1)?;
        Ok(())
    }

    /// A copy of the counts.
    pub(crate) fn copy(&self) -> Result<Self, Refusal>
        ensures err { ErrsOnlyByMemory result }
        ensures same { IfOk result (λ copy. (event : Admitted) → count_of copy.counts event ≡ count_of self.now.counts event) }
    {
        Ok(Counts {
            counts: self.counts.clone()?,
        })
    }

    /// Counts a run of the workflow: that with this number, at index `r`.
    pub(crate) fn add(&mut self, workflow: Workflow, number: Number, r: usize)
        requires { 0 < spare self.old.counts }
        ensures { (event : Admitted) → count_of self.new.counts event
            ≡ (if same_workflow workflow event then number else count_of self.old.counts event) }
    {
        let counted = Counted {
            runs: number.get() as usize,
            latest: r,
        };
        match self.counts.insert(workflow, counted) {
            Ok(_) => {}
            Err(_) => unreachable!(),
        }
    }
}

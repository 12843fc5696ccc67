//! Admits an event: creates its run, unless its delivery has one already.

ghost use Rattle.std.specs.Prelude.{◌≡◌, ◌<◌, ◌-◌, true, length, slice_get, option_copied, option_map, Ok, OnErr, IsOk};
ghost use Rattle.definitions.specs.Limits.{last_number, max_runs};
ghost use Rattle.wf_value.specs.Gives.{Gives};
ghost use Rattle.table_model.specs.Sound.{IsSound};
ghost use Rattle.table_model.specs.Step.{admission_answer, admitted, admitting, is_allocation_free, is_full, outcome};
ghost use Rattle.table_model.specs.TableState.{last_id};

use crate::table_data::{TableData, refused};
use run_plan::{LAST_NUMBER, Prepared, Reply};
use std::alloc::Global;
use table_model::MAX_RUNS;
use wf_value::{Code, Refusal};

impl TableData {
    pub(super) fn admit(&mut self, alloc: Global, prepared: &Prepared) -> Result<Reply, Refusal>
        requires { IsSound self.old }
        ensures step { Gives (λ reply. (self.new, reply)) result (Ok (outcome (admitted self.old prepared.now))) }
        ensures err { OnErr result (self.new ≡ self.old) }
        ensures answers { is_allocation_free (admission_answer self.old prepared.now) ≡ true → IsOk result }
    {
        if let Some(run) = self.run_of_delivery(prepared.delivery()) {
            return Ok(Reply::Created(run));
        }
        if self.is_full() {
            return Ok(refused(Code::LastCounter));
        }
        self.enter(alloc, prepared)
    }

    /// Whether the table has as many runs as it may have, or the last id is used up.
    fn is_full(&self) -> bool
        ensures { result ≡ is_full self.now }
    {
        self.runs.len() >= MAX_RUNS as usize || self.last_id() >= LAST_NUMBER
    }

    /// The event of the last run, if there is a run.
    pub(crate) fn last_event(&self) -> Option<&Prepared>
        ensures { option_copied result ≡ option_map (λ run. run.admitted) (slice_get self.now.runs (length self.now.runs - 1)) }
    {
        let last = self.runs.as_slice().last()?;
        Some(last.prepared())
    }

    /// The event, which refers to the last run's copy of its workflow if they have the same workflow.
    pub(crate) fn sharing(&self, prepared: Prepared) -> Prepared
        ensures { result ≡ prepared }
    {
        let mut prepared = prepared;
        if let Some(last) = self.last_event() {
            prepared.share_workflow(last);
        }
        prepared
    }

    /// Creates a run for the event.
    fn enter(&mut self, alloc: Global, prepared: &Prepared) -> Result<Reply, Refusal>
        requires sound { IsSound self.old }
        requires few { length self.old.runs < max_runs }
        requires ids { last_id self.old < last_number }
        ensures step { Gives (λ reply. (self.new, reply)) result (Ok (outcome (admitting self.old prepared.now))) }
        ensures err { OnErr result (self.new ≡ self.old) }
    {
        let id = self.id_at(self.runs.len());
        self.runs.admit(alloc, &self.forgotten, prepared)?;
        Ok(Reply::Created(id))
    }
}

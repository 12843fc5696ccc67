//! Forgets the first completed runs of the table.

ghost use Rattle.std.specs.Prelude.{◌≡◌, true, Ok, OnErr, IsOk};
ghost use Rattle.std.specs.List.{prefix_len};
ghost use Rattle.wf_value.specs.Gives.{Gives};
ghost use Rattle.table_model.specs.Sound.{IsSound};
ghost use Rattle.table_model.specs.Step.{forget_answer, forgot, is_allocation_free, is_forgettable, outcome};

use crate::table_data::TableData;
use run_plan::{Number, Reply};
use std::alloc::Global;
use table_model::{Run, RunPhase};
use wf_value::Refusal;

impl TableData {
    /// Forgets the first runs that have completed, as many as follow one another and have ids up to this one. It allocates all memory before
    /// the first change.
    pub(super) fn forget(&mut self, alloc: Global, id: Number) -> Result<Reply, Refusal>
        requires { IsSound self.old }
        ensures step { Gives (λ reply. (self.new, reply)) result (Ok (outcome (forgot self.old id))) }
        ensures err { OnErr result (self.new ≡ self.old) }
        ensures answers { is_allocation_free (forget_answer self.old id) ≡ true → IsOk result }
    {
        let count = forgettable(self.runs.as_slice(), id);
        if count == 0 {
            return Ok(Reply::Forgotten(self.forgotten.through()));
        }
        let forgotten = self.forgotten.with(alloc, &self.runs.as_slice()[..count])?;
        let runs = self.runs.without_first(alloc, count)?;
        let through = forgotten.through();
        self.forgotten = forgotten;
        self.runs = runs;
        self.runners.forget_leases(through);
        Ok(Reply::Forgotten(through))
    }
}

/// How many of the first runs have completed and have ids up to this one.
fn forgettable(runs: &[Run], id: Number) -> usize
    ensures { result ≡ prefix_len (is_forgettable id) runs.now }
{
    for r in 0..runs.len() {
        if !is_forgettable(&runs[r], id) {
            return r;
        }
    }
    runs.len()
}

/// Whether the run has completed and its id is up to this one.
fn is_forgettable(run: &Run, id: Number) -> bool
    ensures { result ≡ is_forgettable id run.now }
{
    match run.phase() {
        RunPhase::Ended => run.id().get() <= id.get(),
        RunPhase::Waiting | RunPhase::Live => false,
    }
}

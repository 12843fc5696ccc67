//! Makes a table of the parts as which it is stored.

ghost use Rattle.std.specs.Prelude.{IfOk, MatchOption};
ghost use Rattle.wf_value.specs.Gives.{ErrsOnlyByMemory};
ghost use Rattle.stored_tables.specs.TableOf.{IsNoTable, IsStoredAs};

use crate::parts::TableParts;
use crate::runners::runners_of;
use crate::sound::is_sound;
use crate::sound::leases::{Leases, legs_by_lease, runners_by_lease};
use run_plan::LAST_NUMBER;
use run_table::Table;
use std::alloc::Global;
use table_runs::runs::Runs;
use wf_value::Refusal;

impl TableParts {
    /// The table that is stored as these parts, or `None` if they are the parts of no table. It takes as much memory as
    /// the parts; the only error is 50.
    /// Promise (The table): The table that is stored as some parts is returned, and `None` exactly where no sound table has these parts
    /// By: `stored_tables::TableParts::table`, `of`, `err`
    pub fn table(&self, alloc: Global) -> Result<Option<Table>, Refusal>
        ensures err { ErrsOnlyByMemory result }
        ensures of { IfOk result (λ found. MatchOption found (IsNoTable self.now) (λ table. IsStoredAs self.now table)) }
    {
        let Some(forgotten) = self.forgotten.forgotten(alloc)? else {
            return Ok(None);
        };
        let of_runs = self.runs.as_slice();
        if of_runs.len() > (LAST_NUMBER - forgotten.through()) as usize {
            return Ok(None);
        }
        let Some(mut runs) = Runs::of_parts(alloc, &forgotten, of_runs)? else {
            return Ok(None);
        };
        let legs = legs_by_lease(alloc, &runs)?;
        let last = self.last_lease;
        let of_runners = self.runners.as_slice();
        let Some(runners) = runners_of(alloc, last, &forgotten, &runs, &legs, of_runners)? else {
            return Ok(None);
        };
        let held = runners_by_lease(alloc, runners.as_slice())?;
        let leases = Leases { last, legs, held };
        if !is_sound(&leases, &forgotten, &mut runs, runners.as_slice()) {
            return Ok(None);
        }
        Ok(Some(Table::of_sound(last, forgotten, runs, runners)))
    }
}

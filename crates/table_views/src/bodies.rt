//! The body of a run, as it was admitted.

ghost use Rattle.std.specs.Prelude.{Ok, option_map, string_bytes};
ghost use Rattle.wf_value.specs.Gives.{Gives};
ghost use Rattle.table_views.specs.RunBodies.{run_body};

use run_plan::Number;
use run_table::Table;
use std::alloc::Global;
use wf_value::Refusal;

/// The admitted body of the run with an id. `None` if there is no such run.
/// Promise (Views of a service): The body of a run is shown as it was admitted, byte by byte; none is shown exactly if there is no run with this id
/// By: `table_views::run_body` (`run_body`)
pub fn run_body(alloc: Global, table: &Table, id: Number) -> Result<Option<String>, Refusal>
    ensures { Gives (λ body. option_map string_bytes body) result (Ok (run_body table.now id)) }
{
    let Some(view) = table.look(id) else {
        return Ok(None);
    };
    let body = view.run().prepared().body_text();
    Ok(Some(String::from_str(alloc, body)?))
}

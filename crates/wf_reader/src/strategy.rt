ghost use Rattle.std.specs.Prelude.{◌≡◌, codes, option_map, option_and_then, unwrap_or, true, string_bytes};
ghost use Rattle.std.specs.List.{list_all};
ghost use Rattle.serde_json.specs.Find.{get, as_bool};
ghost use Rattle.serde_json.specs.View.{view};
ghost use Rattle.wf_value.specs.Gives.{Gives};
ghost use Rattle.wf_reader.specs.Faults.{unless_faulty, optional};
ghost use Rattle.wf_reader.specs.Strategy.{matrix_faults, matrix_of, strategy_faults, strategy_of};
ghost use Rattle.wf_reader.specs.Strategy.{is_strategy_name, fail_fast_faults, max_parallel_faults, max_parallel_in};

use crate::matrix::{read_matrix, strategy_member};
use serde_json::{Map, Value};
use std::alloc::Global;
use wf_value::{Matrix, Refusal};

/// The `strategy` of a job. GitHub Docs, "Workflow syntax for GitHub Actions", `jobs.<job_id>.strategy`.
#[derive(Drop)]
pub struct Strategy {
    /// The matrix, if any.
    pub matrix: Option<Matrix>,
    /// Whether a failing leg cancels the others. True if the member is missing.
    pub fail_fast: bool,
    /// The maximum number of legs that run at the same time, 1 to 256, if limited.
    pub max_parallel: Option<u16>,
}

/// The highest value of `max-parallel`.
pub const MAX_PARALLEL: u64 = 256;

fn is_name(name: &str) -> bool
    ensures { result ≡ is_strategy_name name.now }
{
    name == "matrix" || name == "fail-fast" || name == "max-parallel"
}

/// Whether all members have names that a strategy may have.
pub fn has_strategy_names(members: &Map<String, Value>) -> bool
    ensures { result ≡ list_all (λ e. is_strategy_name (string_bytes e.0)) members.now.entries }
{
    for (name, _) in members {
        if !is_name(name.as_str()) {
            return false;
        }
    }
    true
}

/// Whether a failing leg cancels the others. A value that is not a boolean is 25.
fn read_fail_fast(strategy: &Value) -> Result<bool, Refusal>
    ensures { result ≡ unless_faulty (optional fail_fast_faults (get (codes "fail-fast") (view strategy.now)))
        (unwrap_or (option_and_then as_bool (get (codes "fail-fast") (view strategy.now))) true) }
{
    let Some(value) = strategy.get("fail-fast") else {
        return Ok(true);
    };
    match value.as_bool() {
        Some(fail_fast) => Ok(fail_fast),
        None => Err(strategy_member()),
    }
}

/// The limit that a value of `max-parallel` states: an integer from 1 to 256.
pub fn max_parallel_in(value: &Value) -> Option<u16>
    ensures { result ≡ max_parallel_in (view value.now) }
{
    match value.as_u64() {
        Some(limit) if 1 <= limit && limit <= MAX_PARALLEL => Some(limit as u16),
        _ => None,
    }
}

/// The maximum number of legs that run at the same time. A value that is not an integer from 1 to 256 is 25.
fn read_max_parallel(strategy: &Value) -> Result<Option<u16>, Refusal>
    ensures { result ≡ unless_faulty (optional max_parallel_faults (get (codes "max-parallel") (view strategy.now)))
        (option_and_then max_parallel_in (get (codes "max-parallel") (view strategy.now))) }
{
    let Some(value) = strategy.get("max-parallel") else {
        return Ok(None);
    };
    match max_parallel_in(value) {
        Some(limit) => Ok(Some(limit)),
        None => Err(strategy_member()),
    }
}

/// The matrix, if any.
fn read_matrix_member(alloc: Global, strategy: &Value) -> Result<Option<Matrix>, Refusal>
    ensures { Gives (λ m. m) result
        (unless_faulty (optional matrix_faults (get (codes "matrix") (view strategy.now)))
        (option_map matrix_of (get (codes "matrix") (view strategy.now)))) }
{
    match strategy.get("matrix") {
        Some(value) => Ok(Some(read_matrix(alloc, value)?)),
        None => Ok(None),
    }
}

/// A strategy: 25 if it is not an object, has an unknown member or a member of the wrong kind, 19 or 20 for a fault inside the
/// matrix.
fn strategy_in(alloc: Global, value: &Value) -> Result<Strategy, Refusal>
    ensures { Gives (λ s. s) result
        (unless_faulty (strategy_faults (view value.now)) (strategy_of (view value.now))) }
{
    let Some(members) = value.as_object() else {
        return Err(strategy_member());
    };
    if !has_strategy_names(members) {
        return Err(strategy_member());
    }
    let fail_fast = read_fail_fast(value)?;
    let max_parallel = read_max_parallel(value)?;
    let matrix = read_matrix_member(alloc, value)?;
    Ok(Strategy {
        matrix,
        fail_fast,
        max_parallel,
    })
}

/// The strategy of a job, if any, or its first fault: 25 for the strategy itself and for `fail-fast`, `max-parallel` and the kind
/// of `matrix`, then 19 and 20 for `include`, for `exclude` and for the variables in byte order of their names.
pub fn read_strategy(alloc: Global, job: &Value) -> Result<Option<Strategy>, Refusal>
    ensures { Gives (λ s. s) result
        (unless_faulty (optional strategy_faults (get (codes "strategy") (view job.now)))
        (option_map strategy_of (get (codes "strategy") (view job.now)))) }
{
    match job.get("strategy") {
        Some(value) => Ok(Some(strategy_in(alloc, value)?)),
        None => Ok(None),
    }
}

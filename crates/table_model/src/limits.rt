/// The maximum number of runs in a table.
pub const MAX_RUNS: u32 = 100_000;

/// The number of the last attempt of a run.
pub const LAST_ATTEMPT: u32 = 1000;

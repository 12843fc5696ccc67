use run_plan::Number;

/// What to show of a store.
#[derive(Clone, Copy)]
pub enum Shown {
    /// The view of each run, in the order of their ids.
    Runs,
    /// The view of the run with an id.
    Run(Number),
    Runners,
    /// The ready legs and the concurrency groups.
    Queue,
}

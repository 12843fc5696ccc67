use run_plan::{Command, Reply};
use wf_value::Refusal;

/// A step of a store.
#[derive(Drop)]
pub enum Step {
    /// Applies the command for seat 0.
    Apply(Command),
    Commit,
    /// Begins a checkpoint.
    Begin,
    /// Writes a slice of a checkpoint.
    Slice,
    /// Finishes a checkpoint.
    Finish,
}

/// The answer to a step.
#[derive(Drop)]
pub enum Played {
    Replied(Reply),
    /// For a commit and a finish, how many entries are covered; for a begin and a slice, how many bytes are left to write.
    Count(u64),
    Refused(Refusal),
}

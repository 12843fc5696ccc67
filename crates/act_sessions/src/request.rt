ghost use Rattle.std.specs.Prelude.{◌≡◌};
ghost use Rattle.act_sessions.specs.inner.Progress.{nothing_read};

use run_plan::Command;

/// What a request demands: a command, or a fault for which no command is submitted.
#[derive(Drop)]
pub enum Demand<F> {
    Command(Command),
    Fault(F),
}

/// A request.
#[derive(Drop)]
pub struct Request<F> {
    pub demand: Demand<F>,
    /// Whether the session ends with its answer, whatever that is.
    pub closes: bool,
}

/// A whole request at the start of some bytes.
#[derive(Drop)]
pub struct FoundRequest<F> {
    pub request: Request<F>,
    /// Its length in bytes.
    pub length: usize,
}

/// How far bytes that are less than a request were read. What it says of them is the protocol's.
#[derive(Clone, Copy)]
pub struct Progress {
    /// How many of the bytes need not be read again.
    pub read: usize,
    /// How many lines these are.
    pub lines: usize,
}

impl Progress {
    /// Nothing was read.
    pub fn none() -> Progress
        ensures { result ≡ nothing_read }
    {
        Progress { read: 0, lines: 0 }
    }
}

/// What some bytes begin with.
#[derive(Drop)]
pub enum Next<F> {
    /// A whole request.
    Whole(FoundRequest<F>),
    /// Less than a request. As long as there are fewer bytes than `until`, they stay less than one, whatever they are.
    Waits { until: usize, progress: Progress },
}

use std::time::Duration;

/// When a history turns over, when a client is closed, and which runs are kept.
#[derive(Clone, Copy)]
pub struct Limits {
    /// The number of commands after which a history turns over. It also turns over after 64 MiB that clients have sent
    /// or received.
    pub commands: u64,
    /// How long a client may stay silent.
    pub idle: Duration,
    /// How many runs are kept, the last ones, if the others are forgotten once they have completed.
    pub keep_runs: Option<u32>,
}

ghost use Rattle.std.specs.Prelude.{◌≡◌};

/// The reason for a refusal that is described by its number alone. Cycles of needs (14) and numbers out of order (43) carry a
/// value, so they are variants of `Refusal`.
#[derive(Clone, Copy)]
pub enum Code {
    /// 10: the text is not JSON, or not UTF-8.
    NotJson,
    /// 11: a member has the wrong kind, or a required member is missing.
    WrongKind,
    /// 12: a job id is malformed.
    JobId,
    /// 13: `needs` names no job of the workflow.
    UnknownNeed,
    /// 15: `runs-on` is missing or an empty list.
    NoLabels,
    /// 16: a kind of job, or a member, that is not supported.
    LeftOut,
    /// 17: an expression is outside the profile.
    Expression,
    /// 18: a context is not allowed in this place.
    PlaceOfContext,
    /// 19: a matrix value has a wrong kind.
    MatrixValue,
    /// 20: a variable has an empty list, or an include or exclude object is empty.
    EmptyList,
    /// 21: the product of the lengths of a matrix's lists is over 4,096.
    MatrixTooLarge,
    /// 22: a matrix has no leg, or more than 256.
    LegCount,
    /// 23: more than 256 jobs.
    TooManyJobs,
    /// 24: a text is longer than 65,536 bytes.
    TooLong,
    /// 25: `strategy` or one of its members is invalid.
    StrategyMember,
    /// 26: a condition is outside the profile.
    Condition,
    /// 40: no such run.
    NoRun,
    /// 41: the run has completed.
    RunCompleted,
    /// 42: the runner already has a lease.
    HasLease,
    /// 44: the runner does not hold that lease, or holds none.
    LeaseNotHeld,
    /// 45: no such runner.
    NoRunner,
    /// 46: the history has 100,000 entries.
    HistoryFull,
    /// 47: the command or the checkpoint does not fit into the area.
    AreaFull,
    /// 48: a counter is at its last value.
    LastCounter,
    /// 49: the run has not completed.
    RunNotCompleted,
    /// 50: out of memory.
    NoMemory,
    /// 51: the device failed in this call.
    DeviceFailed,
    /// 52: the device failed earlier; the area has to be opened again.
    FailedEarlier,
    /// 53: no area is open.
    NoArea,
    /// 54: the chosen area does not decode to a table.
    NoTable,
    /// 55: the disk to be initialised is not empty.
    DiskNotEmpty,
    /// 56: a checkpoint call is out of order.
    CheckpointTurn,
    /// 57: the area has the first layout, which cannot encode a re-run.
    OldLayout,
    /// 60: transcripts and history differ.
    Unsettled,
    /// 61: an input, an output or a socket failed.
    StreamFailed,
    /// 70: a malformed request head.
    Head,
    /// 71: a missing or invalid request length.
    ContentLength,
    /// 72: an unknown request path.
    Path,
    /// 73: a request method that the path does not allow.
    Method,
    /// 74: a missing or invalid delivery or event header.
    EventHeader,
    /// 75: a line that is not a command.
    Line,
    /// 76: an input is longer than 1,048,576 bytes.
    InputTooLong,
}

impl Code {
    ghost use Rattle.wf_value.specs.RefusalText.{code_number};

    pub fn number(self) -> u64
        ensures { result ≡ code_number self }
    {
        match self {
            Code::NotJson => 10,
            Code::WrongKind => 11,
            Code::JobId => 12,
            Code::UnknownNeed => 13,
            Code::NoLabels => 15,
            Code::LeftOut => 16,
            Code::Expression => 17,
            Code::PlaceOfContext => 18,
            Code::MatrixValue => 19,
            Code::EmptyList => 20,
            Code::MatrixTooLarge => 21,
            Code::LegCount => 22,
            Code::TooManyJobs => 23,
            Code::TooLong => 24,
            Code::StrategyMember => 25,
            Code::Condition => 26,
            Code::NoRun => 40,
            Code::RunCompleted => 41,
            Code::HasLease => 42,
            Code::LeaseNotHeld => 44,
            Code::NoRunner => 45,
            Code::HistoryFull => 46,
            Code::AreaFull => 47,
            Code::LastCounter => 48,
            Code::RunNotCompleted => 49,
            Code::NoMemory => 50,
            Code::DeviceFailed => 51,
            Code::FailedEarlier => 52,
            Code::NoArea => 53,
            Code::NoTable => 54,
            Code::DiskNotEmpty => 55,
            Code::CheckpointTurn => 56,
            Code::OldLayout => 57,
            Code::Unsettled => 60,
            Code::StreamFailed => 61,
            Code::Head => 70,
            Code::ContentLength => 71,
            Code::Path => 72,
            Code::Method => 73,
            Code::EventHeader => 74,
            Code::Line => 75,
            Code::InputTooLong => 76,
        }
    }
}

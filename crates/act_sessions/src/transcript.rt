ghost use Rattle.std.specs.Prelude.{◌≡◌, []};

use run_plan::{Command, Reply};
use std::alloc::Global;
use wf_value::{Code, Refusal};

/// A submitted command and its answer.
#[derive(Drop)]
pub struct LoggedExchange {
    pub command: Command,
    pub answer: Result<Reply, Refusal>,
}

/// How a session ended.
#[derive(Clone, Copy, Debug, PartialEq, Eq)]
pub enum Ending {
    /// As its bytes say, or out of memory with a response that reported it.
    Done,
    /// Out of memory.
    Memory,
    /// By a failed read or write.
    Broken,
}

/// How a part of a session ended.
#[derive(Clone, Copy, Debug, PartialEq, Eq)]
pub enum Part {
    /// Its input ended before or inside a request. The session continues once there are more bytes.
    AwaitsInput,
    /// The session is over.
    Over(Ending),
}

/// What a session submitted, in order, and how many bytes it wrote.
#[derive(Drop)]
pub struct Transcript {
    pub asked: Vec<LoggedExchange>,
    /// In bytes. The count saturates at `u64::MAX`.
    pub written: u64,
    pub ending: Ending,
}

/// A session that ended out of memory or with a failed read or write.
#[derive(Drop)]
pub struct SessionFault {
    pub transcript: Transcript,
}

impl Transcript {
    /// The transcript of a session that has done nothing.
    pub fn new(alloc: Global) -> Transcript
        ensures asked { result.asked.items ≡ [] }
        ensures written { result.written ≡ 0 }
    {
        Transcript {
            asked: Vec::new(alloc),
            written: 0,
            ending: Ending::Done,
        }
    }

    /// The transcript with this ending.
    pub fn ended(self, ending: Ending) -> Transcript
        ensures { result ≡ record self { ending = ending } }
    {
        Transcript { ending, ..self }
    }
}

impl SessionFault {
    /// 50 for out of memory, 61 otherwise.
    pub fn refusal(&self) -> Refusal
        ensures memory { self.now.transcript.ending ≡ Ending.Memory → result ≡ Refusal.Numbered Code.NoMemory }
        ensures broken { self.now.transcript.ending ≡ Ending.Broken → result ≡ Refusal.Numbered Code.StreamFailed }
    {
        match self.transcript.ending {
            Ending::Memory => Refusal::Numbered(Code::NoMemory),
            _ => Refusal::Numbered(Code::StreamFailed),
        }
    }
}

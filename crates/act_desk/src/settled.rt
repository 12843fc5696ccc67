ghost use Rattle.std.specs.Prelude.{◌≡◌};

use act_disk::Disk;
use act_sessions::{Transcript, Work};
use act_store::Store;
use wf_value::{Code, Refusal};

/// A store whose sessions have ended, and their transcripts, in order.
#[derive(Drop)]
pub struct Settled<D: Disk> {
    pub store: Store<D>,
    pub transcripts: Vec<Transcript>,
}

/// Why sessions were not served.
#[derive(Drop)]
pub enum Fault<D: Disk, W: Work> {
    /// 50: out of memory before a session was started. The store and the sessions are unchanged.
    Memory(Store<D>, Vec<W>),
    /// 60: all sessions have ended, and the history is not what they submitted, or a reply is not among the covered entries.
    Unsettled(Settled<D>),
    /// 61: all sessions have ended, the history is what they submitted, and one was ended by its reader or writer.
    Broken(Settled<D>),
}

impl<D: Disk, W: Work> Fault<D, W> {
    ghost use Rattle.act_desk.specs.Faults.{code_of_fault};

    pub fn refusal(&self) -> Refusal
        ensures { result ≡ Refusal.Numbered (code_of_fault self.now) }
    {
        match self {
            Fault::Memory(_, _) => Refusal::Numbered(Code::NoMemory),
            Fault::Unsettled(_) => Refusal::Numbered(Code::Unsettled),
            Fault::Broken(_) => Refusal::Numbered(Code::StreamFailed),
        }
    }
}

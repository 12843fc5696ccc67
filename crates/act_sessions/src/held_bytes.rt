ghost use Rattle.std.specs.Prelude.{◌≡◌, ◌++◌, [], length, IfErr, IfOk};
ghost use Rattle.act_sessions.specs.Taking.{Finds};

use crate::first_bytes::take_first_off;
use crate::protocol::Protocol;
use crate::request::{Next, Progress, Request};
use run_plan::Prepared;
use std::alloc::{AllocError, Global};
use std::marker::{Model, PhantomData};
use wf_value::Refusal;

/// The bytes that a session holds: those that it has received, without the requests that were taken. How far they were read is kept,
/// and they are not looked at again before they can be a request.
/// Promise (Sessions): Held bytes are looked at again only once there are as many as a request needs at least
/// By: `act_sessions::HeldBytes` (its invariant, `IsHeld`)
#[derive(Drop)]
pub struct HeldBytes<P: Protocol> {
    bytes: Vec<u8>,
    progress: Progress,
    /// How many bytes there have to be before they can be a request.
    until: usize,
    protocol: PhantomData<P>,
}

impl<P: Protocol> Model for HeldBytes<P> {
    ghost use Rattle.std.specs.Prelude.{ℕ, List};
    ghost use Rattle.act_sessions.specs.inner.Held.{IsHeld};

    ghost Value = { List ℕ };

    ghost view = { λ h. h.bytes.items };

    ghost invariant = { λ h. IsHeld P.Protocol.rules P.Protocol.known h.bytes.items h.progress h.until };
}

impl<P: Protocol> HeldBytes<P> {
    /// No bytes. Takes no memory.
    pub fn new(alloc: Global) -> HeldBytes<P>
        ensures { result ≡ [] }
    {
        HeldBytes {
            bytes: Vec::new(alloc),
            progress: Progress::none(),
            until: 0,
            protocol: PhantomData,
        }
    }

    /// How many bytes there are.
    pub fn len(&self) -> usize
        ensures { result ≡ length self.now }
    {
        self.bytes.len()
    }

    /// Appends bytes.
    pub fn append(&mut self, bytes: &[u8]) -> Result<(), AllocError>
        ensures ok { IfOk result (λ _. self.new ≡ self.old ++ bytes.now) }
        ensures err { IfErr result (λ _. self.new ≡ self.old) }
    {
        self.bytes.extend_from_slice(bytes)
    }

    /// Takes the whole request at the start of the bytes. Returns `None` if more bytes are needed. An event with the bytes of the latest
    /// one need not be read again.
    /// Promise (Sessions): A session over streams and one in memory take each turn by the same calls. The next request is what the protocol
    ///   reads at the start of the bytes
    /// By: `act_sessions::HeldBytes::next_request` (`Finds`)
    pub fn next_request(
        &mut self,
        alloc: Global,
        latest: Option<&Prepared>,
    ) -> Result<Option<Request<P::Fault>>, Refusal>
        ensures { Finds P.rules self.old self.new result }
    {
        if self.bytes.len() < self.until {
            return Ok(None);
        }
        match P::next(alloc, latest, &self.bytes, self.progress)? {
            Next::Whole(found) => {
                take_first_off(&mut self.bytes, found.length);
                self.progress = Progress::none();
                self.until = 0;
                Ok(Some(found.request))
            }
            Next::Waits { until, progress } => {
                self.progress = progress;
                self.until = until;
                Ok(None)
            }
        }
    }
}

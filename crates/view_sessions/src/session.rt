//! A session in memory: what was received and not taken yet, and what is still to be sent.

ghost use Rattle.std.specs.Prelude.{◌≡◌, ◌≤◌, ◌++◌, ◌&&◌, MatchResult, OnErr, OnOk, [], nat_lt, not, replicate, true, ℕ};
ghost use Rattle.std.specs.Io.KnownBytes.{Keeps};
ghost use Rattle.view_sessions.specs.Sessions.{Sends, TakesNext, answered, is_last, new_session, owes};

use crate::answer::{Answer, answer_bytes};
use crate::request::{ViewRequest, next_view};
use std::alloc::{AllocError, Global};
use std::io;
use std::io::{ErrorKind, Write};
use std::marker::Model;
use wf_value::Refusal;

/// How many requests a session takes.
const MAX_REQUESTS: u64 = 64;

/// How many zeros are sent at a time.
const ZEROS: usize = 16_384;

static NOUGHT: [u8; ZEROS] = [0; ZEROS];

/// Whether a writer takes more.
#[derive(Clone, Copy, Debug, PartialEq, Eq)]
pub enum Writable {
    Yes,
    /// Not yet.
    Later,
    Failed,
}

/// So many zeros.
fn zeros(count: usize) -> &'static [u8]
    requires { count ≤ 16384 }
    ensures { result.now ≡ replicate count 0 }
{
    &NOUGHT[..count]
}

fn writable_after(e: &io::Error) -> Writable {
    match e.kind() {
        ErrorKind::Interrupted => Writable::Yes,
        ErrorKind::WouldBlock => Writable::Later,
        _ => Writable::Failed,
    }
}

/// A session of one client.
#[derive(Drop)]
pub struct ViewSession {
    /// What was received of requests that were not taken yet.
    held: Vec<u8>,
    /// The number of requests that were taken.
    requests: u64,
    /// The bytes of an answer, of which the first `sent` were sent.
    out: Vec<u8>,
    sent: usize,
    /// How many zeros are to be sent after these bytes.
    zeros: u64,
    /// Whether no further request is taken.
    over: bool,
}

impl Model for ViewSession {
    ghost use Rattle.std.specs.Prelude.{◌++◌, drop, replicate};
    ghost use Rattle.view_sessions.specs.Sessions.{SessionState};

    ghost Value = { SessionState };

    ghost view = { λ s. record { held = s.held.items; requests = s.requests; owed = drop s.sent s.out.items ++ replicate s.zeros 0; over = s.over } };
}

impl ViewSession {
    pub fn new(alloc: Global) -> ViewSession
        ensures { result ≡ new_session }
    {
        ViewSession {
            held: Vec::new(alloc),
            requests: 0,
            out: Vec::new(alloc),
            sent: 0,
            zeros: 0,
            over: false,
        }
    }

    /// Whether bytes of an answer are still to be sent.
    pub fn owes(&self) -> bool
        ensures { result ≡ owes self.now }
    {
        self.sent < self.out.len() || self.zeros > 0
    }

    /// Whether the session takes no further request, and has sent all answers.
    pub fn is_over(&self) -> bool
        ensures { result ≡ (self.now.over && not (owes self.now)) }
    {
        self.over && !self.owes()
    }

    /// Keeps bytes that were received.
    pub fn receive(&mut self, bytes: &[u8]) -> Result<(), AllocError>
        ensures held { OnOk result (self.new ≡ record self.old { held = self.old.held ++ bytes.now }) }
        ensures err { OnErr result (self.new ≡ self.old) }
    {
        self.held.extend_from_slice(bytes)
    }

    /// Takes the next request, if a whole one was received and the answer before it was sent. Without memory the session ends.
    /// Promise (Views of a service): A view session takes the next request only once the answer before it was sent. Without memory for a request
    ///   it ends
    /// By: `view_sessions::ViewSession::next` (`TakesNext`); `view_sessions::ViewSession::{new, receive, owes, is_over, end}`
    pub fn next(&mut self, alloc: Global) -> Option<ViewRequest>
        ensures { TakesNext self.old self.new result }
    {
        if self.over || self.owes() {
            return None;
        }
        match next_view(alloc, self.held.as_slice()) {
            Ok(None) => None,
            Ok(Some(found)) => {
                let length = found.length.min(self.held.len());
                self.held.drain(..length);
                self.requests = self.requests.saturating_add(1);
                Some(found.request)
            }
            Err(_) => {
                self.over = true;
                None
            }
        }
    }

    /// Whether an answer to the request that was taken ends the session.
    fn is_last(&self, answer: &Answer, closes: bool) -> bool
        ensures { result ≡ is_last self.now answer.now closes }
    {
        let ends = match answer {
            Ok(_) => false,
            Err(fault) => fault.ends(),
        };
        closes || ends || self.requests >= MAX_REQUESTS
    }

    /// Answers the request that was taken.
    /// Promise (Views of a service): An answer is the last of a view session if its request or its fault ends it, or if it answers the 64th
    ///   request. Without memory for an answer nothing of the session changes
    /// By: `view_sessions::ViewSession::answer`, `answered`, `err` (`is_last`)
    pub fn answer(
        &mut self,
        alloc: Global,
        answer: &Answer,
        head_only: bool,
        closes: bool,
    ) -> Result<(), Refusal>
        ensures answered { OnOk result (self.new ≡ answered self.old answer.now head_only closes) }
        ensures err { OnErr result (self.new ≡ self.old) }
    {
        let last = self.is_last(answer, closes);
        let answer = answer_bytes(alloc, answer, head_only, last)?;
        self.out = answer.bytes;
        self.sent = 0;
        self.zeros = answer.zeros;
        self.over = last;
        Ok(())
    }

    /// Ends the session.
    pub fn end(&mut self)
        ensures { self.new ≡ record self.old { owed = []; over = true } }
    {
        self.over = true;
        self.zeros = 0;
        self.sent = self.out.len();
    }

    /// Writes once what is still to be sent. Returns how many bytes were written.
    fn write_once<W: Write>(&mut self, writer: &mut W) -> io::Result<usize>
        ensures { MatchResult result (λ n. Sends n (W.contents writer.old) (W.contents writer.new) self.old self.new)
            (λ _. Keeps (W.contents writer.old) (W.contents writer.new) × (self.new ≡ self.old)) }
    {
        if self.sent < self.out.len() {
            let count = writer.write(&self.out[self.sent..])?;
            self.sent += count;
            return Ok(count);
        }
        let most = self.zeros.min(ZEROS as u64) as usize;
        let count = writer.write(zeros(most))?;
        self.zeros -= count as u64;
        Ok(count)
    }

    /// Writes what is still to be sent, as much as the writer takes in `most` writes. Returns whether it took something, and whether it
    /// takes more.
    /// Promise (Views of a service): What a view session sends are the bytes of its answers, in order, each once
    /// By: `view_sessions::ViewSession::send` (`Sends`)
    pub fn send<W: Write>(&mut self, writer: &mut W, most: usize) -> (bool, Writable)
        ensures { (n : ℕ) × Sends n (W.contents writer.old) (W.contents writer.new) self.old self.new × (result.0 ≡ nat_lt 0 n) }
    {
        let mut moved = false;
        for _write in 0..most {
            if !self.owes() {
                break;
            }
            match self.write_once(writer) {
                Ok(0) => return (moved, Writable::Failed),
                Ok(_) => moved = true,
                Err(e) => return (moved, writable_after(&e)),
            }
        }
        (moved, Writable::Yes)
    }
}

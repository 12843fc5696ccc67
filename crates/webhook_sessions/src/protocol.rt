ghost use Rattle.std.proofs.Common.{rules};

use crate::answers::{answer_text, fault_text, out_of_memory_text};
use crate::fault::Fault;
use crate::request::{MAX_HEAD, next_request};
use act_sessions::{Next, Progress, Protocol};
use run_plan::{Prepared, Reply};
use std::alloc::Global;
use wf_reader::MAX_BODY;
use wf_value::Refusal;

/// How many requests a session takes.
const MAX_REQUESTS: u64 = 64;

/// How a sender's bytes are read and answered: HTTP/1.1.
/// Promise (Sessions): Bytes after a request change nothing
/// By: `webhook_sessions::protocol::Hooks`, the laws `steady` and `one` of `act_sessions::Protocol`
pub struct Hooks;

impl Protocol for Hooks {
    ghost use Rattle.webhook_sessions.specs.inner.HeadLines.{HeadKnown};
    ghost use Rattle.webhook_sessions.specs.Hooks.{hooks};
    ghost use Rattle.webhook_sessions.specs.inner.Laws.{head_fresh, head_lasts, hooks_steady, hooks_one};

    type Fault = Fault;

    ghost rules = { hooks };

    ghost known = { HeadKnown };

    fn most() -> u64 {
        MAX_REQUESTS
    }

    fn limit() -> usize {
        MAX_HEAD + MAX_BODY
    }

    fn next(
        alloc: Global,
        latest: Option<&Prepared>,
        bytes: &[u8],
        progress: Progress,
    ) -> Result<Next<Fault>, Refusal> {
        next_request(alloc, latest, bytes, progress)
    }

    fn answer_text(
        alloc: Global,
        last: bool,
        answer: &Result<Reply, Refusal>,
    ) -> Result<Vec<u8>, Refusal> {
        answer_text(alloc, last, answer)
    }

    fn fault_text(alloc: Global, last: bool, fault: &Fault) -> Result<Vec<u8>, Refusal> {
        fault_text(alloc, last, fault)
    }

    fn out_of_memory_response() -> Option<&'static [u8]> {
        Some(out_of_memory_text())
    }

    ghost steady = { hooks_steady };

    ghost one = { hooks_one };

    ghost some = { Prim.search rules };

    ghost fresh = { head_fresh };

    ghost lasts = { head_lasts };
}

ghost use Rattle.std.specs.Prelude.{◌≡◌, ◌<◌, Ok, option_map, ℕ, List, ◌++◌};
ghost use Rattle.wf_value.specs.Gives.{Gives};
ghost use Rattle.act_sessions.specs.declared.request.Progress.{Progress as Reading};
ghost use Rattle.act_sessions.specs.inner.Held.{Keeps};
ghost use Rattle.act_sessions.specs.inner.Progress.{nothing_read};
ghost use Rattle.act_sessions.specs.Rules.{IsNext, IsOne, IsSteady, Rules};

use crate::request::{Next, Progress};
use run_plan::{Prepared, Reply};
use std::alloc::Global;
use wf_value::Refusal;

/// How a byte stream is read as requests, and how they are answered.
/// Promise (Sessions): Bytes that are less than a request are looked at again only once there are as many as the protocol says that one needs at
///   least: up to then, whatever comes, they are less than a request
/// By: `act_sessions::Protocol`, `found` (`IsNext`, `WaitUntil`), `kept` (`Keeps`), the laws `fresh` and `lasts`
/// Refusal (Sessions and programs): `act_sessions::Protocol`, its calls; `act_sessions::Answer::ask`
/// When: 50: memory; of `ask`, what its implementation says
/// Afterwards: bytes read are as they were; of `ask` the list is one longer, or after 50 perhaps as it was
/// By: the clauses of the traits (`Gives`, `Submits`)
pub trait Protocol {
    /// Why no command is submitted for a request.
    type Fault: Drop;

    ghost rules: { Rules Self.Fault };

    /// What is known of bytes that were read so far.
    ghost known: { List ℕ → Reading → Type 0 };

    /// How many requests a session takes.
    fn most() -> u64
        ensures { result ≡ rules.most };

    /// How many bytes are examined before one request is whole. No more than these are held.
    fn limit() -> usize
        ensures { result ≡ rules.limit };

    /// What the bytes begin with, if they were read so far before. If they wait, it says how far they were read now. An event with the
    /// bytes of the latest one need not be read again; what it is does not depend on that.
    fn next(
        alloc: Global,
        latest: Option<&Prepared>,
        bytes: &[u8],
        progress: Progress,
    ) -> Result<Next<Self::Fault>, Refusal>
        requires { known bytes.now progress }
        ensures found { IsNext rules bytes.now result }
        ensures kept { Keeps (known bytes.now) result };

    /// The bytes that answer a command. `last` says whether this is the last answer of the session.
    fn answer_text(
        alloc: Global,
        last: bool,
        answer: &Result<Reply, Refusal>,
    ) -> Result<Vec<u8>, Refusal>
        ensures { Gives (λ v. v.items) result (Ok (rules.answer_text last answer.now)) };

    /// The bytes that answer a fault.
    fn fault_text(alloc: Global, last: bool, fault: &Self::Fault) -> Result<Vec<u8>, Refusal>
        ensures { Gives (λ v. v.items) result (Ok (rules.fault_text last fault.now)) };

    /// The response to an out-of-memory condition outside a command. With `None` the session ends with a fault.
    fn out_of_memory_response() -> Option<&'static [u8]>
        ensures { option_map (λ text. text.now) result ≡ rules.out_of_memory_response };

    ghost steady: { IsSteady rules };

    ghost one: { IsOne rules };

    ghost some: { 0 < rules.most };

    ghost fresh: { (bytes : List ℕ) → known bytes nothing_read };

    ghost lasts: { (bytes more : List ℕ) (progress : Reading) → known bytes progress → known (bytes ++ more) progress };
}

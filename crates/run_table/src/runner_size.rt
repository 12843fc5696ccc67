//! How many bytes a runner has in the text of a table.

ghost use Rattle.std.specs.Prelude.{◌≡◌, ◌≤◌};
ghost use Rattle.run_table.specs.inner.RunnerSizes.{AreSized, last_size, max_runner_size, runner_size};

use crate::runner::Runner;
use command_encodings::{WORD, claim_length, done_length, small_text_length};
use run_plan::{ClaimReply, LastCommand};

/// The byte of a kept reply.
const BYTE: u64 = 1;

/// The bytes of a kept lease, and of the run, the attempt, the job and the leg of its site.
const LEASE: u64 = 20;

impl Runner {
    /// How many bytes it has in the text of a table.
    pub(crate) fn text_size(&self) -> u64
        ensures size { result ≡ runner_size self.now }
        ensures most { result ≤ max_runner_size }
    {
        small_text_length(&self.name) + WORD + last_size(&self.last) + WORD
    }
}

/// The bytes of a last command and of its kept reply.
fn last_size(value: &LastCommand) -> u64
    ensures size { result ≡ last_size value.now }
    ensures most { result ≤ 1186 }
{
    match value {
        LastCommand::Claim(claim, ClaimReply::Nothing) => BYTE + claim_length(claim) + BYTE,
        LastCommand::Claim(claim, ClaimReply::Lease(_)) => BYTE
            + claim_length(claim)
            + BYTE
            + LEASE,
        LastCommand::Done(report) => BYTE + done_length(report) + BYTE,
    }
}

/// The bytes of all the runners.
pub(crate) fn all_sizes(runners: &[Runner]) -> u128
    ensures { AreSized runners.now result }
{
    let mut total = 0;
    for runner in runners {
        total += u128::from(runner.text_size());
    }
    total
}

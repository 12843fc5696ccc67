//! The reply to a numbered command that follows from its number alone: the kept reply if it repeats the runner's last
//! command, and a refusal if its number is not the next.

ghost use Rattle.std.specs.Prelude.{◌≡◌, false, Ok, option_map, Some, IsOk};
ghost use Rattle.wf_value.specs.Gives.{Gives};
ghost use Rattle.run_plan.specs.LastCommand.{is_last_claim, is_last_report, kept_reply};
ghost use Rattle.run_plan.specs.ReplyText.{carries_text};
ghost use Rattle.table_model.specs.TableState.{answer_by_number, needs_text, number_refusal};

use crate::runner::Runner;
use run_plan::{Claim, Done, LastCommand, Number, Reply};
use std::alloc::Global;
use wf_value::Refusal;

/// A refusal if the number is not the one after the last.
fn number_refusal(last: u32, number: Number) -> Option<Reply>
    ensures { result ≡ number_refusal last number }
{
    let last = u64::from(last);
    if u64::from(number.get()) == last + 1 {
        None
    } else {
        Some(Reply::Refused(Refusal::Turn(last)))
    }
}

fn kept_reply(alloc: Global, last: &LastCommand) -> Result<Option<Reply>, Refusal>
    ensures gives { Gives (λ r. r) result (Ok (Some (kept_reply last.now))) }
    ensures answers { carries_text (kept_reply last.now) ≡ false → IsOk result }
{
    Ok(Some(last.reply(alloc)?))
}

/// The reply to a claim that follows from its number alone, if any.
pub fn answer_to_claim(
    alloc: Global,
    runner: Option<&Runner>,
    claim: &Claim,
) -> Result<Option<Reply>, Refusal>
    ensures gives { Gives (λ r. r) result
        (Ok (answer_by_number (option_map (λ r. r.now) runner.entry) claim.now.number (is_last_claim claim.now))) }
    ensures answers { let last = option_map (λ r. r.now) runner.entry in
        needs_text (answer_by_number last claim.now.number (is_last_claim claim.now)) ≡ false → IsOk result }
{
    match runner {
        None => Ok(number_refusal(0, claim.number)),
        Some(runner) if runner.number.get() == claim.number.get() && runner.last.is_claim(claim) =>
            { kept_reply(alloc, &runner.last) }
        Some(runner) => Ok(number_refusal(runner.number.get(), claim.number)),
    }
}

/// The reply to a report that follows from its number alone, if any.
pub fn answer_to_report(
    alloc: Global,
    runner: Option<&Runner>,
    report: &Done,
) -> Result<Option<Reply>, Refusal>
    ensures gives { Gives (λ r. r) result
        (Ok (answer_by_number (option_map (λ r. r.now) runner.entry) report.now.number (is_last_report report.now))) }
    ensures answers { let last = option_map (λ r. r.now) runner.entry in
        needs_text (answer_by_number last report.now.number (is_last_report report.now)) ≡ false → IsOk result }
{
    match runner {
        None => Ok(number_refusal(0, report.number)),
        Some(runner)
            if runner.number.get() == report.number.get() && runner.last.is_report(report) => {
            kept_reply(alloc, &runner.last)
        }
        Some(runner) => Ok(number_refusal(runner.number.get(), report.number)),
    }
}

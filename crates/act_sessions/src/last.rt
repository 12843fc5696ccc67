ghost use Rattle.std.specs.Prelude.{◌≡◌};
ghost use Rattle.act_sessions.specs.Exchange.{is_one_of, leaves_open, open_codes, ends_by, ends_session};

use run_plan::Reply;
use wf_value::{Code, Refusal};

/// Whether a refusal ends a session.
pub fn ends_by(refusal: &Refusal) -> bool
    ensures { result ≡ ends_by refusal.now }
{
    match refusal {
        Refusal::Numbered(
            Code::HistoryFull | Code::AreaFull | Code::LastCounter | Code::OldLayout,
        ) => true,
        _ => is_open(refusal),
    }
}

/// Whether an answer ends a session: one refused with 46, 47, 48, 50, 51, 52, 57 or 60.
pub fn ends_session(answer: &Result<Reply, Refusal>) -> bool
    ensures { result ≡ ends_session answer.now }
{
    match answer {
        Ok(Reply::Refused(refusal)) => ends_by(refusal),
        Ok(_) => false,
        Err(refusal) => ends_by(refusal),
    }
}

/// Whether an answer leaves it unknown whether its command was entered: 50, 51, 52 and 60 do.
pub fn leaves_open(answer: &Result<Reply, Refusal>) -> bool
    ensures { result ≡ leaves_open answer.now }
{
    match answer {
        Ok(_) => false,
        Err(refusal) => is_open(refusal),
    }
}

/// Whether a refusal leaves it unknown whether its command was entered.
fn is_open(refusal: &Refusal) -> bool
    ensures { result ≡ is_one_of open_codes refusal.now }
{
    matches!(
        refusal,
        Refusal::Numbered(
            Code::NoMemory | Code::DeviceFailed | Code::FailedEarlier | Code::Unsettled
        )
    )
}

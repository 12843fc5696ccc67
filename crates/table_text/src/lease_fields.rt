ghost use Rattle.std.specs.Prelude.{◌≡◌, ◌≤◌, IfOk};
ghost use Rattle.definitions.specs.Limits.{last_number};
ghost use Rattle.command_encodings.specs.inner.Reading.{Finds};
ghost use Rattle.table_text.specs.inner.ReadingTables.{lease_at, lease_of, optional_lease};

use command_encodings::{DecodeError, is_within, word_at};
use run_plan::{LAST_NUMBER, Number};

/// The value, if it is 0 or a lease's number.
fn lease_number(value: u32) -> Result<u32, DecodeError>
    ensures gives { Finds (λ n. optional_lease n) result (lease_of value) }
    ensures most { IfOk result (λ n. n ≤ last_number) }
{
    if value == 0 {
        return Ok(0);
    }
    if is_within(value, LAST_NUMBER) {
        return Ok(value);
    }
    Err(DecodeError::NoEncoding)
}

/// The lease's number at the front of the bytes, 0 for none, and the bytes after it.
#[tactic(auto, unfolding(crate::specs::inner::ReadingTables::lease_at))]
pub(crate) fn lease_at(bytes: &[u8]) -> Result<(u32, &[u8]), DecodeError>
    ensures gives { Finds (λ f. (optional_lease f.0, f.1.now)) result (lease_at bytes.now) }
    ensures most { IfOk result (λ f. f.0 ≤ last_number) }
{
    let (value, rest) = word_at(bytes)?;
    let lease = lease_number(value)?;
    Ok((lease, rest))
}

/// The lease with this number; `None` for 0.
pub(crate) fn optional_lease(value: u32) -> Option<Number>
    requires { value ≤ last_number }
    ensures { result ≡ optional_lease value }
{
    if value == 0 {
        return None;
    }
    Some(Number::new(value))
}

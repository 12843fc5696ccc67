ghost use Rattle.std.specs.Prelude.{◌≡◌};
ghost use Rattle.webhook_sessions.specs.Length.{length_of, stated_length};

use crate::fault::Fault;
use crate::fields::Fields;
use crate::occurrence::Occurrence;
use run_plan::decimal_of;
use wf_reader::MAX_BODY;

/// The body length that a `Content-Length` states, or why it is refused.
fn length_of(text: &[u8]) -> Result<usize, Fault>
    ensures { result ≡ length_of text.now }
{
    let Some(length) = decimal_of(text) else {
        return Err(Fault::BadLength);
    };
    let length = length as usize;
    if length > MAX_BODY {
        return Err(Fault::TooLong);
    }
    Ok(length)
}

/// The body length that the fields of a head state, if any.
pub fn stated_length(fields: &Fields<'_>) -> Result<Option<usize>, Fault>
    ensures { result ≡ stated_length fields.now }
{
    if !matches!(fields.named(b"transfer-encoding"), Occurrence::Missing) {
        return Err(Fault::NoLength);
    }
    match fields.named(b"content-length") {
        Occurrence::Missing => Ok(None),
        Occurrence::Once(text) => Ok(Some(length_of(text)?)),
        Occurrence::Repeated => Err(Fault::BadLength),
    }
}

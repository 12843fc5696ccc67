ghost use Rattle.std.specs.Fmt.{signed_decimal};
ghost use Rattle.std.specs.Prelude.{◌≡◌, ◌↔◌, ◌<◌, [], length, IsTrue, Ok};
ghost use Rattle.wf_value.specs.Gives.{Gives};

use crate::chars::Chars;
use crate::refusal::Refusal;
use crate::same::Same;
use crate::try_copy::TryCopy;
use std::alloc::Global;

/// A value of an expression or of a matrix: null, a boolean, a signed 64-bit integer or a text.
/// GitHub Docs, "Evaluate expressions in workflows and actions", Literals.
#[derive(Drop)]
pub enum Scalar {
    Null,
    Truth(bool),
    Whole(i64),
    Text(Chars),
}

/// The decimal text of a number. It is never empty.
fn text_of_whole(alloc: Global, n: i64) -> Result<Chars, Refusal>
    ensures gives { Gives (λ c. c) result (Ok (signed_decimal n)) }
    ensures filled { 0 < length (signed_decimal n) }
{
    Ok(Chars::new(format!(in alloc; "{n}")?))
}

impl Scalar {
    ghost use Rattle.wf_value.specs.ScalarValue.{is_truthy, scalar_text};

    /// Whether the value is truthy: `false`, `0`, the empty text and null are not.
    /// Promise (Needs, matrices, templates and values): Truth and text of scalars, words of results, numbers and texts of refusals are the
    ///   definition's
    /// By: `wf_value::Scalar::truthy`; `wf_value::Scalar::text`, `gives`, `answers`; `wf_value::Outcome::word`; `wf_value::JobResult::word`;
    ///   `wf_value::Refusal::{number, text}`; `wf_value::Code::number`
    pub fn truthy(&self) -> bool
        ensures { result ≡ is_truthy self.now }
    {
        match self {
            Scalar::Null => false,
            Scalar::Truth(b) => *b,
            Scalar::Whole(n) => *n != 0,
            Scalar::Text(text) => !text.as_str().is_empty(),
        }
    }

    /// The text of the value. An empty text takes no memory.
    pub fn text(&self, alloc: Global) -> Result<Chars, Refusal>
        ensures gives { Gives (λ c. c) result (Ok (scalar_text self.now)) }
        ensures answers { scalar_text self.now ≡ [] → result ≡ Ok [] }
    {
        match self {
            Scalar::Null => Chars::from_str(alloc, ""),
            Scalar::Truth(true) => Chars::from_str(alloc, "true"),
            Scalar::Truth(false) => Chars::from_str(alloc, "false"),
            Scalar::Whole(n) => text_of_whole(alloc, *n),
            Scalar::Text(text) => text.copy(alloc),
        }
    }
}

impl TryCopy for Scalar {
    ghost use Rattle.wf_value.specs.ScalarValue.{text_held};

    /// Only a non-empty text takes memory.
    fn copy(&self, alloc: Global) -> Result<Self, Refusal>
        ensures gives { Gives (λ s. s) result (Ok self.now) }
        ensures answers { text_held self.now ≡ [] → result ≡ Ok self.now }
    {
        match self {
            Scalar::Null => Ok(Scalar::Null),
            Scalar::Truth(truth) => Ok(Scalar::Truth(*truth)),
            Scalar::Whole(whole) => Ok(Scalar::Whole(*whole)),
            Scalar::Text(text) => Ok(Scalar::Text(text.copy(alloc)?)),
        }
    }
}

impl Same for Scalar {
    ghost use Rattle.wf_value.specs.ScalarValue.{same_scalar};

    /// Whether kind and value are equal.
    fn same(&self, other: &Self) -> bool
        ensures equal { IsTrue result ↔ (self.now ≡ other.now) }
        ensures test { result ≡ same_scalar self.now other.now }
    {
        match (self, other) {
            (Scalar::Null, Scalar::Null) => true,
            (Scalar::Truth(a), Scalar::Truth(b)) => *a == *b,
            (Scalar::Whole(a), Scalar::Whole(b)) => *a == *b,
            (Scalar::Text(a), Scalar::Text(b)) => a.same(b),
            _ => false,
        }
    }
}

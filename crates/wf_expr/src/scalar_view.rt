ghost use Rattle.std.specs.Prelude.{◌≡◌, Ok};
ghost use Rattle.wf_value.specs.Gives.{Gives};
ghost use Rattle.wf_value.specs.ScalarValue.{is_truthy};

use std::alloc::Global;
use wf_value::{Chars, Refusal, Scalar};

/// A scalar with a borrowed text, so that reading it takes no memory.
#[derive(Clone, Copy)]
pub enum ScalarView<'a> {
    Null,
    Truth(bool),
    Whole(i64),
    Text(&'a str),
}

impl<'a> ScalarView<'a> {
    ghost use Rattle.wf_expr.specs.ScalarView.{shown};

    pub fn of(scalar: &'a Scalar) -> ScalarView<'a>
        ensures { shown result ≡ scalar.now }
    {
        match scalar {
            Scalar::Null => ScalarView::Null,
            Scalar::Truth(truth) => ScalarView::Truth(*truth),
            Scalar::Whole(whole) => ScalarView::Whole(*whole),
            Scalar::Text(text) => ScalarView::Text(text.as_str()),
        }
    }

    /// Whether the value is truthy: `false`, `0`, the empty text and null are not.
    pub fn truthy(self) -> bool
        ensures { result ≡ is_truthy (shown self.entry) }
    {
        match self {
            ScalarView::Null => false,
            ScalarView::Truth(truth) => truth,
            ScalarView::Whole(whole) => whole != 0,
            ScalarView::Text(text) => !text.is_empty(),
        }
    }

    pub fn copy(self, alloc: Global) -> Result<Scalar, Refusal>
        ensures { Gives (λ s. s) result (Ok (shown self.entry)) }
    {
        match self {
            ScalarView::Null => Ok(Scalar::Null),
            ScalarView::Truth(truth) => Ok(Scalar::Truth(truth)),
            ScalarView::Whole(whole) => Ok(Scalar::Whole(whole)),
            ScalarView::Text(text) => Ok(Scalar::Text(Chars::from_str(alloc, text)?)),
        }
    }
}

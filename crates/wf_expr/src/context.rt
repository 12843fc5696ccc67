ghost use Rattle.std.specs.Prelude.{◌≡◌};
ghost use Rattle.std.specs.Option.{option_map};

use crate::properties::Properties;
use crate::scalar_view::ScalarView;
use wf_value::Chars;

/// A source of values for references: a finite map from paths, which are lists of names, to scalars. GitHub Docs, "Contexts
/// reference".
pub trait Context {
    ghost use Rattle.std.specs.Prelude.{ℕ, List, Option};
    ghost use Rattle.wf_value.specs.declared.scalar.Scalar.{Scalar};
    ghost use Rattle.wf_expr.specs.ScalarView.{shown};

    ghost values: { Self → List (List ℕ) → Option Scalar };

    /// The value of a path, if any. It takes no memory.
    fn value_of(&self, path: &[Chars]) -> Option<ScalarView<'_>>
        ensures { option_map shown result ≡ values self.now path.now };
}

impl Context for Properties {
    ghost use Rattle.wf_expr.specs.Properties.{value_at};

    ghost values = { value_at };

    fn value_of(&self, path: &[Chars]) -> Option<ScalarView<'_>> {
        match self.get(path) {
            Some(value) => Some(ScalarView::of(value)),
            None => None,
        }
    }
}

ghost use Rattle.std.specs.Prelude.{◌≡◌, ◌↔◌, ◌++◌, ◌∷◌, [], length, IsTrue, Ok, OnErr};
ghost use Rattle.wf_value.specs.Gives.{Gives};
ghost use Rattle.definitions.specs.Rising.{names_rise};

use crate::chars::Chars;
use crate::refusal::Refusal;
use crate::same::{Same, same_items};
use crate::scalar::Scalar;
use crate::try_copy::{TryCopy, copy_items};
use std::alloc::Global;
use std::marker::Model;

/// A combination of a matrix: one value for each name, in byte order of the names. In contracts it is the list of the pairs.
/// GitHub Docs, "Running variations of jobs in a workflow".
#[derive(Drop)]
pub struct Combo {
    pairs: Vec<(Chars, Scalar)>,
}

impl Model for Combo {
    ghost use Rattle.std.specs.Prelude.{List, ℕ, IsTrue};
    ghost use Rattle.wf_value.specs.declared.scalar.Scalar.{Scalar};
    ghost use Rattle.definitions.specs.Rising.{names_rise};
    ghost use Rattle.wf_value.specs.inner.ScalarCode.{coded_pairs};

    ghost Value = { List (List ℕ × Scalar) };

    ghost coded = { coded_pairs };

    ghost view = { λ c. c.pairs.items };

    ghost invariant = { λ c. IsTrue (names_rise c.pairs.items) };
}

impl Combo {
    /// The combination without names, which is that of a job without a matrix.
    pub fn new(alloc: Global) -> Self
        ensures { result ≡ [] }
    {
        Combo {
            pairs: Vec::new(alloc),
        }
    }

    /// Whether the names strictly increase in byte order, as `from_pairs` requires.
    pub fn names_rise(pairs: &[(Chars, Scalar)]) -> bool
        ensures { result ≡ names_rise pairs.now }
    {
        pairs.is_sorted_by(|one, other| one.0.as_str().cmp(other.0.as_str()).is_lt())
    }

    /// Moves a `Vec` with increasing names into a combination, without copying it.
    pub fn from_pairs(pairs: Vec<(Chars, Scalar)>) -> Self
        requires { IsTrue (names_rise pairs.items) }
        ensures { result ≡ pairs.items }
    {
        Combo { pairs }
    }

    /// Moves the `Vec` out.
    pub fn into_vec(self) -> Vec<(Chars, Scalar)>
        ensures pairs { result.items ≡ self }
        ensures in_order { IsTrue (names_rise self) }
    {
        let Combo { pairs } = self;
        pairs
    }

    /// The pairs, in byte order of their names.
    /// Promise (Needs, matrices, templates and values): The names in combinations and matrices rise, and the tests for that are exact
    /// By: `wf_value::Combo::as_slice`, `in_order`; `wf_value::Matrix::variables`, `in_order`; `wf_value::Combo::names_rise`;
    ///   `wf_value::Matrix::names_rise`; `needs_graph::ids_rise`; `stored_tables::do_names_rise`
    pub fn as_slice(&self) -> &[(Chars, Scalar)]
        ensures pairs { result.now ≡ self.now }
        ensures in_order { IsTrue (names_rise self.now) }
    {
        self.pairs.as_slice()
    }

    /// The number of names.
    pub fn len(&self) -> usize
        ensures { result ≡ length self.now }
    {
        self.pairs.len()
    }

    /// Whether there are no names.
    pub fn is_empty(&self) -> bool
        ensures { IsTrue result ↔ (self.now ≡ []) }
    {
        self.pairs.is_empty()
    }

    /// Appends a copy of a name and of its value. The name must come after all others. On `Err` the combination is unchanged.
    pub fn push_copy(&mut self, alloc: Global, name: &Chars, value: &Scalar) -> Result<(), Refusal>
        requires { IsTrue (names_rise (self.old ++ (name.now, value.now) ∷ [])) }
        ensures ok { Gives (λ _. self.new) result (Ok (self.old ++ (name.now, value.now) ∷ [])) }
        ensures err { OnErr result (self.new ≡ self.old) }
    {
        let pair = (name.copy(alloc)?, value.copy(alloc)?);
        self.pairs.push(pair)?;
        Ok(())
    }
}

impl TryCopy for Combo {
    /// A combination without names takes no memory.
    fn copy(&self, alloc: Global) -> Result<Self, Refusal>
        ensures gives { Gives (λ c. c) result (Ok self.now) }
        ensures answers { self.now ≡ [] → result ≡ Ok [] }
    {
        Ok(Combo {
            pairs: copy_items(alloc, self.as_slice())?,
        })
    }
}

impl Same for Combo {
    fn same(&self, other: &Self) -> bool {
        same_items(self.as_slice(), other.as_slice())
    }
}

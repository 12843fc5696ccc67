ghost use Rattle.std.specs.Prelude.{◌≡◌, IsTrue};
ghost use Rattle.definitions.specs.Rising.{names_rise};

use crate::chars::Chars;
use crate::combo::Combo;
use crate::scalar::Scalar;
use std::marker::Model;

/// A variable of a matrix: a name, and its values in list order. In contracts it is the pair of both.
#[derive(Drop)]
pub struct Variable {
    name: Chars,
    values: Vec<Scalar>,
}

impl Model for Variable {
    ghost use Rattle.wf_value.specs.ScalarValue.{NamedValues, coded_variable};

    ghost Value = { NamedValues };

    ghost coded = { coded_variable };

    ghost view = { λ v. (v.name, v.values.items) };
}

impl Variable {
    /// Makes a variable of a name and a `Vec`. Both are moved, not copied.
    pub fn new(name: Chars, values: Vec<Scalar>) -> Self
        ensures { result ≡ (name, values.items) }
    {
        Variable { name, values }
    }

    pub fn name(&self) -> &Chars
        ensures { result.now ≡ self.now.0 }
    {
        &self.name
    }

    pub fn values(&self) -> &[Scalar]
        ensures { result.now ≡ self.now.1 }
    {
        self.values.as_slice()
    }
}

/// A matrix as written: its variables in byte order of their names, and its `include` and `exclude` objects unchanged. In contracts
/// it is the record of these three lists.
/// GitHub Docs, "Running variations of jobs in a workflow".
#[derive(Drop)]
pub struct Matrix {
    variables: Vec<Variable>,
    include: Vec<Combo>,
    exclude: Vec<Combo>,
}

impl Model for Matrix {
    ghost use Rattle.std.specs.Prelude.{IsTrue};
    ghost use Rattle.definitions.specs.Rising.{names_rise};
    ghost use Rattle.wf_value.specs.ScalarValue.{MatrixLists, coded_matrix};

    ghost Value = { MatrixLists };

    ghost coded = { coded_matrix };

    ghost view = { λ m. record { variables = m.variables.items; include = m.include.items; exclude = m.exclude.items } };

    ghost invariant = { λ m. IsTrue (names_rise m.variables.items) };
}

impl Matrix {
    /// Whether the names of the variables strictly increase in byte order, as `new` requires.
    pub fn names_rise(variables: &[Variable]) -> bool
        ensures { result ≡ names_rise variables.now }
    {
        variables.is_sorted_by(|one, other| one.name.as_str().cmp(other.name.as_str()).is_lt())
    }

    /// Makes a matrix of its lists, which are moved, not copied.
    pub fn new(variables: Vec<Variable>, include: Vec<Combo>, exclude: Vec<Combo>) -> Self
        requires { IsTrue (names_rise variables.items) }
        ensures variables { result.variables ≡ variables.items }
        ensures include { result.include ≡ include.items }
        ensures exclude { result.exclude ≡ exclude.items }
    {
        Matrix {
            variables,
            include,
            exclude,
        }
    }

    /// The variables, in byte order of their names.
    pub fn variables(&self) -> &[Variable]
        ensures variables { result.now ≡ self.now.variables }
        ensures in_order { IsTrue (names_rise self.now.variables) }
    {
        self.variables.as_slice()
    }

    pub fn include(&self) -> &[Combo]
        ensures { result.now ≡ self.now.include }
    {
        self.include.as_slice()
    }

    pub fn exclude(&self) -> &[Combo]
        ensures { result.now ≡ self.now.exclude }
    {
        self.exclude.as_slice()
    }
}

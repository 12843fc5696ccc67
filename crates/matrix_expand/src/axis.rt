ghost use Rattle.std.specs.Prelude.{◌≡◌, ◌<◌, length, IsTrue, IfSome, Ok, slice_get, option_and_then};
ghost use Rattle.std.specs.Cmp.Lexicographic.{slice_cmp};
ghost use Rattle.std.specs.Option.{option_map};
ghost use Rattle.std.specs.Ordering.{nat_cmp};
ghost use Rattle.wf_value.specs.Gives.{Gives};
ghost use Rattle.definitions.specs.Rising.{names_rise};
ghost use Rattle.matrix_expand.specs.Combinations.{choice_count};
ghost use Rattle.matrix_expand.specs.inner.Numbered.{chosen, axes_of, choice_of};

use std::alloc::Global;
use std::cmp::Ordering;
use std::marker::Model;
use wf_value::{Chars, Refusal, Scalar, Variable};

/// The values of a variable, and the number of consecutive originals that share each value.
#[derive(Drop)]
pub struct Choice<'a> {
    values: &'a [Scalar],
    stride: usize,
}

impl<'a> Model for Choice<'a> {
    ghost use Rattle.std.specs.Prelude.{◌<◌, length};
    ghost use Rattle.matrix_expand.specs.inner.Values.{ChoiceValue, coded_choice};

    ghost Value = { ChoiceValue };

    ghost coded = { coded_choice };

    ghost view = { λ c. (c.values.now, c.stride) };

    ghost invariant = { λ c. (0 < length c.values.now) × (0 < c.stride) };
}

impl<'a> Choice<'a> {
    pub fn new(values: &'a [Scalar], stride: usize) -> Self
        requires some { 0 < length values.now }
        requires steps { 0 < stride }
        ensures { result ≡ (values.entry.now, stride) }
    {
        Choice { values, stride }
    }

    pub fn again(&self) -> Choice<'a>
        ensures { result ≡ self.now }
    {
        Choice {
            values: self.values,
            stride: self.stride,
        }
    }

    /// The value in the original with this number.
    pub fn value(&self, number: usize) -> &'a Scalar
        ensures { result.now ≡ chosen self.now number }
    {
        let values = self.values;
        &values[number / self.stride % values.len()]
    }
}

/// A variable and its choice, for numbering the originals.
#[derive(Drop)]
pub struct Axis<'a> {
    name: &'a Chars,
    choice: Choice<'a>,
}

impl<'a> Model for Axis<'a> {
    ghost use Rattle.matrix_expand.specs.inner.Values.{AxisValue, coded_axis};

    ghost Value = { AxisValue };

    ghost coded = { coded_axis };

    ghost view = { λ a. (a.name.now, a.choice) };
}

impl<'a> Axis<'a> {
    pub fn new(name: &'a Chars, choice: Choice<'a>) -> Self
        ensures { result ≡ (name.entry.now, choice.entry) }
    {
        Axis { name, choice }
    }

    pub fn name(&self) -> &'a Chars
        ensures { result.now ≡ self.now.0 }
    {
        self.name
    }

    pub fn choice(&self) -> &Choice<'a>
        ensures { result.now ≡ self.now.1 }
    {
        &self.choice
    }
}

/// Numbers the `count` originals. The first variable changes slowest.
pub fn axes<'a>(
    alloc: Global,
    variables: &'a [Variable],
    count: usize,
) -> Result<Vec<Axis<'a>>, Refusal>
    requires some { 0 < count }
    requires all { count ≡ choice_count variables.now }
    ensures { Gives (λ v. v.items) result (Ok (axes_of variables.entry.now)) }
{
    let mut stride = count;
    let mut axes = Vec::new(alloc);
    for variable in variables {
        let values = variable.values();
        stride /= values.len();
        axes.push(Axis::new(variable.name(), Choice::new(values, stride)))?;
    }
    Ok(axes)
}

/// The index of the variable with this name.
pub fn index_of(axes: &[Axis], name: &Chars) -> Option<usize>
    requires { IsTrue (names_rise axes.now) }
    ensures found { IfSome result (λ i. i < length axes.now) }
    ensures value { option_and_then (λ i. option_map (λ axis. axis.1) (slice_get axes.now i)) result ≡ choice_of axes.now name.now }
{
    let mut low = 0;
    let mut high = axes.len();
    while low < high {
        let middle = low + (high - low) / 2;
        match name_order(&axes[middle], name) {
            Ordering::Less => low = middle + 1,
            Ordering::Equal => return Some(middle),
            Ordering::Greater => high = middle,
        }
    }
    None
}

/// Compares the name of a variable with a name, by bytes.
fn name_order(axis: &Axis, name: &Chars) -> Ordering
    ensures { result ≡ slice_cmp nat_cmp axis.now.0 name.now }
{
    axis.name().as_str().cmp(name.as_str())
}

ghost use Rattle.std.specs.Prelude.{◌≡◌, ◌&&◌, map, IsTrue, Ok};
ghost use Rattle.std.specs.List.{list_all};
ghost use Rattle.wf_value.specs.Gives.{Gives};
ghost use Rattle.definitions.specs.Rising.{names_rise};
ghost use Rattle.matrix_expand.specs.inner.Numbered.{wanted_holds, pattern_agrees, pattern_removes, pattern_of};

use crate::axis::{Axis, Choice, index_of};
use std::alloc::Global;
use std::marker::Model;
use wf_value::{Combo, Refusal, Same, Scalar};

/// A value that an object requires of an original.
#[derive(Drop)]
struct WantedChoice<'a> {
    choice: Choice<'a>,
    value: &'a Scalar,
}

impl<'a> Model for WantedChoice<'a> {
    ghost use Rattle.matrix_expand.specs.inner.Values.{WantedValue, coded_wanted};

    ghost Value = { WantedValue };

    ghost coded = { coded_wanted };

    ghost view = { λ w. (w.choice, w.value.now) };
}

impl<'a> WantedChoice<'a> {
    fn new(choice: Choice<'a>, value: &'a Scalar) -> Self
        ensures { result ≡ (choice.entry, value.entry.now) }
    {
        WantedChoice { choice, value }
    }

    /// Whether the original with this number has the value.
    fn holds(&self, number: usize) -> bool
        ensures { result ≡ wanted_holds number self.now }
    {
        self.choice.value(number).same(self.value)
    }
}

fn all_hold(wanted: &[WantedChoice], number: usize) -> bool
    ensures { result ≡ list_all (wanted_holds number) wanted.now }
{
    wanted.iter().all(|w| w.holds(number))
}

/// An include or exclude object, prepared for comparison with originals.
#[derive(Drop)]
pub struct Pattern<'a> {
    object: &'a Combo,
    wanted: Vec<WantedChoice<'a>>,
    has_other: bool,
}

impl<'a> Model for Pattern<'a> {
    ghost use Rattle.matrix_expand.specs.inner.Values.{PatternValue, coded_pattern};

    ghost Value = { PatternValue };

    ghost coded = { coded_pattern };

    ghost view = { λ p. (p.object.now, (p.wanted.items, p.has_other)) };
}

impl<'a> Pattern<'a> {
    pub fn new(alloc: Global, axes: &[Axis<'a>], object: &'a Combo) -> Result<Self, Refusal>
        requires { IsTrue (names_rise axes.now) }
        ensures { Gives (λ p. p) result (Ok (pattern_of axes.now object.entry.now)) }
    {
        let mut wanted = Vec::new(alloc);
        let mut has_other = false;
        for (name, value) in object.as_slice() {
            match index_of(axes, name) {
                Some(index) => wanted.push(WantedChoice::new(axes[index].choice().again(), value))?,
                None => has_other = true,
            }
        }
        Ok(Pattern {
            object,
            wanted,
            has_other,
        })
    }

    pub fn object(&self) -> &'a Combo
        ensures { result.now ≡ self.now.0 }
    {
        self.object
    }

    /// Whether the original with this number has the object's value for each variable that the object names.
    pub fn agrees(&self, number: usize) -> bool
        ensures { result ≡ pattern_agrees number self.now }
    {
        all_hold(self.wanted.as_slice(), number)
    }

    /// Whether the original with this number has all pairs of the object.
    pub fn removes(&self, number: usize) -> bool
        ensures { result ≡ pattern_removes number self.now }
    {
        !self.has_other && all_hold(self.wanted.as_slice(), number)
    }
}

/// Prepares objects for comparison with originals.
pub fn patterns<'a>(
    alloc: Global,
    axes: &[Axis<'a>],
    objects: &'a [Combo],
) -> Result<Vec<Pattern<'a>>, Refusal>
    requires { IsTrue (names_rise axes.now) }
    ensures { Gives (λ v. v.items) result (Ok (map (pattern_of axes.now) objects.entry.now)) }
{
    let mut patterns = Vec::with_capacity(alloc, objects.len())?;
    for object in objects {
        patterns.push(Pattern::new(alloc, axes, object)?)?;
    }
    Ok(patterns)
}

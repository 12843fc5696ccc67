ghost use Rattle.std.specs.List.{list_any, slice_index_or};
ghost use Rattle.std.specs.Prelude.{◌≡◌, ◌↔◌, ◌+◌, ◌<◌, ◌≤◌, [], length, map, IsTrue, IfOk, Ok};
ghost use Rattle.definitions.specs.Limits.{max_legs};
ghost use Rattle.wf_value.specs.Gives.{Gives};
ghost use Rattle.definitions.specs.Rising.{names_rise};
ghost use Rattle.matrix_expand.specs.Combinations.{choice_count, combinations, legs_or_refusal, combinations_or_refusal};
ghost use Rattle.matrix_expand.specs.inner.Numbered.{original_count, numbered_axes, pattern_agrees, kept_of, kept_or_refusal, new_objects};

use crate::axis::{Axis, axes};
use crate::combination::final_combination;
use crate::entry::{Entry, entries};
use crate::original::{MAX_CHOICES, MAX_LEGS, capped_choices, kept_originals};
use crate::pattern::{Pattern, patterns};
use std::alloc::Global;
use std::marker::Model;
use wf_value::{Code, Combo, Matrix, Refusal, TryCopy, Variable};

/// The combinations of a matrix, each made on demand.
#[derive(Drop)]
pub struct Expansion<'a> {
    axes: Vec<Axis<'a>>,
    includes: Vec<Pattern<'a>>,
    /// The pairs of the include objects.
    entries: Vec<Entry<'a>>,
    /// The numbers of the kept originals.
    kept: Vec<usize>,
    /// The new combinations.
    added: Vec<&'a Combo>,
}

impl<'a> Model for Expansion<'a> {
    ghost use Rattle.std.specs.Prelude.{◌+◌, ◌≤◌, ◌++◌, List, length, map, IsTrue};
    ghost use Rattle.definitions.specs.Limits.{max_legs};
    ghost use Rattle.definitions.specs.Rising.{names_rise};
    ghost use Rattle.matrix_expand.specs.Combinations.{Combination};
    ghost use Rattle.matrix_expand.specs.inner.Entries.{names_ascend, pairs_of, final_from};

    ghost Value = { List Combination };

    ghost view = { λ e. map (final_from e.axes.items e.includes.items e.entries.items) e.kept.items
        ++ map (λ c. c.now) e.added.items };

    ghost invariant = { λ e. IsTrue (names_ascend (pairs_of e.entries.items)) × IsTrue (names_rise e.axes.items)
        × (length e.kept.items + length e.added.items ≤ max_legs) };
}

impl<'a> Expansion<'a> {
    /// The combinations of a matrix, in order. The `Err` is 21 if the product of the lengths of its variables' lists is over 4,096,
    /// else 22 if there is no combination or more than 256.
    /// GitHub Docs, "Running variations of jobs in a workflow".
    pub fn of(alloc: Global, matrix: &'a Matrix) -> Result<Self, Refusal>
        ensures { Gives (λ e. e) result (combinations_or_refusal matrix.entry.now) }
    {
        let choices = capped_choices(matrix.variables());
        if choices > MAX_CHOICES {
            return Err(Refusal::Numbered(Code::MatrixTooLarge));
        }
        legs(alloc, matrix, choices)
    }

    pub fn len(&self) -> usize
        ensures { result ≡ length self.now }
    {
        self.kept.len() + self.added.len()
    }

    /// The combination of a leg, by the leg's index.
    pub fn combination(&self, alloc: Global, leg: usize) -> Result<Combo, Refusal>
        requires { leg < length self.now }
        ensures { Gives (λ c. c) result (Ok (slice_index_or self.now leg [])) }
    {
        if leg < self.kept.len() {
            final_combination(
                alloc,
                self.axes.as_slice(),
                self.includes.as_slice(),
                self.entries.as_slice(),
                self.kept[leg],
            )
        } else {
            self.added[leg - self.kept.len()].copy(alloc)
        }
    }
}

/// All combinations of a matrix, in order. The errors are those of `Expansion::of`.
/// Promise (Needs, matrices, templates and values): The combinations of a matrix are exactly the documentation's, in order, all at once or one
///   by one; 21, else 22, exactly where they are due
/// By: `matrix_expand::expand`; `matrix_expand::Expansion::{of, len, combination}`
/// Refusal (The layers below): `matrix_expand`: `expand`, `Expansion::{of, combination}`; `needs_graph`: `Graph::build`
/// When: 21, else 22; 13, else 14: exactly, with memory. 50
/// Afterwards: nothing is made
/// By: one clause each (`Gives`, `combinations_or_refusal`); `Graph::build`, `graph`
pub fn expand(alloc: Global, matrix: &Matrix) -> Result<Vec<Combo>, Refusal>
    ensures { Gives (λ v. v.items) result (combinations_or_refusal matrix.now) }
{
    let expansion = Expansion::of(alloc, matrix)?;
    all_of(alloc, &expansion)
}

/// All combinations, in order.
fn all_of(alloc: Global, expansion: &Expansion) -> Result<Vec<Combo>, Refusal>
    ensures { Gives (λ v. v.items) result (Ok expansion.now) }
{
    let mut combos = Vec::with_capacity(alloc, expansion.len())?;
    for leg in 0..expansion.len() {
        combos.push(expansion.combination(alloc, leg)?)?;
    }
    Ok(combos)
}

/// The combinations of a matrix with this number of choices.
fn legs<'a>(alloc: Global, matrix: &'a Matrix, choices: usize) -> Result<Expansion<'a>, Refusal>
    requires { choices ≡ choice_count matrix.now.variables }
    ensures { Gives (λ e. e) result (legs_or_refusal (combinations matrix.entry.now)) }
{
    let variables = matrix.variables();
    let originals = count_originals(variables, choices);
    let axes = number_variables(alloc, variables, originals)?;
    let kept = kept_numbers(alloc, matrix, axes.as_slice(), originals)?;
    kept_and_added(alloc, matrix, axes, kept)
}

/// The numbers of the originals that no exclude object removes.
fn kept_numbers<'a>(
    alloc: Global,
    matrix: &'a Matrix,
    axes: &[Axis<'a>],
    originals: usize,
) -> Result<Vec<usize>, Refusal>
    requires axes { axes.now ≡ numbered_axes matrix.now.variables }
    requires in_order { IsTrue (names_rise axes.now) }
    requires originals { originals ≡ original_count matrix.now.variables }
    ensures { Gives (λ v. v.items) result (kept_or_refusal (kept_of matrix.now)) }
{
    let excludes = patterns(alloc, axes, matrix.exclude())?;
    kept_originals(alloc, originals, excludes.as_slice())
}

/// The combinations of the kept originals, followed by the new ones.
fn kept_and_added<'a>(
    alloc: Global,
    matrix: &'a Matrix,
    axes: Vec<Axis<'a>>,
    kept: Vec<usize>,
) -> Result<Expansion<'a>, Refusal>
    requires axes { axes.items ≡ numbered_axes matrix.now.variables }
    requires in_order { IsTrue (names_rise axes.items) }
    requires kept { kept.items ≡ kept_of matrix.now }
    ensures { Gives (λ e. e) result (legs_or_refusal (combinations matrix.entry.now)) }
{
    let includes = patterns(alloc, axes.as_slice(), matrix.include())?;
    let added = new_combinations(alloc, includes.as_slice(), kept.as_slice())?;
    if !is_leg_count(kept.len(), added.len()) {
        return Err(Refusal::Numbered(Code::LegCount));
    }
    let entries = entries(alloc, 0, matrix.include())?;
    Ok(Expansion {
        axes,
        includes,
        entries,
        kept,
        added,
    })
}

/// The number of originals: as many as choices, but none without variables.
fn count_originals(variables: &[Variable], choices: usize) -> usize
    requires { choices ≡ choice_count variables.now }
    ensures { result ≡ original_count variables.now }
{
    if variables.is_empty() { 0 } else { choices }
}

/// The numbered variables. Without originals there are none.
fn number_variables<'a>(
    alloc: Global,
    variables: &'a [Variable],
    originals: usize,
) -> Result<Vec<Axis<'a>>, Refusal>
    requires in_order { IsTrue (names_rise variables.now) }
    requires all { originals ≡ original_count variables.now }
    ensures axes { Gives (λ v. v.items) result (Ok (numbered_axes variables.entry.now)) }
    ensures in_order { IfOk result (λ v. IsTrue (names_rise v.items)) }
{
    if originals == 0 {
        Ok(Vec::new(alloc))
    } else {
        axes(alloc, variables, originals)
    }
}

/// Whether the total is from 1 to 256.
fn is_leg_count(kept: usize, added: usize) -> bool
    ensures { IsTrue result ↔ ((0 < kept + added) × (kept + added ≤ max_legs)) }
{
    (kept > 0 || added > 0) && kept <= MAX_LEGS && added <= MAX_LEGS - kept
}

/// Whether an include object agrees with at least one of the originals.
fn agrees_with_some(include: &Pattern, kept: &[usize]) -> bool
    ensures { result ≡ list_any (λ number. pattern_agrees number include.now) kept.now }
{
    kept.iter().any(|number| include.agrees(*number))
}

/// The include objects that agree with none of the originals.
fn new_combinations<'a>(
    alloc: Global,
    includes: &[Pattern<'a>],
    kept: &[usize],
) -> Result<Vec<&'a Combo>, Refusal>
    ensures { Gives (λ v. map (λ c. c.now) v.items) result (Ok (new_objects includes.now kept.now)) }
{
    let mut added = Vec::new(alloc);
    for include in includes {
        if !agrees_with_some(include, kept) {
            added.push(include.object())?;
        }
    }
    Ok(added)
}

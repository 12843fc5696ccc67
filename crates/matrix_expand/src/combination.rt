ghost use Rattle.std.specs.Prelude.{◌≡◌, true, false, None, Ok, slice_index_or, IsTrue};
ghost use Rattle.std.specs.Option.{option_copied};
ghost use Rattle.wf_value.specs.Gives.{Gives};
ghost use Rattle.definitions.specs.Rising.{names_rise};
ghost use Rattle.matrix_expand.specs.inner.Entries.{object_entries, names_ascend, pairs_of, flagged, firsts_after, is_last, flags_of, final_from};
ghost use Rattle.matrix_expand.specs.inner.Numbered.{original_at};

use crate::axis::Axis;
use crate::entry::{Entry, merge};
use crate::pattern::Pattern;
use std::alloc::Global;
use wf_value::{Chars, Combo, Refusal, Same};

/// For each include object, whether it agrees with the original with this number. The last flag is set and stands for the original
/// itself.
fn flags(alloc: Global, patterns: &[Pattern], number: usize) -> Result<Vec<bool>, Refusal>
    ensures { Gives (λ v. v.items) result (Ok (flags_of patterns.now number)) }
{
    let mut flags = Vec::new(alloc);
    for pattern in patterns {
        flags.push(pattern.agrees(number))?;
    }
    flags.push(true)?;
    Ok(flags)
}

/// The pairs of the original with this number.
fn original_entries<'a>(
    alloc: Global,
    axes: &[Axis<'a>],
    number: usize,
    index: usize,
) -> Result<Vec<Entry<'a>>, Refusal>
    ensures { Gives (λ v. v.items) result (Ok (object_entries index (original_at axes.now number))) }
{
    let mut entries = Vec::with_capacity(alloc, axes.len())?;
    for axis in axes {
        entries.push(Entry::new(index, axis.name(), axis.choice().value(number)))?;
    }
    Ok(entries)
}

/// Whether the flag at an index is set; false past the end.
fn has_flag(flags: &[bool], index: usize) -> bool
    ensures { result ≡ slice_index_or flags.now index false }
{
    if index < flags.len() {
        flags[index]
    } else {
        false
    }
}

/// Whether the last added name is this one.
fn is_named(last: Option<&Chars>, name: &Chars) -> bool
    ensures { result ≡ is_last (option_copied last.entry) name.now }
{
    match last {
        Some(last) => last.same(name),
        None => false,
    }
}

/// The first pair of each name among the flagged objects. The entries are in the order of their names.
fn firsts<'a>(alloc: Global, entries: &[Entry<'a>], flags: &[bool]) -> Result<Combo, Refusal>
    requires { IsTrue (names_ascend (pairs_of entries.now)) }
    ensures { Gives (λ c. c) result (Ok (firsts_after None (flagged flags.now entries.now))) }
{
    let mut combo = Combo::new(alloc);
    let mut last = None;
    for entry in entries {
        if has_flag(flags, entry.object()) && !is_named(last, entry.name()) {
            combo.push_copy(alloc, entry.name(), entry.value())?;
            last = Some(entry.name());
        }
    }
    Ok(combo)
}

/// The final combination of the original with this number.
pub fn final_combination(
    alloc: Global,
    axes: &[Axis],
    patterns: &[Pattern],
    entries: &[Entry],
    number: usize,
) -> Result<Combo, Refusal>
    requires entries { IsTrue (names_ascend (pairs_of entries.now)) }
    requires axes { IsTrue (names_rise axes.now) }
    ensures { Gives (λ c. c) result (Ok (final_from axes.now patterns.now entries.now number)) }
{
    let flags = flags(alloc, patterns, number)?;
    let original = original_entries(alloc, axes, number, patterns.len())?;
    let all = merge(alloc, entries, original.as_slice())?;
    firsts(alloc, all.as_slice(), flags.as_slice())
}

ghost use Rattle.std.specs.Prelude.{◌≡◌, ◌+◌, min};
ghost use Rattle.wf_value.specs.Gives.{Gives};
ghost use Rattle.matrix_expand.specs.Combinations.{choice_count};
ghost use Rattle.matrix_expand.specs.inner.Numbered.{pattern_removes, kept_numbers, kept_or_refusal};
ghost use Rattle.std.specs.List.{list_any};

use crate::pattern::Pattern;
use std::alloc::Global;
use wf_value::{Code, Refusal, Variable};

/// The maximum number of choices of one value per variable.
pub const MAX_CHOICES: usize = 4096;

/// The maximum number of combinations.
pub const MAX_LEGS: usize = 256;

/// The number of choices of one value per variable, or 4,097 if there are more.
pub fn capped_choices(variables: &[Variable]) -> usize
    ensures { result ≡ min 4097 (choice_count variables.now) }
{
    let mut count = 1;
    for variable in variables {
        count = (count * variable.values().len().min(MAX_CHOICES + 1)).min(MAX_CHOICES + 1);
    }
    count
}

/// Whether an exclude object removes the original with this number.
fn is_removed(excludes: &[Pattern], number: usize) -> bool
    ensures { result ≡ list_any (pattern_removes number) excludes.now }
{
    excludes.iter().any(|exclude| exclude.removes(number))
}

/// The numbers of the originals that no exclude object removes. The `Err` is 22 if there are more than 256.
pub fn kept_originals(
    alloc: Global,
    count: usize,
    excludes: &[Pattern],
) -> Result<Vec<usize>, Refusal>
    ensures { Gives (λ v. v.items) result (kept_or_refusal (kept_numbers excludes.now count)) }
{
    let mut kept = Vec::new(alloc);
    for number in 0..count {
        if !is_removed(excludes, number) {
            if kept.len() == MAX_LEGS {
                return Err(Refusal::Numbered(Code::LegCount));
            }
            kept.push(number)?;
        }
    }
    Ok(kept)
}

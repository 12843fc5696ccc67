//! Pages of long lists.

ghost use Rattle.std.specs.Prelude.{◌≡◌, ◌++◌, ◌+◌, ◌-◌, ◌<◌, ◌≤◌, ◌^◌, IfOk, OnOk, Ok, string_bytes};
ghost use Rattle.wf_value.specs.Gives.{ErrsOnlyByMemory, Gives};
ghost use Rattle.definitions.specs.Limits.{most_looked};
ghost use Rattle.table_views.specs.Pages.{IsPage, page_text, rows_from};

use crate::members::{push_member, push_number};
use crate::texts::listed;
use std::alloc::Global;
use wf_value::{Chars, Refusal};

/// The most indices at which a page looks.
pub const MOST_LOOKED: usize = 10_000;

/// What a page is made of: rows at each index from 0 on.
pub(crate) trait Source {
    ghost use Rattle.std.specs.Prelude.{ℕ, List};

    /// How many indices there are.
    ghost size: { Self → ℕ };

    ghost rows: { Self → ℕ → List (List ℕ) };

    ghost weigh: { Self → ℕ → ℕ };

    /// Adds the rows at an index, and returns their weight.
    fn push_rows(&self, alloc: Global, index: usize, out: &mut Vec<Chars>) -> Result<usize, Refusal>
        requires { index < Self.size self.now }
        ensures err { ErrsOnlyByMemory result }
        ensures rows { OnOk result (out.new.items ≡ out.old.items ++ Self.rows self.now index) }
        ensures weight { IfOk result (λ weight. weight ≡ Self.weigh self.now index) }
        ensures bound { IfOk result (λ weight. weight < 2 ^ 63) };
}

/// The rows of a page, and how many indices were looked at.
#[derive(Drop)]
pub(crate) struct Page {
    pub rows: Vec<Chars>,
    pub count: usize,
}

/// A page from an index on, of a source with `left` more indices: its rows have the weight `full`, unless it ends before.
#[tactic(auto, using(crate::proofs::Paging::rows_more, crate::proofs::Paging::weight_more))]
pub(crate) fn page_of<S: Source>(
    alloc: Global,
    source: &S,
    from: usize,
    left: usize,
    full: usize,
) -> Result<Page, Refusal>
    requires within { from + left ≤ S.size source.now }
    requires size { from + left ≤ usize.MAX }
    requires full { full < 2 ^ 32 }
    ensures err { ErrsOnlyByMemory result }
    ensures rows { IfOk result (λ page. page.rows.items ≡ rows_from (S.rows source.now) from page.count) }
    ensures page { IfOk result (λ page. IsPage (S.weigh source.now) from left full most_looked page.count) }
{
    let most = left.min(MOST_LOOKED);
    let mut rows = Vec::new(alloc);
    let mut weight: usize = 0;
    for count in 0..most {
        if weight >= full {
            return Ok(Page { rows, count });
        }
        let more = source.push_rows(alloc, from + count, &mut rows)?;
        weight += more;
    }
    Ok(Page { rows, count: most })
}

/// The text of a page: its rows under their name, at how many indices it looked, and where to go on.
pub(crate) fn page_text(
    alloc: Global,
    name: &str,
    rows: &[Chars],
    looked: usize,
    cursor: &str,
    value: &str,
) -> Result<String, Refusal>
    ensures { Gives string_bytes result (Ok (page_text name.now rows.now looked cursor.now value.now)) }
{
    let rows = listed(alloc, rows)?;
    let mut text = format!(in alloc; "{{\"{name}\":{rows}")?;
    push_number(&mut text, "looked", looked as u64)?;
    push_member(&mut text, cursor, value)?;
    text.push_str("}\n")?;
    Ok(text)
}

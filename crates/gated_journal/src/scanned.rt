ghost use Rattle.std.specs.Prelude.{ℕ, List, IfSome, IsNone};
ghost use Rattle.definitions.specs.Area.{Head, ReadsNothing};
ghost use Rattle.gated_journal.specs.CutOff.{HasNoHead, EncodesNothing};
ghost use Rattle.gated_journal.specs.Scanned.{HasPrefix, IsScanned};
ghost use Rattle.gated_journal.specs.ScannedHead.{head_of};

use crate::append::OPEN;
use crate::head::{AreaHead, head_at};
use crate::records::after_records;

/// What an area reads as. Nothing is copied: text and records are slices of the area's bytes.
#[derive(Clone, Copy)]
pub struct ScannedArea<'a> {
    pub head: AreaHead<'a>,
    /// The records in a row, each with its open gate. `record_at` splits them.
    pub records: &'a [u8],
    /// The offset of the first closed gate, where the next record goes.
    pub gate: u64,
}

/// Parses the bytes of an area. It returns `None` if the area's gate is closed, a text or a body passes its end, or no byte is left for
/// the next gate.
///
/// It takes no memory and passes over the bytes once.
/// Promise (Areas and records): A scan gives header, records and the offset of the first closed gate, and nothing exactly where the area reads
///   as nothing, with the reason; without memory
/// By: `gated_journal::scan`, `some`, `none`, `cut`; `gated_journal::laws::an_area_that_is_cut_off_reads_as_nothing`
pub fn scan(area: &[u8]) -> Option<ScannedArea<'_>>
    ensures some { IfSome result (λ found. IsScanned area.now (head_of found.head) found.records.now found.gate) }
    ensures none { IsNone result → ReadsNothing area.now }
    ensures cut { IsNone result → EncodesNothing area.now }
{
    let (head, suffix) = area_header(area)?;
    let end = after_records(suffix)?;
    Some(ScannedArea {
        head,
        records: &suffix[..suffix.len() - end.len()],
        gate: (area.len() - end.len()) as u64,
    })
}

/// The head after an open gate, and the bytes after it.
fn area_header(area: &[u8]) -> Option<(AreaHead<'_>, &[u8])>
    ensures some { IfSome result (λ found. HasPrefix area.now (head_of found.0) found.1.now) }
    ensures none { IsNone result → (head : Head) (rest : List ℕ) → HasPrefix area.now head rest → ⊥ }
    ensures cut { IsNone result → HasNoHead area.now }
{
    match area {
        [OPEN, suffix @ ..] => head_at(suffix),
        _ => None,
    }
}

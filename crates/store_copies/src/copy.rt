ghost use Rattle.std.specs.Prelude.{◌≡◌, ◌+◌, ◌<◌, ◌≤◌, ◌∷◌, IfOk, IfSome, OnOk, is_some, length, true};
ghost use Rattle.definitions.specs.Area.{head_bytes};
ghost use Rattle.table_model.specs.Sound.{IsSound};
ghost use Rattle.table_text.specs.Tables.{whole_table};
ghost use Rattle.wf_value.specs.Gives.{ErrsOnlyByMemory};
ghost use Rattle.act_store.specs.Images.{IsAreaLength, RecoversTo};
ghost use Rattle.act_store.specs.Layouts.{EncodesTable};
ghost use Rattle.act_store.specs.declared.layout.Layout.TheVariants as layouts;
ghost use Rattle.store_copies.specs.Copies.{copy_bytes, copy_head, file_of, fits};

use act_store::{MAX_AREA, MIN_AREA};
use gated_journal::OPEN;
use gated_journal::lengths::{GATE, HEAD};
use run_table::Table;
use std::alloc::Global;
use table_text::{table_length, write_table};
use view_sessions::FileBytes;
use wf_value::Refusal;

/// The version of the third layout.
const VERSION: u8 = 4;

/// The generation of the active area.
const GENERATION: u64 = 1;

/// Whether the text of a table fits an area of this length, with a head, its own gate and one for the first record.
pub(crate) fn fits(area: u64, table: &Table) -> bool
    ensures sound { IsSound table.now }
    ensures exact { result ≡ fits area table.now }
    ensures few { result ≡ true → length table.now.runners ≤ 4294967295 }
    ensures area { result ≡ true → IsAreaLength area }
    ensures room { result ≡ true → length (whole_table.encoding table.now) + 19 ≤ area }
{
    if table.runners().len() > u32::MAX as usize {
        return false;
    }
    area >= MIN_AREA && area <= MAX_AREA && table_length(table) <= area - (GATE + HEAD + GATE)
}

/// The bytes of an area with this gate, up to the end of the table's text.
#[tactic(auto, using(crate::proofs::Encoding::table_encodes))]
pub(crate) fn front(alloc: Global, gate: u8, table: &Table) -> Result<Vec<u8>, Refusal>
    requires few { length table.now.runners ≤ 4294967295 }
    requires sound { IsSound table.now }
    ensures err { ErrsOnlyByMemory result }
    ensures bytes { IfOk result (λ bytes. bytes.items ≡ gate ∷ head_bytes (copy_head (whole_table.encoding table.now))) }
    ensures encodes { OnOk result (EncodesTable layouts.Third table.now (whole_table.encoding table.now)) }
{
    let text = table_length(table);
    let mut bytes = vec![in alloc; gate; 1]?;
    bytes.push(VERSION)?;
    bytes.extend_from_slice(&GENERATION.to_be_bytes())?;
    bytes.extend_from_slice(&text.to_be_bytes())?;
    write_table(&mut bytes, table)?;
    Ok(bytes)
}

/// A store file of two areas of this length, of which the first has the table, in the third layout, and no record. `None` if the text of
/// the table does not fit, or no store has areas of this length.
/// Promise (Views of a service): A copy of a store is two areas long, has the table in the third layout and no record, and recovers to the
///   table that it was made of
/// By: `store_copies::copy_of`, `bytes`, `recovers`, `size` (`copy_bytes`, `file_of`)
/// Promise (Views of a service): There is a copy exactly if the text of the table fits an area, and a store has areas of this length
/// By: `store_copies::copy_of`, `none` (`fits`)
pub fn copy_of(alloc: Global, area: u64, table: &Table) -> Result<Option<FileBytes>, Refusal>
    ensures err { ErrsOnlyByMemory result }
    ensures recovers { IfOk result (λ found. IfSome found (λ copy. RecoversTo table.now (file_of copy))) }
    ensures none { IfOk result (λ found. is_some found ≡ fits area table.now) }
    ensures bytes { IfOk result (λ found. IfSome found (λ copy. copy.bytes.items ≡ copy_bytes table.now)) }
    ensures size { IfOk result (λ found. IfSome found (λ copy. length (file_of copy) ≡ area + area)) }
{
    if !fits(area, table) {
        return Ok(None);
    }
    let bytes = front(alloc, OPEN, table)?;
    let zeros = area + area - bytes.len() as u64;
    Ok(Some(FileBytes { bytes, zeros }))
}

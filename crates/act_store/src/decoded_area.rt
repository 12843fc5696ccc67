ghost use Rattle.std.specs.Prelude.{◌≡◌, ◌<◌, IfErr, IfOk};
ghost use Rattle.wf_value.specs.Gives.{no_memory};
ghost use Rattle.act_store.specs.inner.Encoded.{IsEncoded, IsTextOf};

use crate::layout::Layout;
use crate::replay::replay;
use gated_journal::scan;
use run_table::Table;
use std::alloc::Global;
use wf_value::Refusal;

/// What an area encodes: the generation of its head, its layout, the offset of its first closed gate, and its table.
#[derive(Drop)]
pub struct DecodedArea {
    pub generation: u64,
    pub used: u64,
    pub layout: Layout,
    pub table: Table,
}

/// What the bytes of an area encode, or `None` if they encode no table.
pub(crate) fn encoded_in(alloc: Global, area: &[u8]) -> Result<Option<DecodedArea>, Refusal>
    ensures encoded { IfOk result (λ found. IsEncoded area.now found) }
    ensures refused { IfErr result (λ e. e ≡ no_memory) }
{
    let Some(found) = scan(area) else {
        return Ok(None);
    };
    let Some(layout) = Layout::of_byte(found.head.version) else {
        return Ok(None);
    };
    let Some(first) = table_in(alloc, layout, found.head.text)? else {
        return Ok(None);
    };
    match replay(alloc, layout, first, found.records)? {
        Some(table) => Ok(Some(DecodedArea {
            generation: found.head.generation,
            used: found.gate,
            layout,
            table,
        })),
        None => Ok(None),
    }
}

/// The table that a text encodes in a layout, or `None` if it encodes none. Bytes after a table make the text invalid.
#[tactic(auto, using(crate::proofs::TextOfTable::whole_text, crate::proofs::TextOfTable::longer_text, crate::proofs::TextOfTable::no_text))]
fn table_in(alloc: Global, layout: Layout, text: &[u8]) -> Result<Option<Table>, Refusal>
    ensures encoded { IfOk result (λ found. IsTextOf layout text.now found) }
    ensures refused { IfErr result (λ e. e ≡ no_memory) }
{
    let Some((table, rest)) = layout.read_table(alloc, text)? else {
        return Ok(None);
    };
    if rest.len() > 0 {
        return Ok(None);
    }
    Ok(Some(table))
}

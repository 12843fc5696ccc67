//! What is stored of forgotten runs, at the front of bytes.

ghost use Rattle.std.specs.Prelude.{◌≡◌, ◌<◌, ◌^◌, IfOk, length};
ghost use Rattle.std.specs.Str.{is_utf8};
ghost use Rattle.command_encodings.specs.inner.Reading.{Finds, kept};
ghost use Rattle.command_encodings.specs.inner.ReadingCommands.{small_text_at};
ghost use Rattle.definitions.specs.SmallText.{is_delivery_byte};
ghost use Rattle.table_text.specs.Tables.{deliveries_kept, is_last_id};
ghost use Rattle.table_text.specs.inner.ReadingTables.{count_at, forgotten_at, kept_of_forgotten_at, last_id_at, name_at};

use crate::list_at::{ReadAt, list_at};
use command_encodings::{DecodeError, number_at, small_text_at, text_at, word_at};
use forgotten_runs::{ForgottenParts, WorkflowCount};
use run_plan::{DeliveryForm, DeliveryId, LAST_NUMBER, Number};
use std::alloc::Global;
use wf_value::{Chars, Sequence};

/// Of how many forgotten runs the deliveries are kept.
const MAX_KEPT_DELIVERIES: u32 = 10_000;

/// The text, if it is UTF-8.
fn name_of(alloc: Global, text: &[u8]) -> Result<Chars, DecodeError>
    ensures gives { Finds (λ name. name) result (kept is_utf8 text.now) }
    ensures same { IfOk result (λ name. name ≡ text.now) }
{
    let Ok(text) = str::from_utf8(text) else {
        return Err(DecodeError::NoEncoding);
    };
    match Chars::from_str(alloc, text) {
        Ok(name) => Ok(name),
        Err(_) => Err(DecodeError::NoMemory),
    }
}

/// The repository or the path at the front of the bytes, and the bytes after it.
#[tactic(auto, unfolding(crate::specs::inner::ReadingTables::name_at))]
fn name_at(alloc: Global, bytes: &[u8]) -> Result<(Chars, &[u8]), DecodeError>
    ensures gives { Finds (λ f. (f.0, f.1.now)) result (name_at bytes.now) }
    ensures short { IfOk result (λ f. length f.0 < 2 ^ 32) }
{
    let (text, rest) = text_at(bytes)?;
    let name = name_of(alloc, text)?;
    Ok((name, rest))
}

impl ReadAt for WorkflowCount {
    ghost prefix_at = { count_at };

    #[tactic(auto, unfolding(crate::specs::inner::ReadingTables::count_at))]
    fn read_at(alloc: Global, bytes: &[u8]) -> Result<(WorkflowCount, &[u8]), DecodeError> {
        let (repo, rest) = name_at(alloc, bytes)?;
        let (path, rest) = name_at(alloc, rest)?;
        let (runs, rest) = number_at(rest)?;
        Ok((WorkflowCount::new(repo, path, Number::new(runs)), rest))
    }
}

impl ReadAt for DeliveryId {
    ghost prefix_at = { small_text_at is_delivery_byte };

    fn read_at(alloc: Global, bytes: &[u8]) -> Result<(DeliveryId, &[u8]), DecodeError> {
        small_text_at::<DeliveryForm>(alloc, bytes)
    }
}

/// The value, if a run may have it as its id, or it is 0.
fn last_id_of(value: u32) -> Result<u32, DecodeError>
    ensures { Finds (λ n. n) result (kept is_last_id value) }
{
    if value <= LAST_NUMBER {
        return Ok(value);
    }
    Err(DecodeError::NoEncoding)
}

/// The last id that is forgotten, and the bytes after it.
#[tactic(auto, unfolding(crate::specs::inner::ReadingTables::last_id_at))]
fn last_id_at(bytes: &[u8]) -> Result<(u32, &[u8]), DecodeError>
    ensures { Finds (λ f. (f.0, f.1.now)) result (last_id_at bytes.now) }
{
    let (value, rest) = word_at(bytes)?;
    let id = last_id_of(value)?;
    Ok((id, rest))
}

/// Of how many of the last forgotten runs the deliveries are kept, where so many are forgotten.
fn deliveries_kept(forgotten: u32) -> usize
    ensures { result ≡ deliveries_kept forgotten }
{
    forgotten.min(MAX_KEPT_DELIVERIES) as usize
}

/// The counts of workflows and the kept deliveries, where so many runs are forgotten, and the bytes after them.
#[tactic(auto, unfolding(crate::specs::inner::ReadingTables::kept_of_forgotten_at))]
fn kept_of_forgotten_at(
    alloc: Global,
    forgotten: u32,
    bytes: &[u8],
) -> Result<(Vec<WorkflowCount>, Vec<DeliveryId>, &[u8]), DecodeError>
    ensures { Finds (λ f. ((f.0.items, f.1.items), f.2.now)) result (kept_of_forgotten_at forgotten bytes.now) }
{
    let (count, rest) = word_at(bytes)?;
    let (counts, rest) = list_at(alloc, count as usize, rest)?;
    let (deliveries, rest) = list_at(alloc, deliveries_kept(forgotten), rest)?;
    Ok((counts, deliveries, rest))
}

/// What is stored of forgotten runs, and the bytes after it.
#[tactic(auto, unfolding(crate::specs::inner::ReadingTables::forgotten_at))]
pub(crate) fn forgotten_at(
    alloc: Global,
    bytes: &[u8],
) -> Result<(ForgottenParts, &[u8]), DecodeError>
    ensures { Finds (λ f. (f.0, f.1.now)) result (forgotten_at bytes.now) }
{
    let (through, rest) = last_id_at(bytes)?;
    let (counts, deliveries, rest) = kept_of_forgotten_at(alloc, through, rest)?;
    let parts = ForgottenParts {
        through,
        counts: Sequence::new(counts),
        deliveries: Sequence::new(deliveries),
    };
    Ok((parts, rest))
}

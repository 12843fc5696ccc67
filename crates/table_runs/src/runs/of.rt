//! Builds the runs of a table from the parts in which they are stored, or from the other runs once the first ones are forgotten, and the book of
//! groups from the table.

ghost use Rattle.std.specs.Prelude.{◌≡◌, ◌+◌, ◌≤◌, ◌<◌, ℕ, [], IfOk, IfSome, List, MatchOption, None, Ok, Some, drop, length, option_and_then, true};
ghost use Rattle.definitions.specs.Limits.{last_number, max_runs};
ghost use Rattle.wf_value.specs.Gives.{ErrsOnlyByMemory, Gives};
ghost use Rattle.group_name.specs.Group.{Group as GroupInWords};
ghost use Rattle.group_book.specs.Books.{slot_in};
ghost use Rattle.run_marks.specs.Marked.{Covers, is_marked};
ghost use Rattle.table_model.specs.AsPlanned.{AreAsPlanned};
ghost use Rattle.table_model.specs.Groups.{group_at, HasOneEach};
ghost use Rattle.table_model.specs.GroupLaw.{same_holder};
ghost use Rattle.table_model.specs.Parts.{AreRunsOf};
ghost use Rattle.table_model.specs.Runs.{RunState};
ghost use Rattle.table_model.specs.declared.holder.Holder.{Holder as HolderInWords};
ghost use Rattle.table_bindings.specs.GroupKeys.{ticket_in};
ghost use Rattle.table_runs.specs.inner.RowsKept.{holder_key_at, key_at};
ghost use Rattle.table_runs.specs.declared.runs.of.GroupSlot.TheVariants.{InProgress};
ghost use Rattle.table_runs.specs.inner.Seating.{AreSeatedOrTaken, AreStored, BeginsIf, HasSeats, HaveKeys, SitsDown, in_job, in_slot, is_of, legs_of_run};

use crate::rows::Rows;
use crate::runs::Runs;
use crate::runs::changes::begin_in_group;
use forgotten_runs::ForgottenRuns;
use group_book::Book;
use group_name::GroupKey;
use run_marks::RunBitmap;
use std::alloc::Global;
use table_model::{Holder, LegSite, MAX_RUNS, Run, RunParts};
use wf_value::{Refusal, TryCopy};

/// One of the two slots of a group.
#[derive(Clone, Copy)]
enum GroupSlot {
    InProgress,
    Pending,
}

impl Runs {
    /// The runs of these parts, after the forgotten ones. `None` if there are more than 100,000, if a run does not have the jobs and legs of its
    /// plan, or if a group has two holders in progress or two pending ones.
    pub fn of_parts(
        alloc: Global,
        forgotten: &ForgottenRuns,
        parts: &[RunParts],
    ) -> Result<Option<Self>, Refusal>
        requires ids { forgotten.now.through + length parts.now ≤ last_number }
        ensures err { ErrsOnlyByMemory result }
        ensures of { IfOk result (λ found. MatchOption found
            ((runs : List RunState) → AreRunsOf forgotten.now parts.now runs → AreAsPlanned runs → HasOneEach runs → ⊥)
            (λ runs. AreRunsOf forgotten.now parts.now runs × AreAsPlanned runs × HasOneEach runs)) }
    {
        if parts.len() > MAX_RUNS as usize {
            return Ok(None);
        }
        let mut book = Book::new(alloc);
        let Some(rows) = rows_of(alloc, forgotten, parts, &mut book)? else {
            return Ok(None);
        };
        Runs::of_rows(alloc, rows, book)
    }

    /// The runs without the first `k`, which are forgotten. What is kept of the others is made anew, so that on an `Err` these runs are there
    /// as before.
    pub fn without_first(&self, alloc: Global, k: usize) -> Result<Self, Refusal>
        requires within { k ≤ length self.now }
        requires one { HasOneEach (drop k self.now) }
        ensures { Gives (λ runs. runs) result (Ok (drop k self.now)) }
    {
        let mut book = Book::new(alloc);
        let rows = rows_again(alloc, &self.as_slice()[k..], &mut book)?;
        match Runs::of_rows(alloc, rows, book)? {
            Some(runs) => Ok(runs),
            None => unreachable!(),
        }
    }

    /// The runs of these rows, with the holders of groups that they have. `None` if a group has two holders in progress or two pending ones.
    fn of_rows(alloc: Global, rows: Rows, book: Book<Holder>) -> Result<Option<Self>, Refusal>
        requires empty { book.entries ≡ [] }
        requires stored { AreStored rows book }
        ensures err { ErrsOnlyByMemory result }
        ensures of { IfOk result (λ found. MatchOption found (HasOneEach rows.runs → ⊥)
            (λ runs. (runs ≡ rows.runs) × HasOneEach rows.runs)) }
    {
        let mut rows = rows;
        let mut book = book;
        if !seat_all(&mut rows, &mut book, GroupSlot::InProgress) {
            return Ok(None);
        }
        if !seat_all(&mut rows, &mut book, GroupSlot::Pending) {
            return Ok(None);
        }
        let due = all_marked(alloc, rows.runs.len())?;
        Ok(Some(Runs {
            rows,
            book,
            due,
            tries: 0,
        }))
    }
}

/// The same runs with what is kept of each. Nobody has arrived in a group yet.
fn rows_again(alloc: Global, runs: &[Run], book: &mut Book<Holder>) -> Result<Rows, Refusal>
    requires few { length runs.now ≤ max_runs }
    requires empty { book.old.entries ≡ [] }
    ensures err { ErrsOnlyByMemory result }
    ensures entries { book.new.entries ≡ [] }
    ensures runs { IfOk result (λ rows. rows.runs ≡ runs.now) }
    ensures stored { IfOk result (λ rows. AreStored rows book.new) }
{
    let mut rows = Rows::new(alloc);
    for r in 0..runs.len() {
        let run = runs[r].copy(alloc)?;
        let coming = rows.coming(run.prepared())?;
        rows.add(alloc, run, coming, book)?;
    }
    Ok(rows)
}

/// The runs of parts with what is kept of each. Nobody has arrived in a group yet.
fn rows_of(
    alloc: Global,
    forgotten: &ForgottenRuns,
    parts: &[RunParts],
    book: &mut Book<Holder>,
) -> Result<Option<Rows>, Refusal>
    requires few { length parts.now ≤ max_runs }
    requires ids { forgotten.now.through + length parts.now ≤ last_number }
    requires empty { book.old.entries ≡ [] }
    ensures err { ErrsOnlyByMemory result }
    ensures entries { book.new.entries ≡ [] }
    ensures runs { IfOk result (λ found. IfSome found (λ rows. AreRunsOf forgotten.now parts.now rows.runs)) }
    ensures planned { IfOk result (λ found. MatchOption found
        ((runs : List RunState) → AreRunsOf forgotten.now parts.now runs → AreAsPlanned runs → ⊥) (λ rows. AreAsPlanned rows.runs)) }
    ensures stored { IfOk result (λ found. IfSome found (λ rows. AreStored rows book.new)) }
{
    let mut rows = Rows::new(alloc);
    for r in 0..parts.len() {
        let part = &parts[r];
        let coming = rows.coming(&part.prepared)?;
        let id = forgotten.next_id(r);
        let number = forgotten.next_number(&part.prepared, coming.number);
        let Some(run) = Run::of_parts(alloc, id, number, part)? else {
            return Ok(None);
        };
        rows.add(alloc, run, coming, book)?;
    }
    Ok(Some(rows))
}

fn all_marked(alloc: Global, count: usize) -> Result<RunBitmap, Refusal>
    ensures err { ErrsOnlyByMemory result }
    ensures covers { IfOk result (λ marks. Covers marks count) }
    ensures marks { IfOk result (λ marks. (i : ℕ) → i < count → is_marked marks i ≡ true) }
{
    let mut marks = RunBitmap::new(alloc);
    marks.reserve_up_to(count)?;
    for r in 0..count {
        marks.mark(r);
    }
    Ok(marks)
}

// ---- the slots of groups. Each function returns whether no slot was taken already.

fn seat_all(rows: &mut Rows, book: &mut Book<Holder>, slot: GroupSlot) -> bool
    requires seats { HasSeats slot rows.old.runs rows.old.bindings book.old }
    requires keys { HaveKeys slot (λ h. true) rows.old.runs rows.old.bindings }
    ensures runs { rows.new.runs ≡ rows.old.runs }
    ensures seats { HasSeats slot rows.new.runs rows.new.bindings book.new }
    ensures taken { AreSeatedOrTaken result slot (λ h. true) rows.old.runs rows.old.bindings rows.new.bindings book.old.entries book.new.entries }
{
    for r in 0..rows.runs.len() {
        if !seat(rows, book, slot, &Holder::Run(r)) {
            return false;
        }
        if !seat_jobs(rows, book, slot, r) {
            return false;
        }
    }
    true
}

fn seat_jobs(rows: &mut Rows, book: &mut Book<Holder>, slot: GroupSlot, r: usize) -> bool
    requires seats { HasSeats slot rows.old.runs rows.old.bindings book.old }
    requires keys { HaveKeys slot (legs_of_run r) rows.old.runs rows.old.bindings }
    ensures runs { rows.new.runs ≡ rows.old.runs }
    ensures seats { HasSeats slot rows.new.runs rows.new.bindings book.new }
    ensures taken { AreSeatedOrTaken result slot (legs_of_run r) rows.old.runs rows.old.bindings rows.new.bindings book.old.entries book.new.entries }
{
    for j in 0..rows.job_count(r) {
        if !seat_legs(rows, book, slot, r, j) {
            return false;
        }
    }
    true
}

fn seat_legs(rows: &mut Rows, book: &mut Book<Holder>, slot: GroupSlot, r: usize, j: usize) -> bool
    requires seats { HasSeats slot rows.old.runs rows.old.bindings book.old }
    requires keys { HaveKeys slot (in_job r j) rows.old.runs rows.old.bindings }
    ensures runs { rows.new.runs ≡ rows.old.runs }
    ensures seats { HasSeats slot rows.new.runs rows.new.bindings book.new }
    ensures taken { AreSeatedOrTaken result slot (in_job r j) rows.old.runs rows.old.bindings rows.new.bindings book.old.entries book.new.entries }
{
    for l in 0..rows.leg_count(r, j) {
        if !seat(rows, book, slot, &Holder::Leg(LegSite::new(r, j, l))) {
            return false;
        }
    }
    true
}

/// Enters a holder in the book if it has the slot.
fn seat(rows: &mut Rows, book: &mut Book<Holder>, slot: GroupSlot, holder: &Holder) -> bool
    requires seats { HasSeats slot rows.old.runs rows.old.bindings book.old }
    requires keys { HaveKeys slot (λ h. same_holder h holder.now) rows.old.runs rows.old.bindings }
    ensures runs { rows.new.runs ≡ rows.old.runs }
    ensures seats { HasSeats slot rows.new.runs rows.new.bindings book.new }
    ensures taken { AreSeatedOrTaken result slot (λ h. same_holder h holder.now) rows.old.runs rows.old.bindings rows.new.bindings book.old.entries book.new.entries }
{
    if !is_of(rows, slot, holder) {
        return true;
    }
    let Some(group) = rows.key(holder) else {
        return true;
    };
    if in_slot(book, slot, group).is_some() {
        return false;
    }
    arrive(rows, book, slot, holder);
    true
}

/// Whether the holder has this slot of its group, by the table.
fn is_of(rows: &Rows, slot: GroupSlot, holder: &Holder) -> bool
    ensures { result ≡ is_of slot rows.now.runs holder.now }
{
    match slot {
        GroupSlot::InProgress => rows.holds(holder),
        GroupSlot::Pending => rows.waits(holder),
    }
}

/// The holder that has this slot of a group, by the book.
fn in_slot(book: &Book<Holder>, slot: GroupSlot, group: &GroupKey) -> Option<Holder>
    ensures { result ≡ in_slot slot (slot_in book.now.entries group.now) }
{
    match slot {
        GroupSlot::InProgress => book.running(group),
        GroupSlot::Pending => book.pending(group),
    }
}

/// A holder takes its slot, which is free.
fn arrive(rows: &mut Rows, book: &mut Book<Holder>, slot: GroupSlot, holder: &Holder)
    requires seats { HasSeats slot rows.old.runs rows.old.bindings book.old }
    requires has { is_of slot rows.old.runs holder.now ≡ true }
    requires key { option_and_then ticket_in (holder_key_at rows.old.bindings holder.now) ≡ group_at rows.old.runs holder.now }
    requires free { (g : GroupInWords) → group_at rows.old.runs holder.now ≡ Some g → in_slot slot (slot_in book.old.entries g) ≡ None }
    ensures runs { rows.new.runs ≡ rows.old.runs }
    ensures seats { HasSeats slot rows.new.runs rows.new.bindings book.new }
    ensures keys { (h : HolderInWords) → (h ≡ holder.now → ⊥) → holder_key_at rows.new.bindings h ≡ holder_key_at rows.old.bindings h }
    ensures sits { (g : GroupInWords) → group_at rows.old.runs holder.now ≡ Some g
        → SitsDown slot holder.now g book.old.entries book.new.entries }
{
    let Some(group) = rows.spend(holder) else {
        return;
    };
    book.arrive(group, *holder, false);
    begin_at_once(rows, book, slot, holder);
}

/// A holder that is in progress begins as soon as it has arrived.
fn begin_at_once(rows: &Rows, book: &mut Book<Holder>, slot: GroupSlot, holder: &Holder)
    requires { (g : GroupInWords) → slot ≡ InProgress → key_at rows.now.bindings holder.now ≡ Some g
        → (slot_in book.old.entries g).in_progress ≡ None }
    ensures begins { BeginsIf slot (key_at rows.now.bindings holder.now) book.old.entries book.new.entries }
    ensures expected { book.new.expected ≡ book.old.expected }
{
    match slot {
        GroupSlot::InProgress => begin_in_group(rows, book, holder),
        GroupSlot::Pending => {}
    }
}

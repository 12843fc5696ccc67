ghost use Rattle.std.specs.Prelude.{◌≡◌, ◌≤◌, ◌==◌, ◌+◌, ◌-◌, List, ℕ, if◌then◌else◌, length, slice_get, option_copied, None};
ghost use Rattle.act_store.specs.Entries.{IsLegal};
ghost use Rattle.act_store.specs.GroupsOfHistory.{KeepsGroups};
ghost use Rattle.act_store.specs.StoreState.{RecoverToCovered, RecoversToEither, table_of};
ghost use Rattle.act_store.specs.Plain.{room_in};
ghost use Rattle.table_model.specs.Sound.{IsSound};
ghost use Rattle.table_model.specs.Step.{seen};

use crate::begun::Begun;
use crate::entry::Entry;
use crate::layout::Layout;
use crate::pending_batch::PendingBatch;
use act_disk::Disk;
use gated_journal::lengths::{GATE, LENGTH};
use gated_journal::{AreaPair, GateState};
use run_plan::Number;
use run_table::{RunView, Table};
use std::marker::Model;
use std::snapshot::Snapshot;

/// A table with its history in memory, and a disk that recovers to it after a crash at any moment.
///
/// The history is sequential: each reply is the one of its step. Each image that a crash may leave recovers to the covered entries, or to
/// all. After a device fault every call that may be refused is refused with 52, and the store has to be reopened.
#[derive(Drop)]
pub struct Store<D: Disk> {
    pub(crate) disk: D,
    pub(crate) areas: AreaPair,
    /// The state of the other area's gate.
    pub(crate) other: GateState,
    /// The table at the start of the history, as ghost data.
    pub(crate) base: Snapshot<Table>,
    pub(crate) table: Table,
    pub(crate) history: Vec<Entry>,
    /// How many of the first entries are covered.
    pub(crate) covered: usize,
    /// The offset of the gate after which the next record goes.
    pub(crate) used: u64,
    pub(crate) generation: u64,
    /// The layout of the active area.
    pub(crate) layout: Layout,
    /// The commands of the entries that are not covered.
    pub(crate) pending_batch: PendingBatch,
    /// The checkpoint in progress, if any.
    pub(crate) begun: Option<Begun>,
    pub(crate) failed: bool,
}

impl<D: Disk> Model for Store<D> {
    ghost use Rattle.std.specs.Prelude.{◌≡◌, ◌-◌, ◌^◌, ◌<◌, IfSome, false};
    ghost use Rattle.act_store.specs.StoreState.{StoreState};

    ghost Value = { StoreState D };

    ghost use Rattle.act_store.specs.inner.Promise.{IsBegun, IsCounted, IsConsistent};
    ghost use Rattle.act_store.specs.inner.StoreSeen.{as_state};

    ghost view = { as_state };

    ghost invariant = { λ s. IsCounted {D = D} (as_state s) s.table s.pending_batch
        × (s.failed ≡ false → D.Disk.fault_count s.disk < 2 ^ 64 - 1)
        × (D.Disk.honest s.disk → IsConsistent D.Disk.images s.areas.side s.other (as_state s))
        × IfSome s.begun (IsBegun s.base.value s.history.items s.generation s.areas.len s.areas.side s.other
        (D.Disk.honest s.disk) s.failed (D.Disk.seen s.disk)) };
}

impl<D: Disk> Store<D> {
    /// The number of entries in the history.
    /// Promise (The store): A store returns its counts, entries, views, layout, generation and room, and gives its disk back; its present table
    ///   is sound
    /// By: `act_store::Store::{entries, covered, entry, look, table, layout, generation, area, room, into_disk}`; `act_store::Store::look`,
    ///   `sound`
    pub fn entries(&self) -> u64
        ensures { result ≡ length self.now.history }
    {
        self.history.len() as u64
    }

    /// How many of the first entries are covered. The clauses say what every store guarantees.
    /// Promise (The store): Of every store: its history is legal from its base, and each image recovers to the covered entries or to all, after
    ///   a device fault too
    /// By: `act_store::Store::covered`, `legal`, `within`, `promise`
    /// Promise (The store): If a store has not failed, each image recovers to exactly the covered entries
    /// By: `act_store::Store::covered`, `exact`; `act_store::play`, `exact` (`RecoverToCovered`)
    pub fn covered(&self) -> u64
        ensures value { result ≡ self.now.covered }
        ensures within { self.now.covered ≤ length self.now.history }
        ensures sound { IsSound self.now.base }
        ensures legal { IsLegal self.now.base self.now.history }
        ensures groups { KeepsGroups self.now.base self.now.history }
        ensures exact { D.honest self.now.disk → RecoverToCovered D.images self.now }
        ensures promise { D.honest self.now.disk → (c : List ℕ) → D.images self.now.disk c → RecoversToEither self.now c }
    {
        self.covered as u64
    }

    /// The entry at a position of the history, counted from 1.
    pub fn entry(&self, place: u64) -> Option<&Entry>
        ensures { option_copied result ≡ (if place == 0 then None else slice_get self.now.history (place - 1)) }
    {
        if place == 0 {
            return None;
        }
        self.history.get(place as usize - 1)
    }

    /// The length of a disk area in bytes.
    pub fn area(&self) -> u64
        ensures { result ≡ self.now.area }
    {
        self.areas.len
    }

    /// The generation of the active area: 1 in a new store, and one more with each finished checkpoint.
    pub fn generation(&self) -> u64
        ensures { result ≡ self.now.generation }
    {
        self.generation
    }

    /// The layout of the active area.
    pub fn layout(&self) -> Layout
        ensures { result ≡ self.now.layout }
    {
        self.layout
    }

    /// How many bytes the next record's commands and their count may take to fit the area.
    pub fn room(&self) -> u64
        ensures { result ≡ room_in self.now }
    {
        (self.areas.len - self.used).saturating_sub(GATE + LENGTH + GATE)
    }

    /// The view of a run in the current table, or `None` if there is no such run.
    pub fn look(&self, run: Number) -> Option<RunView<'_>>
        ensures seen { result ≡ seen (table_of self.now) run }
        ensures sound { IsSound (table_of self.now) }
    {
        self.table.look(run)
    }

    /// The current table.
    pub fn table(&self) -> &Table
        ensures { result.now ≡ table_of self.now }
    {
        &self.table
    }

    /// The disk, also of a failed store.
    pub fn into_disk(self) -> D
        ensures { result ≡ self.disk }
    {
        let Store { disk, .. } = self;
        disk
    }
}

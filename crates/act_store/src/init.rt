ghost use Rattle.std.specs.Prelude.{◌≡◌, ◌↔◌, ◌<◌, ◌≤◌, ◌+◌, ℕ, List, Err, IfErr, IfOk};
ghost use Rattle.definitions.specs.Limits.{max_area, min_area};
ghost use Rattle.act_disk.specs.Failed.{device_failed};
ghost use Rattle.table_model.specs.Step.{empty};
ghost use Rattle.act_store.specs.Images.{RecoversTo};
ghost use Rattle.act_store.specs.Plain.{disk_not_empty, fresh};

use crate::layout::Layout;
use crate::pending_batch::PendingBatch;
use crate::store::Store;
use act_disk::Disk;
use gated_journal::{AreaPair, GateState, Side, make_areas};
use run_table::Table;
use std::alloc::Global;
use std::snapshot::Snapshot;
use wf_value::{Code, Refusal};

/// The least length of an area, in bytes.
pub const MIN_AREA: u64 = 4_096;

/// The greatest length of an area, in bytes.
pub const MAX_AREA: u64 = 1_073_741_824;

/// The contents of the first area of a new store, with a closed gate: the third layout, generation 1, the length-prefixed text of the
/// empty table, and a closed gate.
const EMPTY_AREA: [u8; 39] = [
    0, 4, 0, 0, 0, 0, 0, 0, 0, 1, 0, 0, 0, 0, 0, 0, 0, 20, 0, 0, 0, 0, 0, 0, 0, 0, 0, 0, 0, 0, 0,
    0, 0, 0, 0, 0, 0, 0, 0,
];

/// The offset of the first record's gate.
const USED: u64 = 38;

impl<D: Disk> Store<D> {
    /// Creates a store of two areas on an empty disk, each `area` bytes long. Its history is empty, and it recovers to the empty table.
    ///
    /// A disk that is not empty is refused with 55. Every refusal returns the disk.
    /// Promise (The store): `init`: each image recovers to the empty table, and the history is empty
    /// By: `act_store::Store::init`, `made`, `recovers`
    /// Refusal (The store and the desk): `act_store::Store::init`
    /// When: 55: exactly if the disk is not empty. 51: only if one call of the device failed
    /// Afterwards: the disk is given back; after 55 as it was; after 51 of its images nothing is promised
    /// By: `occupied`, `refused`, `faults`, `honest_err`
    pub fn init(alloc: Global, disk: D, area: u64) -> Result<Store<D>, (D, Refusal)>
        requires countable { D.fault_count disk < u64.MAX }
        requires least { min_area ≤ area }
        requires most { area ≤ max_area }
        ensures made { IfOk result (λ s. s ≡ fresh s.disk area) }
        ensures size { IfOk result (λ s. D.size s.disk ≡ area + area) }
        ensures recovers { IfOk result (λ s. D.honest s.disk → (c : List ℕ) → D.images s.disk c → RecoversTo empty c) }
        ensures occupied { (D.size disk ≡ 0 → ⊥) → result ≡ Err (disk, disk_not_empty) }
        ensures refused { IfErr result (λ e. D.size disk ≡ 0 → (e.1 ≡ device_failed) × (D.fault_count e.0 ≡ D.fault_count disk + 1)) }
        ensures faults { IfOk result (λ s. D.fault_count s.disk ≡ D.fault_count disk) }
        ensures honest_ok { IfOk result (λ s. D.honest s.disk ↔ D.honest disk) }
        ensures honest_err { IfErr result (λ e. D.honest e.0 ↔ D.honest disk) }
    {
        let mut disk = disk;
        if disk.len() != 0 {
            return Err((disk, Refusal::Numbered(Code::DiskNotEmpty)));
        }
        match make_areas(&mut disk, area, &EMPTY_AREA) {
            Err(fault) => Err((disk, Refusal::from(fault))),
            Ok(()) => {
                let table = Table::new(alloc);
                Ok(Store {
                    disk,
                    areas: AreaPair {
                        len: area,
                        side: Side::First,
                    },
                    other: GateState::Closed,
                    base: Snapshot::of(&table),
                    table,
                    history: Vec::new(alloc),
                    covered: 0,
                    used: USED,
                    generation: 1,
                    layout: Layout::Third,
                    pending_batch: PendingBatch::new(),
                    begun: None,
                    failed: false,
                })
            }
        }
    }
}

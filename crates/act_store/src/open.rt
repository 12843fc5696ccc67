ghost use Rattle.std.specs.Prelude.{◌≡◌, ◌<◌, ◌+◌, ℕ, List, [], IfErr, IfOk, None, false};
ghost use Rattle.definitions.specs.Disk.{EachSince};
ghost use Rattle.act_store.specs.Images.{HasNoArea, HasNoTable, RecoversFrom, RecoversTo};
ghost use Rattle.act_store.specs.Plain.{RefusesOpening, TellsNoArea, no_area, no_table};
ghost use Rattle.act_store.specs.FaultCauses.{IsCause};

use crate::located_area::find;
use crate::pending_batch::PendingBatch;
use crate::store::Store;
use act_disk::Disk;
use gated_journal::AreaPair;
use std::alloc::Global;
use std::snapshot::Snapshot;
use wf_value::Refusal;

impl<D: Disk> Store<D> {
    /// Opens what a crash left: syncs, and then reads. The store begins at the table that the disk recovers to, with an empty history.
    ///
    /// It is refused with 53 exactly if no area is open or the disk is not as long as two areas, whether or not memory is available; with
    /// 54 only if the active area encodes no table; with 51 exactly if the device fails; and otherwise only with 50. Each image that a
    /// crash during the call may leave, even at a refusal, was possible before.
    /// Promise (The store): `open`: the base is the table to which the disk recovers, and the history is empty. Versions 1 and 2 are read in the
    ///   same way
    /// By: `act_store::Store::open`, `base`, `recovers`, `no_table` (`EncodesTable`)
    /// Promise (The store): `open`: generation, layout and place are those of the active area, and no checkpoint is begun
    /// By: `act_store::Store::open`, `place` (`RecoversFrom`), `none_begun`, `begun`
    /// Promise (The store): `open`: each image since the start was one before, also at a refusal
    /// By: `act_store::Store::open`, `any_moment`, `any_moment_err`
    /// Refusal (The store and the desk): `act_store::Store::open`
    /// When: 53: only if no area is active, and then always unless the device fails. 54: only if the active area is no table's
    /// Afterwards: the disk is given back; each image was one before
    /// By: `no_area`, `tells_no_area`, `no_table`, `refused` (`RefusesOpening`), `any_moment_err`
    /// Refusal (The store and the desk): `act_store::Store::open`
    /// When: 51: exactly if the device fails. 50: else
    /// Afterwards: the disk is given back; each image was one before
    /// By: `faults`, `faults_err`, `refused` (`RefusesOpening`), `any_moment_err`
    pub fn open(alloc: Global, disk: D) -> Result<Store<D>, (D, Refusal)>
        requires { D.fault_count disk < u64.MAX }
        ensures base { IfOk result (λ s. D.honest s.disk → RecoversTo s.base (D.seen disk)) }
        ensures recovers { IfOk result (λ s. D.honest s.disk → (c : List ℕ) → D.images s.disk c → RecoversTo s.base c) }
        ensures begun { IfOk result (λ s. (s.history ≡ []) × (s.covered ≡ 0) × (s.failed ≡ false)) }
        ensures none_begun { IfOk result (λ s. s.begun ≡ None) }
        // The generation, the layout, and the offset of the next record are those of the active area.
        ensures place { IfOk result (λ s. D.honest s.disk → RecoversFrom s.generation s.used s.layout s.base (D.seen disk)) }
        ensures size { IfOk result (λ s. D.size disk ≡ s.area + s.area) }
        ensures no_area { IfErr result (λ e. e.1 ≡ no_area → D.honest e.0 → HasNoArea (D.seen disk)) }
        ensures no_table { IfErr result (λ e. e.1 ≡ no_table → D.honest e.0 → HasNoTable (D.seen disk)) }
        ensures tells_no_area { IfErr result (λ e. D.honest e.0 → HasNoArea (D.seen disk) → TellsNoArea e.1) }
        ensures refused { IfErr result (λ e. RefusesOpening e.1) }
        ensures any_moment { IfOk result (λ s. D.honest s.disk → EachSince D.moment D.images_since disk s.disk (D.images disk)) }
        ensures any_moment_err { IfErr result (λ e. D.honest e.0 → EachSince D.moment D.images_since disk e.0 (D.images disk)) }
        ensures faults { IfOk result (λ s. D.fault_count s.disk ≡ D.fault_count disk) }
        ensures faults_err { IfErr result (λ e. IsCause e.1 (D.fault_count disk) (D.fault_count e.0)) }
        ensures honest { IfOk result (λ s. D.honest s.disk → D.honest disk) }
        ensures honest_err { IfErr result (λ e. D.honest e.0 → D.honest disk) }
    {
        let mut disk = disk;
        let found = match find(alloc, &mut disk) {
            Ok(found) => found,
            Err(refusal) => return Err((disk, refusal)),
        };
        Ok(Store {
            disk,
            areas: AreaPair {
                len: found.area,
                side: found.chosen.side,
            },
            other: found.chosen.other,
            base: Snapshot::of(&found.encoded.table),
            table: found.encoded.table,
            history: Vec::new(alloc),
            covered: 0,
            used: found.encoded.used,
            generation: found.encoded.generation,
            layout: found.encoded.layout,
            pending_batch: PendingBatch::new(),
            begun: None,
            failed: false,
        })
    }
}

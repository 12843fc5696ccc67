//! Upgrades a store that an earlier program wrote to the current layout before it is served.

ghost use Rattle.std.specs.Prelude.{◌≡◌, ◌⊎◌, IfErr, IfOk, None, OnErr, OnOk, Some, is_some, if◌then◌else◌};
ghost use Rattle.act_store.specs.Checkpoints.{last_counter, refusal_of_begin, refusal_of_head};
ghost use Rattle.act_store.specs.Plain.{area_full};
ghost use Rattle.act_store.specs.declared.layout.Layout.TheVariants as layouts;

use act_disk::Disk;
use act_store::{Layout, Store};
use std::alloc::Global;
use wf_value::{Code, Refusal};

/// Makes a whole checkpoint, which leaves the store in the third layout. The first refusal ends it.
fn make_checkpoint<D: Disk>(alloc: Global, store: &mut Store<D>) -> Result<(), Refusal>
    ensures history { (store.new.history ≡ store.old.history) × (store.new.base ≡ store.old.base) }
    ensures honest { D.honest store.new.disk → D.honest store.old.disk }
    ensures layout { OnOk result (store.new.layout ≡ layouts.Third) }
    ensures kept { OnErr result (store.new.layout ≡ store.old.layout) }
    ensures allowed { OnOk result (refusal_of_begin store.old ≡ None) }
    ensures cause { IfErr result (λ e. (e ≡ area_full) ⊎ (e ≡ last_counter) → refusal_of_head store.old ≡ Some e) }
{
    let mut left = store.check_begin(alloc)?;
    while left > 0 {
        left = store.check_slice()?;
    }
    store.check_finish(alloc)?;
    Ok(())
}

/// Upgrades a store in the first or the second layout to the third, by one checkpoint. The store stays in its layout exactly if
/// a checkpoint has no room in an area (47) or no generation is left for one (48). There it accepts the commands of that layout.
/// Any other refusal of the checkpoint is returned.
/// Promise (One history for all sessions): A service brings a store of an earlier layout into the third before its first client, with the same
///   base and history. It stays in its own exactly if a checkpoint of it has no room in an area, or no generation is left for one
/// By: `service_startup::brought_up`, `same`, `layout`, `passed`
/// Refusal (Sessions and programs): before `ready`: `service_startup::brought_up`, of `service_rounds::{serve_on, serve_rounds}` and
///   `service_forever::serve_forever`
/// When: 50, 51 of its checkpoint in an earlier layout: T. Its 47 and 48 are passed over
/// Afterwards: no client was served; the file recovers as before: T
/// By: `passed`, `layout`
pub fn brought_up<D: Disk + Drop>(alloc: Global, store: Store<D>) -> Result<Store<D>, Refusal>
    ensures same { IfOk result (λ up. (up.history ≡ store.history) × (up.base ≡ store.base)) }
    ensures honest { IfOk result (λ up. D.honest up.disk → D.honest store.disk) }
    ensures layout { IfOk result (λ up. up.layout ≡ (if is_some (refusal_of_head store) then store.layout else layouts.Third)) }
    ensures passed { IfErr result (λ e. (e ≡ area_full) ⊎ (e ≡ last_counter) → ⊥) }
{
    let mut store = store;
    match store.layout() {
        Layout::Third => Ok(store),
        Layout::First | Layout::Second => match make_checkpoint(alloc, &mut store) {
            Ok(()) | Err(Refusal::Numbered(Code::AreaFull | Code::LastCounter)) => Ok(store),
            Err(refusal) => Err(refusal),
        },
    }
}

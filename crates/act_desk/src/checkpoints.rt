ghost use Rattle.std.specs.Prelude.{◌≡◌, ◌⊎◌, IfErr};
ghost use Rattle.act_disk.specs.Failed.{device_failed};
ghost use Rattle.act_store.specs.Plain.{failed_earlier};

use crate::flush::Flush;
use crate::flusher_desk::FlusherDesk;
use crate::named::Named;
use act_disk::Disk;
use std::alloc::Global;
use std::sync::Wait;
use std::sync::ledger::Ledger;
use std::thread;
use std::time::{Clock, Duration};
use wf_value::Refusal;

/// The pause of a flusher between two rounds, in milliseconds.
const REST: u64 = 1;

/// The longest pause while no more entries are covered, in milliseconds.
const LONG_REST: u64 = 250;

/// Makes checkpoints of a desk's store beside its seats until it is told to stop. Returns how many it has finished. `Err` is 51 or 52.
///
/// In each round it asks whether to stop and calls the store at most once under the lock, so that seats run in between. Then it sleeps for a
/// millisecond. If no checkpoint is in progress, it also waits until more entries are covered, for at most a quarter of a second. After a
/// wait that brought nothing new it skips the millisecond, so it wakes four times a second while the service is idle. It begins a
/// checkpoint if less than half of the area is left for the next record and entries were covered since its last attempt. It writes the
/// checkpoint slice by slice and finishes it. The round that is the first to find that it is to stop is the last that may begin a checkpoint. A
/// checkpoint that is then in progress is completed without pauses.
///
/// The flusher ignores the refusals 47, 48, 50 and 56 of the store and goes on with its rounds; once told to stop, it gives up at such a
/// refusal. Its desk gives no seat, so it enters no command and releases no reply (`FlusherDesk`).
/// Promise (One history for all sessions): That a flusher runs beside the sessions until they end is tested
/// By: `act_desk::flusher`
/// Refusal (The store and the desk): `act_desk::flusher`
/// When: 51, 52: a call of the store was refused so; that it is given there: T. 47, 48, 50 and 56 are passed over
/// Afterwards: failed; nothing is entered or released
/// By: its one clause; `act_desk::flush::Flush::round`, `steps` (`Finishes`), `same`
pub fn flusher<D: Disk, E: Named, T: Ledger, R: Wait + Clock>(
    rt: &R,
    alloc: Global,
    desk: &FlusherDesk<'_, D, E, T>,
) -> Result<u64, Refusal>
    ensures { IfErr result (λ e. (e ≡ device_failed) ⊎ (e ≡ failed_earlier)) }
{
    let mut flush = Flush::new();
    let mut is_idle = false;
    for _ in rt.forever() {
        let last = desk.is_stopped(rt);
        desk.flush(rt, alloc, &mut flush)?;
        if last {
            break;
        }
        if !is_idle {
            thread::sleep(rt, Duration::from_millis(REST));
        }
        is_idle = !flush.is_under_way()
            && desk.rest(rt, flush.seen(), Duration::from_millis(LONG_REST));
    }
    bring_to_its_end(rt, alloc, desk, &mut flush)?;
    Ok(flush.finished())
}

/// Completes the checkpoint in progress, if any: it is finished, or the store refuses a call.
fn bring_to_its_end<D: Disk, E: Named, T: Ledger, R: Wait>(
    rt: &R,
    alloc: Global,
    desk: &FlusherDesk<'_, D, E, T>,
    flush: &mut Flush,
) -> Result<(), Refusal>
    ensures { IfErr result (λ e. (e ≡ device_failed) ⊎ (e ≡ failed_earlier)) }
{
    for _ in rt.forever() {
        if !flush.is_under_way() {
            break;
        }
        let is_done = desk.flush(rt, alloc, flush)?;
        if !is_done {
            break;
        }
    }
    Ok(())
}

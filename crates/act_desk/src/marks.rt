ghost use Rattle.std.specs.Prelude.{◌≡◌, ◌+◌, ◌<◌, ◌≤◌, ◌^◌, length};
ghost use Rattle.act_desk.specs.Events.{covered_in, entries_in, told_in};

use crate::event::Event;
use crate::named::Named;
use crate::prefix::HistoryWriter;

/// Notes in the history that so many entries are covered, if more are than it knows of.
#[tactic(auto, using(crate::proofs::Eventful::entries_more, crate::proofs::Eventful::covered_more, crate::proofs::Eventful::told_more))]
pub(crate) fn mark<E: Named>(history: &mut HistoryWriter<E>, marked: &mut u64, covered: u64)
    requires known { covered_in history.old ≡ marked.old }
    requires grows { marked.old ≤ covered }
    requires few { length history.old < 2 ^ 62 }
    ensures marked { marked.new ≡ covered }
    ensures covered { covered_in history.new ≡ covered }
    ensures entries { entries_in history.new ≡ entries_in history.old }
    ensures told { told_in history.new ≡ told_in history.old }
    ensures few { length history.new + marked.old ≤ length history.old + covered }
{
    if *marked < covered {
        history.add(Event::Covered(covered - *marked));
        *marked = covered;
    }
}

/// Notes in the history that a reply is released.
#[tactic(auto, using(crate::proofs::Eventful::entries_more, crate::proofs::Eventful::covered_more, crate::proofs::Eventful::told_more))]
pub(crate) fn tell_one<E: Named>(history: &mut HistoryWriter<E>)
    requires { length history.old < 2 ^ 62 }
    ensures entries { entries_in history.new ≡ entries_in history.old }
    ensures covered { covered_in history.new ≡ covered_in history.old }
    ensures told { told_in history.new ≡ told_in history.old + 1 }
    ensures len { length history.new ≡ length history.old + 1 }
{
    history.add(Event::Told);
}

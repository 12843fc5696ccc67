ghost use Rattle.std.specs.Prelude.{◌≡◌, ◌↔◌, IsTrue, None, Some};
ghost use Rattle.group_book.specs.Slots.{HasLeft, HasLost, empty_slot};

use wf_value::Same;

/// The holders of a group: at most one is in progress, and at most one is pending.
#[derive(Clone, Copy)]
pub struct Slot<H> {
    pub in_progress: Option<H>,
    pub pending: Option<H>,
}

impl<H: Copy> Slot<H> {
    /// The slot of a group that nobody holds.
    pub(crate) fn empty() -> Self
        ensures { result ≡ empty_slot }
    {
        Slot {
            in_progress: None,
            pending: None,
        }
    }

    pub(crate) fn is_empty(&self) -> bool
        ensures { IsTrue result ↔ (self.now ≡ empty_slot) }
    {
        self.in_progress.is_none() && self.pending.is_none()
    }
}

impl<H: Copy + Same> Slot<H> {
    /// The slot after a holder has left it.
    pub(crate) fn without(self, holder: &H) -> Self
        ensures { HasLeft holder.now self result }
    {
        Slot {
            in_progress: other_than(self.in_progress, holder),
            pending: other_than(self.pending, holder),
        }
    }

    /// The holder that may begin once this one has left.
    pub(crate) fn next_after(self, holder: &H) -> Option<H>
        ensures next { self.in_progress ≡ Some holder.now → result ≡ self.pending }
        ensures none { (self.in_progress ≡ Some holder.now → ⊥) → result ≡ None }
    {
        if has(&self.in_progress, holder) {
            self.pending
        } else {
            None
        }
    }
}

/// Whether the place has this holder.
fn has<H: Same>(place: &Option<H>, holder: &H) -> bool
    ensures { IsTrue result ↔ (place.now ≡ Some holder.now) }
{
    match place {
        Some(other) => other.same(holder),
        None => false,
    }
}

/// The holder in a place, unless it is this one.
fn other_than<H: Copy + Same>(place: Option<H>, holder: &H) -> Option<H>
    ensures { HasLost holder.now place result }
{
    if has(&place, holder) { None } else { place }
}

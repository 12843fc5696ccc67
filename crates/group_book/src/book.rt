ghost use Rattle.std.specs.Prelude.{◌≡◌, ◌↔◌, ◌≤◌, ◌<◌, ◌+◌, Bool, List, [], None, Some, Ok, IfErr, false, true, if◌then◌else◌, is_ok, length};
ghost use Rattle.std.specs.Option.{option_to_list};
ghost use Rattle.wf_value.specs.Gives.{Gives, no_memory};
ghost use Rattle.group_name.specs.Group.{Group, same_group};
ghost use Rattle.group_book.specs.Books.{Puts, group_at, slot_in};
ghost use Rattle.group_book.specs.Holders.{Arrived, IsBookOf, after_arrival, after_end, after_start, holders, in_progress_in, pending_in};
ghost use Rattle.group_book.specs.Slots.{HasLeft, begun, empty_slot, with_newcomer};

use crate::slot::Slot;
use group_name::GroupKey;
use indexmap::IndexMap;
use std::alloc::Global;
use std::marker::Model;
use wf_value::{Code, Refusal, Same, TryCopy};

/// The concurrency groups that have holders, each with its holders. A group that nobody holds is not there. Memory for arrivals is
/// taken ahead, so that an arrival can't fail. In contracts it is the list of the groups with their slots, and the number of
/// arrivals for which memory is taken.
#[derive(Drop)]
pub struct Book<H: Copy> {
    slots: IndexMap<GroupKey, Slot<H>>,
    expected: usize,
}

impl<H: Copy> Model for Book<H> {
    ghost use Rattle.std.specs.Prelude.{◌≤◌};
    ghost use Rattle.indexmap.specs.IndexMap.{IsUnique, spare};
    ghost use Rattle.group_name.specs.Group.{same_group};
    ghost use Rattle.group_book.specs.Books.{AreHeld, BookState};

    ghost Value = { BookState H };

    ghost view = { λ b. record { entries = b.slots.entries; expected = b.expected } };

    ghost invariant = { λ b. IsUnique same_group b.slots × AreHeld b.slots.entries × (b.expected ≤ spare b.slots) };
}

/// What an arrival does to the others of its group: the holder that was pending ends, and the one in progress is to be stopped.
#[derive(Clone, Copy)]
pub struct Arrival<H> {
    pub displaced: Option<H>,
    pub to_stop: Option<H>,
}

impl<H: Copy> Book<H> {
    /// A book of groups that nobody holds.
    /// Promise (Concurrency groups): A book has exactly the holders of each group: of all that have arrived in it and have not ended, the one
    ///   that waits and the one in progress
    /// By: `group_book::Book::{new, arrive, start, leave}`, `book`; `group_book::Book::{running, pending}`, `holder`
    pub fn new(alloc: Global) -> Self
        ensures entries { result.entries ≡ [] }
        ensures expected { result.expected ≡ 0 }
        ensures book { IsBookOf [] result.entries }
    {
        Book {
            slots: IndexMap::new(alloc),
            expected: 0,
        }
    }

    /// Takes the memory for `more` further arrivals. On an `Err`, which is 50 (out of memory), nothing changes.
    /// Promise (Concurrency groups): No arrival, start or end takes memory once the arrival is expected
    /// By: `group_book::Book::{expect, forgo, copy}`
    pub fn expect(&mut self, more: usize) -> Result<(), Refusal>
        ensures entries { self.new.entries ≡ self.old.entries }
        ensures expected { self.new.expected ≡ (if is_ok result then self.old.expected + more else self.old.expected) }
        ensures err { IfErr result (λ e. e ≡ no_memory) }
    {
        let Some(expected) = self.expected.checked_add(more) else {
            return Err(Refusal::Numbered(Code::NoMemory));
        };
        self.slots.reserve(expected)?;
        self.expected = expected;
        Ok(())
    }

    /// Lets go of the memory for `count` arrivals, which will not come.
    pub fn forgo(&mut self, count: usize)
        requires { count ≤ self.old.expected }
        ensures entries { self.new.entries ≡ self.old.entries }
        ensures expected { self.new.expected + count ≡ self.old.expected }
    {
        self.expected -= count;
    }

    fn slot(&self, group: &GroupKey) -> Slot<H>
        ensures { result ≡ slot_in self.now.entries group.now }
    {
        match self.slots.get(group) {
            Some(slot) => *slot,
            None => Slot::empty(),
        }
    }

    /// The holder of a group that is in progress.
    pub fn running(&self, group: &GroupKey) -> Option<H>
        ensures slot { result ≡ (slot_in self.now.entries group.now).in_progress }
        ensures holder { (all : List (Arrived H)) → IsBookOf all self.now.entries
            → option_to_list result ≡ holders (in_progress_in group.now all) }
    {
        self.slot(group).in_progress
    }

    /// The holder of a group that is pending.
    pub fn pending(&self, group: &GroupKey) -> Option<H>
        ensures slot { result ≡ (slot_in self.now.entries group.now).pending }
        ensures holder { (all : List (Arrived H)) → IsBookOf all self.now.entries
            → option_to_list result ≡ holders (pending_in group.now all) }
    {
        self.slot(group).pending
    }

    /// A newcomer arrives in a group, in the place of the holder that was pending there, and waits. `cancels` says whether it has
    /// cancel-in-progress.
    /// Promise (Concurrency groups): An arrival ends every pending holder of the group, the newcomer waits, and with cancel-in-progress the
    ///   holder in progress is given to be stopped
    /// By: `group_book::Book::arrive`, `ended`, `stopped`
    pub fn arrive(&mut self, group: GroupKey, newcomer: H, cancels: bool) -> Arrival<H>
        requires { 0 < self.old.expected }
        ensures slots { Puts group (with_newcomer newcomer (slot_in self.old.entries group)) self.old.entries self.new.entries }
        ensures displaced { result.displaced ≡ (slot_in self.old.entries group).pending }
        ensures to_stop { result.to_stop ≡ (if cancels then (slot_in self.old.entries group).in_progress else None) }
        ensures expected { self.new.expected + 1 ≡ self.old.expected }

        // All that had arrived and not ended are as the documentation says.
        ensures book { (all : List (Arrived H)) → IsBookOf all self.old.entries
            → IsBookOf (after_arrival group newcomer all) self.new.entries }
        ensures ended { (all : List (Arrived H)) → IsBookOf all self.old.entries
            → option_to_list result.displaced ≡ holders (pending_in group all) }
        ensures stopped { (all : List (Arrived H)) → IsBookOf all self.old.entries
            → option_to_list result.to_stop ≡ (if cancels then holders (in_progress_in group all) else []) }
    {
        let before = self.slot(&group);
        let after = Slot {
            in_progress: before.in_progress,
            pending: Some(newcomer),
        };
        match self.slots.insert(group, after) {
            Ok(_) => {}
            Err(_) => unreachable!(),
        }
        self.expected -= 1;
        Arrival {
            displaced: before.pending,
            to_stop: if cancels { before.in_progress } else { None },
        }
    }

    /// The pending holder of a group in which nobody is in progress begins.
    pub fn start(&mut self, group: &GroupKey)
        requires { (slot_in self.old.entries group.now).in_progress ≡ None }
        ensures slots { Puts group.now (begun (slot_in self.old.entries group.now)) self.old.entries self.new.entries }
        ensures expected { self.new.expected ≡ self.old.expected }
        ensures book { (all : List (Arrived H)) → IsBookOf all self.old.entries → IsBookOf (after_start group.now all) self.new.entries }
    {
        let before = self.slot(group);
        let after = Slot {
            in_progress: before.pending,
            pending: None,
        };
        self.put(group, after);
    }

    /// Replaces the slot of a group. A group that is not in the book stays without holders.
    fn put(&mut self, group: &GroupKey, slot: Slot<H>)
        requires { slot_in self.old.entries group.now ≡ empty_slot → slot ≡ empty_slot }
        ensures slots { Puts group.now slot self.old.entries self.new.entries }
        ensures expected { self.new.expected ≡ self.old.expected }
    {
        match self.slots.get_index_of(group) {
            Some(number) => self.put_at(number, slot),
            None => {}
        }
    }

    /// Replaces the slot with this number. A group that nobody holds any more is taken out.
    fn put_at(&mut self, number: usize, slot: Slot<H>)
        requires { number < length self.old.entries }
        ensures slots { (g : Group) → group_at self.old.entries number ≡ Some g → Puts g slot self.old.entries self.new.entries }
        ensures expected { self.new.expected ≡ self.old.expected }
    {
        if slot.is_empty() {
            self.remove_at(number)
        } else {
            self.write_at(number, slot)
        }
    }

    fn write_at(&mut self, number: usize, slot: Slot<H>)
        requires within { number < length self.old.entries }
        requires held { slot ≡ empty_slot → ⊥ }
        ensures slots { (g : Group) → group_at self.old.entries number ≡ Some g → Puts g slot self.old.entries self.new.entries }
        ensures expected { self.new.expected ≡ self.old.expected }
    {
        self.slots[number] = slot;
    }

    fn remove_at(&mut self, number: usize)
        requires { number < length self.old.entries }
        ensures slots { (g : Group) → group_at self.old.entries number ≡ Some g → Puts g empty_slot self.old.entries self.new.entries }
        ensures expected { self.new.expected ≡ self.old.expected }
    {
        self.slots.swap_remove_index(number);
    }

    /// A copy with the same groups and holders, and with memory for as many arrivals.
    pub fn copy(&self, alloc: Global) -> Result<Self, Refusal>
        ensures { Gives (λ b. b) result (Ok self.now) }
    {
        let mut slots = IndexMap::with_capacity(alloc, self.slots.len())?;
        for (group, slot) in self.slots.iter() {
            slots.insert(group.copy(alloc)?, *slot)?;
        }
        slots.reserve(self.expected)?;
        Ok(Book {
            slots,
            expected: self.expected,
        })
    }
}

impl<H: Copy + Same> Book<H> {
    /// A holder of a group leaves it. If it was in progress, this is the pending holder, which may begin.
    /// Promise (Concurrency groups): An end gives the pending holder of the group that it frees
    /// By: `group_book::Book::leave`, `next`, `none`
    pub fn leave(&mut self, group: &GroupKey, holder: &H) -> Option<H>
        ensures left { HasLeft holder.now (slot_in self.old.entries group.now) (slot_in self.new.entries group.now) }
        ensures others { (k : Group) → same_group group.now k ≡ false → slot_in self.new.entries k ≡ slot_in self.old.entries k }
        ensures next { (slot_in self.old.entries group.now).in_progress ≡ Some holder.now
            → result ≡ (slot_in self.old.entries group.now).pending }
        ensures none { ((slot_in self.old.entries group.now).in_progress ≡ Some holder.now → ⊥) → result ≡ None }
        ensures expected { self.new.expected ≡ self.old.expected }
        ensures book { (all : List (Arrived H)) (is : H → Bool) → ((h : H) → (is h ≡ true) ↔ (h ≡ holder.now))
            → IsBookOf all self.old.entries → IsBookOf (after_end group.now is all) self.new.entries }
    {
        let before = self.slot(group);
        self.put(group, before.without(holder));
        before.next_after(holder)
    }
}

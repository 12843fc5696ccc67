ghost use Rattle.std.specs.Prelude.{◌≡◌, ◌≤◌, length};
ghost use Rattle.act_desk.specs.Events.{entries_in};

use crate::named::Named;
use crate::prefix::HistoryPrefix;
use act_store::Receipt;
use run_plan::Command;
use std::marker::Model;
use std::snapshot::Snapshot;

/// An entered command whose reply is withheld until a crash can no longer lose the entry. It has no `Drop` and must be consumed by
/// `Desk::cover`.
pub struct Pending<E: Named> {
    pub(crate) seat: u64,
    pub(crate) command: Snapshot<Command>,
    pub(crate) receipt: Receipt,
    /// The prefix of the history that ends with the entry.
    pub(crate) prefix: HistoryPrefix<E>,
}

impl<E: Named> Model for Pending<E> {
    ghost use Rattle.std.specs.Prelude.{◌≡◌, ◌-◌, Some, slice_get};
    ghost use Rattle.act_desk.specs.Events.{entries_in};
    ghost use Rattle.act_desk.specs.Shown.{Awaited, IsReplyTo};

    ghost Value = { Awaited };

    ghost view = { λ p. record { seat = p.seat; command = p.command.value; place = p.receipt.place; seen = p.prefix } };

    ghost invariant = { λ p. IsReplyTo p.command.value p.receipt.reply
        × (slice_get (entries_in p.prefix) (p.receipt.place - 1) ≡ Some (record { seat = p.seat; command = p.command.value; reply = p.receipt.reply })) };
}

impl<E: Named> Pending<E> {
    /// The position of its entry, counted from 1.
    pub(crate) fn place(&self) -> u64
        ensures place { result ≡ self.now.place }
        ensures within { self.now.place ≤ length (entries_in self.now.seen) }
    {
        self.receipt.place
    }

    /// Discards the reply.
    pub(crate) fn spend(self) {
        let Pending {
            seat: _,
            command: _,
            receipt: _,
            prefix: _,
        } = self;
    }
}

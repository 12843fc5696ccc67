ghost use Rattle.client_loop.specs.Entering.{EntersOne};

use crate::exchange_history::ExchangeHistory;
use act_disk::Disk;
use act_sessions::{Protocol, Submit, TurnText, text_of_answer};
use act_store::{Receipt, Store};
use run_plan::{Command, Reply};
use std::alloc::Global;
use std::snapshot::Snapshot;
use wf_value::Refusal;

/// Enters commands in a store under a number, and, for contracts only, keeps them with their answers.
#[derive(Drop)]
pub(crate) struct Author {
    pub(crate) number: u64,
    pub(crate) exchanges: ExchangeHistory,
}

/// Enters a command under a number.
fn enter<D: Disk>(
    alloc: Global,
    store: &mut Store<D>,
    number: u64,
    command: Command,
) -> Result<Reply, Refusal>
    ensures { EntersOne number store.old (command, result) store.new }
{
    match store.apply(alloc, number, command) {
        Ok(Receipt { reply, .. }) => Ok(reply),
        Err(refusal) => Err(refusal),
    }
}

impl<D: Disk> Submit<Store<D>> for Author {
    ghost use Rattle.client_loop.specs.inner.Authors.{IsEntered};

    ghost submits = { IsEntered };

    fn submit<P: Protocol>(
        &mut self,
        alloc: Global,
        store: &mut Store<D>,
        command: Command,
        closes: bool,
        count: u64,
    ) -> Option<TurnText> {
        let was = Snapshot::of(&command);
        let answer = enter(alloc, store, self.number, command);
        self.exchanges.add(&was, &answer);
        text_of_answer::<P>(alloc, &answer, closes, count)
    }
}

ghost use Rattle.std.specs.Prelude.{◌≡◌, ◌⊎◌, ℕ, List, [], Err, IfErr, IfNone, IfOk, IfSome, OnOk};
ghost use Rattle.wf_value.specs.Gives.{no_memory};
ghost use Rattle.wf_value.specs.RefusalText.{ids_of_cycle};
ghost use Rattle.act_sessions.specs.Exchange.{Submits};
ghost use Rattle.act_store.specs.Images.{RecoversTo};
ghost use Rattle.act_store.specs.Plain.{committed, entered, refusal_of_apply};
ghost use Rattle.act_store.specs.StoreState.{table_of};
ghost use Rattle.act_store.specs.FaultCauses.{TellsFault};
ghost use Rattle.act_desk.specs.Answered.{IsAnswered, IsNotDone, IsUnanswered, MayHaveEntered};

use act_disk::Disk;
use act_sessions::{Answer, LoggedExchange};
use act_store::{Receipt, Store};
use run_plan::{Command, Reply};
use std::alloc::Global;
use std::marker::Model;
use wf_value::{Code, Refusal, TryCopy};

/// The seat of the only session.
const SEAT: u64 = 0;

/// Answers from a store that no one else uses, and keeps the submitted commands with their answers.
/// Promise (One history for all sessions): One session without a lock: the entry of an answer Ok is covered, and each image recovers to all
///   entries
/// By: `act_desk::Alone`, `act_sessions::Answer::ask` (`answered`, `survives`, `entered`)
#[derive(Drop)]
pub struct Alone<D: Disk> {
    alloc: Global,
    store: Store<D>,
    asked: Vec<LoggedExchange>,
}

impl<D: Disk> Model for Alone<D> {
    ghost use Rattle.act_sessions.specs.Exchange.{exchanges_in};
    ghost use Rattle.act_desk.specs.inner.Lone.{Lone};

    ghost Value = { Lone D };

    ghost view = { λ a. record { store = a.store; asked = exchanges_in a.asked.items } };
}

impl<D: Disk> Alone<D> {
    /// No command was submitted yet. Takes no memory.
    pub fn new(alloc: Global, store: Store<D>) -> Alone<D>
        ensures { result ≡ record { store = store; asked = [] } }
    {
        Alone {
            alloc,
            store,
            asked: Vec::new(alloc),
        }
    }

    /// The store, with all its entries.
    pub fn into_store(self) -> Store<D>
        ensures { result ≡ self.store }
    {
        let Alone { store, .. } = self;
        store
    }
}

impl<D: Disk> Answer for Alone<D> {
    ghost asked = { λ a. a.asked };

    /// Enters the command for seat 0, makes it durable, and returns the reply of its step. After `Ok` a crash at any moment leaves the
    /// entry.
    ///
    /// It first reserves space in the list and copies the command for it. If it is out of memory for that, the answer is 50, nothing is
    /// entered, and the list does not change. If it is out of memory for a copy of the answer, the answer is 50 and is listed as such,
    /// although the entry exists. All other refusals are those of the store: 46, 47, 50, 52 and 57 before the command is entered, 51 after
    /// it.
    /// Refusal (The store and the desk): `act_desk::Alone::ask`
    /// When: 46, 47, 52, 57: only as `Store::apply`. 51: exactly if the device fails
    /// Afterwards: the list is one longer; after 51 failed
    /// By: `cause` (`IsUnanswered`, `IsNotDone`), `asks`, `faults`
    /// Refusal (The store and the desk): `act_desk::Alone::ask`
    /// When: 50: no memory for the list or a copy of the command (nothing has changed), or for the entry or a copy of the reply
    /// Afterwards: after a late 50 the list is one longer, and the entry may be there and is then covered
    /// By: `cause` (`IsUnanswered`, `IsNotDone`), `unlisted`, `asks`
    fn ask(&mut self, command: Command) -> Result<Reply, Refusal>
        ensures asks { Submits self.old.asked self.new.asked command result }
        ensures answered { IfOk result (λ reply. IsAnswered self.old.store self.new.store 0 command reply) }
        ensures survives { OnOk result (D.honest self.new.store.disk → (c : List ℕ) → D.images self.new.store.disk c → RecoversTo (table_of self.new.store) c) }
        ensures entered { MayHaveEntered self.old.store self.new.store 0 command }
        ensures cause { IfErr result (IsUnanswered self.old.store self.new.store 0 command) }
        // A command that is not listed was not entered.
        ensures unlisted { self.new.asked ≡ self.old.asked → self.new ≡ self.old }
        ensures faults { TellsFault result (D.fault_count self.old.store.disk) (D.fault_count self.new.store.disk) }
    {
        self.asked.reserve(1)?;
        let copy = command.copy(self.alloc)?;
        let answer = submit(self.alloc, &mut self.store, copy);
        let (told, kept) = twice(self.alloc, answer);
        self.asked.push_reserved(LoggedExchange {
            command,
            answer: kept,
        });
        told
    }
}

/// Enters a command and makes it durable.
fn submit<D: Disk>(alloc: Global, store: &mut Store<D>, command: Command) -> Result<Reply, Refusal>
    ensures answered { IfOk result (λ reply. IsAnswered store.old store.new 0 command reply) }
    ensures survives { OnOk result (D.honest store.new.disk → (c : List ℕ) → D.images store.new.disk c → RecoversTo (table_of store.new) c) }
    ensures entered { MayHaveEntered store.old store.new 0 command }
    ensures done { OnOk result (store.new ≡ committed (entered store.old 0 command) store.new.disk) }
    ensures cause { IfErr result (IsNotDone store.old store.new 0 command) }
    ensures refused { IfSome (refusal_of_apply store.old command) (λ refusal. IfErr result (λ e. (e ≡ refusal) ⊎ (e ≡ no_memory)) × OnOk result ⊥
        × (store.new ≡ store.old)) }
    ensures faults { TellsFault result (D.fault_count store.old.disk) (D.fault_count store.new.disk) }
{
    let Receipt { reply, .. } = store.apply(alloc, SEAT, command)?;
    store.commit()?;
    Ok(reply)
}

/// An answer and a copy of it, or 50 twice if it cannot be copied.
fn twice(
    alloc: Global,
    answer: Result<Reply, Refusal>,
) -> (Result<Reply, Refusal>, Result<Reply, Refusal>)
    ensures same { result.0 ≡ result.1 }
    ensures either { (result.0 ≡ answer) ⊎ ((result.0 ≡ Err no_memory) × IfErr answer (λ e. ids_of_cycle e ≡ [] → ⊥)) }
{
    match copy_of(alloc, &answer) {
        Some(copy) => (answer, copy),
        None => (
            Err(Refusal::Numbered(Code::NoMemory)),
            Err(Refusal::Numbered(Code::NoMemory)),
        ),
    }
}

/// A copy, or `None` if out of memory. A refusal without ids takes no memory.
fn copy_of(alloc: Global, answer: &Result<Reply, Refusal>) -> Option<Result<Reply, Refusal>>
    ensures copy { IfSome result (λ copy. copy ≡ answer.now) }
    ensures none { IfNone result (IfErr answer.now (λ e. ids_of_cycle e ≡ [] → ⊥)) }
{
    match answer {
        Ok(reply) => Some(Ok(reply.copy(alloc).ok()?)),
        Err(refusal) => Some(Err(refusal.copy(alloc).ok()?)),
    }
}

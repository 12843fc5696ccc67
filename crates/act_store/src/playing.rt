ghost use Rattle.std.specs.Prelude.{◌≡◌, ◌↔◌, ℕ, List, IfErr, IfOk, OnErr};
ghost use Rattle.wf_value.specs.Gives.{no_memory};
ghost use Rattle.definitions.specs.Disk.{EachSince};
ghost use Rattle.act_store.specs.Entries.{IsLegal};
ghost use Rattle.act_store.specs.GroupsOfHistory.{KeepsGroups};
ghost use Rattle.act_store.specs.StoreState.{RecoverToCovered, RecoversToSome};
ghost use Rattle.act_store.specs.Steps.{Grows, PlayEnds, Survives, Takes};
ghost use Rattle.act_store.specs.declared.step.Step.TheVariants as requested;

use crate::receipt::Receipt;
use crate::step::{Played, Step};
use crate::store::Store;
use act_disk::Disk;
use run_plan::Command;
use std::alloc::Global;
use wf_value::{Refusal, TryCopy};

/// Takes steps of a store in order, and returns the answer to each. A refused step is answered by its refusal, and the next one follows.
///
/// This holds for all steps, whatever the device does. A crash at any moment leaves an image that recovers to a prefix of the history that
/// includes all entries covered when the play began; a crash at the end, to one that includes all entries covered then, and to exactly
/// these if the device has not failed. The history is sequential: each reply is the one of its step. In it every concurrency group has at
/// most one run or leg in progress and at most one pending, and keeps its law. The only failure is out of memory, for the answers or for a
/// copy of a command; the store has then taken some of the first steps.
/// Promise (The store): The crash promise: for any list of applies, commits and steps of checkpoints, whatever the device does, a crash at any
///   moment leaves an image that recovers to the table after a prefix of the history
/// By: `act_store::play`, `any_moment`, `legal`, `grows`
/// Promise (The store): That prefix has everything that was covered when the play began; at the end of the play it has everything covered by
///   then. The history is legal and only grows
/// By: `act_store::play`, `any_moment`, `recovers`, `legal`, `grows`
/// Promise (The store): In every prefix of the history each group has at most one holder in progress and one pending, and its moves keep the
///   law, from the base on
/// By: `act_store::play`, `groups`; `act_store::Store::covered`, `groups` (`KeepsGroups`)
/// Promise (The store): `take` answers 51 exactly where the device failed in it, and 52 from then on. A play that runs out of memory leaves the
///   store after some of the first steps
/// By: `act_store::play`, `ends` (`PlayEnds`, `Takes`, `IsRefused`)
/// Refusal (The store and the desk): `act_store::play`
/// When: 50 alone: an answer or a copied command found no memory
/// Afterwards: the store is after some of the first steps
/// By: `ends` (`PlayEnds`)
pub fn play<D: Disk>(
    alloc: Global,
    store: &mut Store<D>,
    steps: &[Step],
) -> Result<Vec<Played>, Refusal>
    ensures ends { PlayEnds (Survives D.honest D.moment D.fault_count D.images_since) (λ answers. answers.items)
        store.old steps.now result store.new }
    ensures any_moment { D.honest store.old.disk → EachSince D.moment D.images_since store.old.disk store.new.disk
        (RecoversToSome store.new.base store.new.history store.old.covered) }
    ensures recovers { D.honest store.new.disk → (c : List ℕ) → D.images store.new.disk c
        → RecoversToSome store.new.base store.new.history store.new.covered c }
    ensures exact { D.honest store.new.disk → RecoverToCovered D.images store.new }
    ensures legal { IsLegal store.new.base store.new.history }
    ensures groups { KeepsGroups store.new.base store.new.history }
    ensures grows { Grows store.old store.new }
    ensures honest { D.honest store.new.disk ↔ D.honest store.old.disk }
{
    let first = store.covered();
    let answers = take_all(alloc, store, steps);
    let last = store.covered();
    prove!(first <= last);
    answers
}

/// Takes steps in order.
fn take_all<D: Disk>(
    alloc: Global,
    store: &mut Store<D>,
    steps: &[Step],
) -> Result<Vec<Played>, Refusal>
    ensures { PlayEnds (Survives D.honest D.moment D.fault_count D.images_since) (λ answers. answers.items)
        store.old steps.now result store.new }
{
    let mut answers = Vec::new(alloc);
    for step in steps {
        let answer = take_step(alloc, store, step)?;
        answers.push(answer)?;
    }
    Ok(answers)
}

/// Takes a step. If a command cannot be copied, no step is taken.
fn take_step<D: Disk>(alloc: Global, store: &mut Store<D>, step: &Step) -> Result<Played, Refusal>
    ensures takes { IfOk result (λ answer. Takes store.old step.now answer store.new) }
    ensures survives { IfOk result (λ answer. Survives D.honest D.moment D.fault_count D.images_since store.old answer store.new) }
    ensures unchanged { OnErr result (store.new ≡ store.old) }
    ensures refused { IfErr result (λ e. e ≡ no_memory) }
{
    match step {
        Step::Apply(command) => {
            let copy = command.copy(alloc)?;
            Ok(take(alloc, store, Step::Apply(copy)))
        }
        Step::Commit => Ok(take(alloc, store, Step::Commit)),
        Step::Begin => Ok(take(alloc, store, Step::Begin)),
        Step::Slice => Ok(take(alloc, store, Step::Slice)),
        Step::Finish => Ok(take(alloc, store, Step::Finish)),
    }
}

/// Takes a step, and returns the answer to it. A refused step is answered by its refusal.
///
/// This holds for all steps, whatever the device does: a crash at any moment leaves an image that recovers to the entries covered when the
/// step began, or to all entries of that time.
/// Promise (The store): `take` is one step; its answer and the store after it are the plain store's. A crash during it leaves what was covered
///   when it began, or all
/// By: `act_store::take`, `takes`, `survives` (`Takes`, `Survives`)
/// Refusal (The store and the desk): `act_store::take`
/// When: The number of a refused step is its answer: 46, 47, 48, 50, 51, 52, 56, 57
/// Afterwards: as of that step
/// By: `takes`, `survives`
pub fn take<D: Disk>(alloc: Global, store: &mut Store<D>, step: Step) -> Played
    ensures takes { Takes store.old step result store.new }
    ensures survives { Survives D.honest D.moment D.fault_count D.images_since store.old result store.new }
{
    match step {
        Step::Apply(command) => take_apply(alloc, store, command),
        Step::Commit => take_commit(store),
        Step::Begin => take_begin(alloc, store),
        Step::Slice => take_slice(store),
        Step::Finish => take_finish(alloc, store),
    }
}

/// Applies a command for seat 0.
fn take_apply<D: Disk>(alloc: Global, store: &mut Store<D>, command: Command) -> Played
    ensures takes { Takes store.old (requested.Apply command) result store.new }
    ensures survives { Survives D.honest D.moment D.fault_count D.images_since store.old result store.new }
{
    match store.apply(alloc, 0, command) {
        Ok(Receipt { reply, .. }) => Played::Replied(reply),
        Err(refusal) => Played::Refused(refusal),
    }
}

fn take_commit<D: Disk>(store: &mut Store<D>) -> Played
    ensures takes { Takes store.old requested.Commit result store.new }
    ensures survives { Survives D.honest D.moment D.fault_count D.images_since store.old result store.new }
{
    match store.commit() {
        Ok(count) => Played::Count(count),
        Err(refusal) => Played::Refused(refusal),
    }
}

fn take_begin<D: Disk>(alloc: Global, store: &mut Store<D>) -> Played
    ensures takes { Takes store.old requested.Begin result store.new }
    ensures survives { Survives D.honest D.moment D.fault_count D.images_since store.old result store.new }
{
    match store.check_begin(alloc) {
        Ok(left) => Played::Count(left),
        Err(refusal) => Played::Refused(refusal),
    }
}

fn take_slice<D: Disk>(store: &mut Store<D>) -> Played
    ensures takes { Takes store.old requested.Slice result store.new }
    ensures survives { Survives D.honest D.moment D.fault_count D.images_since store.old result store.new }
{
    match store.check_slice() {
        Ok(left) => Played::Count(left),
        Err(refusal) => Played::Refused(refusal),
    }
}

fn take_finish<D: Disk>(alloc: Global, store: &mut Store<D>) -> Played
    ensures takes { Takes store.old requested.Finish result store.new }
    ensures survives { Survives D.honest D.moment D.fault_count D.images_since store.old result store.new }
{
    match store.check_finish(alloc) {
        Ok(count) => Played::Count(count),
        Err(refusal) => Played::Refused(refusal),
    }
}

//! Laws of the groups of a table, over any commands.

ghost use Rattle.std.specs.Prelude.{◌≡◌, ◌≤◌, List, [], ◌∷◌, ◌++◌, length, false, true, Some, None};
ghost use Rattle.run_plan.specs.declared.command.Command.{Command};
ghost use Rattle.group_name.specs.Group.{Group};
ghost use Rattle.table_model.specs.GroupLaw.{has_arrived, has_ended, has_started, next_displaced, was_stopped, Move, KeepsLaw};
ghost use Rattle.table_model.specs.Groups.{pending_in, in_progress_in};
ghost use Rattle.table_model.specs.Step.{after};
ghost use Rattle.table_model.specs.Runs.{leg_at, LegState};
ghost use Rattle.table_model.specs.declared.sites.LegSite.{LegSite};
ghost use Rattle.table_model.specs.Sound.{IsSound};
ghost use Rattle.table_model.specs.TableState.{TableState};
ghost use Rattle.wf_value.specs.declared.outcome.Outcome.{Outcome};
ghost use Rattle.table_laws.specs.GroupHistories.{IsOf, NeverBegan, all_moves, requests_cancellation};
ghost use Rattle.table_laws.specs.GroupHolders.{SayWhoHolds};
ghost use Rattle.table_laws.specs.Names.{Names, name_in};
ghost use Rattle.table_model.specs.declared.holder.Holder.{Holder};

/// Among all runs and legs of the table, at most one is pending and at most one is running in each concurrency group.
/// Promise (Concurrency groups): At most one holder of a group is in progress and one pending
/// By: `table_laws::group_histories::groups_have_one_holder_of_each_kind`
pub fn groups_have_one_holder_of_each_kind()
    ensures pending { (t : TableState) (cs : List Command) (g : Group) → IsSound t → length (pending_in (after t cs).runs g) ≤ 1 }
    ensures in_progress { (t : TableState) (cs : List Command) (g : Group) → IsSound t → length (in_progress_in (after t cs).runs g) ≤ 1 }
{}

/// The law of concurrency groups: from any sound table and over any commands, the moves of each group satisfy it, after the base moves of
/// the holders that the group already has. Each holder is named by the id and the attempt of its run.
/// Promise (Concurrency groups): The moves of each group keep the law over any commands, from any sound table, whichever names are used for
///   holders by the ids and attempts of their runs
/// By: `table_laws::group_histories::every_group_keeps_its_law`; `table_laws::group_laws::attempts_have_names` (`Names`)
pub fn every_group_keeps_its_law()
    ensures { (names : Names) (t : TableState) (cs : List Command) (g : Group) → IsSound t
        → KeepsLaw (requests_cancellation names g t cs) (all_moves names g t cs) }
{}

/// The moves of each group determine its holders: from any sound table and after any commands, the holders that the moves show as running,
/// pending and asked to stop are those that filters over all runs and legs of the table give.
/// Promise (Concurrency groups): The moves say exactly which holders of each group are in progress, pending and stopping in the table, also in
///   the one that calls of `Table::step` leave
/// By: `table_laws::group_histories::the_moves_say_who_holds_each_group`; `step_laws::carry_out`, `holders` (`SayWhoHolds`)
pub fn the_moves_say_who_holds_each_group()
    ensures { (names : Names) (t : TableState) (cs : List Command) (g : Group) → IsSound t
        → SayWhoHolds names (after t cs) g (all_moves names g t cs) }
{}

/// Between the start of a holder and its end no other holder of its group starts.
/// Promise (Concurrency groups): Between the start of a holder and its end no other holder starts. A displaced holder never begins in that
///   attempt. Only a later arrival displaces
/// By: `table_laws::group_histories::{nobody_starts_before_the_holder_has_ended, displaced_holders_never_begin, only_later_arrivals_displace}`
pub fn nobody_starts_before_the_holder_has_ended()
    ensures { (names : Names) (t : TableState) (cs : List Command) (g : Group) (before between after_it : List Move) (h k : Holder)
        → IsSound t → all_moves names g t cs ≡ before ++ Move.start h ∷ (between ++ Move.start k ∷ after_it) → has_ended h between ≡ true }
{}

/// A pending holder that a newcomer displaces never begins in that attempt of its run: in every table on the way in which the holder has
/// the name that was displaced, a displaced run has ended with all its jobs cancelled and has no leg, and a displaced leg has ended as
/// cancelled. In no such table does a leg of the holder have a lease.
pub fn displaced_holders_never_begin()
    ensures cancelled { (names : Names) (t : TableState) (cs : List Command) (g : Group) (before after_it : List Move) (newcomer h : Holder)
        → IsSound t → all_moves names g t cs ≡ before ++ Move.arrive newcomer ∷ after_it
        → next_displaced before ≡ Some (name_in names (after t cs) h) → NeverBegan (after t cs).runs h }
    ensures unleased { (names : Names) (t : TableState) (first second : List Command) (g : Group) (before after_it : List Move)
        (newcomer h : Holder) → IsSound t → all_moves names g t (first ++ second) ≡ before ++ Move.arrive newcomer ∷ after_it
        → next_displaced before ≡ Some (name_in names (after t first) h)
        → (p : LegSite) (leg : LegState) → IsOf h p → leg_at (after t first).runs p ≡ Some leg → leg.lease ≡ None }
{}

/// Only a later arrival displaces the latest one: a holder that ends without a start and without a stop had arrived before the newcomer,
/// whose arrival is the move before.
pub fn only_later_arrivals_displace()
    ensures { (names : Names) (t : TableState) (cs : List Command) (g : Group) (before after_it : List Move) (r : Outcome) (h : Holder)
        → IsSound t → all_moves names g t cs ≡ before ++ Move.end_with r h ∷ after_it → has_started h before ≡ false
        → was_stopped h before ≡ false
        → (earlier : List Move) × (newcomer : Holder) × (before ≡ earlier ++ Move.arrive newcomer ∷ []) × (has_arrived h earlier ≡ true) }
{}

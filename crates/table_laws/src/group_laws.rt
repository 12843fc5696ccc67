//! The law of a concurrency group: what follows from it for any list of moves that satisfies it, and that each single change of a group
//! preserves it.

ghost use Rattle.std.specs.Prelude.{◌≡◌, ◌⊎◌, ◌∷◌, [], ◌++◌, List, Bool, true, false, Some};
ghost use Rattle.table_model.specs.Groups.{GroupState};
ghost use Rattle.table_model.specs.GroupLaw.{has_arrived, has_ended, has_started, is_pending, is_in_progress, is_the, Move};
ghost use Rattle.table_model.specs.GroupLaw.{latest, next_displaced, was_stopped, BeginsWith, KeepsLaw};
ghost use Rattle.wf_value.specs.declared.outcome.Outcome.{Outcome};
ghost use Rattle.wf_value.specs.declared.outcome.Outcome.TheVariants.{Cancelled};
ghost use Rattle.table_laws.specs.GroupChanges.{Change, Matches, MayAllBe, MayBe, after_all, base_moves};
ghost use Rattle.table_laws.specs.GroupChanges.{beyond_base, changed, moves_of, moves_of_all};
ghost use Rattle.table_laws.specs.GroupLawTest.{keeps_law};
ghost use Rattle.table_model.specs.declared.holder.Holder.{Holder};
ghost use Rattle.table_laws.specs.Names.{Names};

// ---- what follows

/// Between two starts the first holder has ended.
/// Promise (Laws of the definitions): By the law one starts after the other has ended; only a later arrival displaces, and for good
/// By: `table_laws::group_laws::{a_group_is_free_before_the_next_start, a_displaced_holder_never_starts, an_end_is_final,
///   only_a_later_arrival_displaces}`
pub fn a_group_is_free_before_the_next_start()
    ensures { (cancels : Holder → Bool) (moves before between after : List Move) (h k : Holder) → KeepsLaw cancels moves
        → moves ≡ before ++ Move.start h ∷ (between ++ Move.start k ∷ after) → has_ended h between ≡ true }
{}

/// At no moment do two holders run.
/// Promise (Laws of the definitions): By the law at most one holder is in progress, and one pending but between an arrival and the end of the
///   one that it displaces
/// By: `table_laws::group_laws::{at_most_one_holder_runs, at_most_one_holder_is_pending, a_pending_holder_is_the_latest_arrival}`
pub fn at_most_one_holder_runs()
    ensures { (cancels : Holder → Bool) (moves before after : List Move) (h k : Holder) → KeepsLaw cancels moves
        → moves ≡ before ++ after → is_in_progress h before ≡ true → is_in_progress k before ≡ true → h ≡ k }
{}

/// At every moment a pending holder is the latest arrival, or the next move is its end as cancelled.
pub fn a_pending_holder_is_the_latest_arrival()
    ensures { (cancels : Holder → Bool) (moves before after : List Move) (h : Holder) → KeepsLaw cancels moves
        → moves ≡ before ++ after → is_pending h before ≡ true
        → (latest before ≡ Some h) ⊎ BeginsWith (Move.end_with Cancelled h ∷ []) after }
{}

/// Two holders are pending only if the next move is the end of one of them as cancelled.
pub fn at_most_one_holder_is_pending()
    ensures { (cancels : Holder → Bool) (moves before after : List Move) (h k : Holder) → KeepsLaw cancels moves
        → moves ≡ before ++ after → is_pending h before ≡ true → is_pending k before ≡ true
        → ((displaced : Holder) → BeginsWith (Move.end_with Cancelled displaced ∷ []) after → ⊥) → h ≡ k }
{}

/// A displaced holder never starts.
pub fn a_displaced_holder_never_starts()
    ensures { (cancels : Holder → Bool) (moves before after : List Move) (newcomer h : Holder) → KeepsLaw cancels moves
        → moves ≡ before ++ Move.arrive newcomer ∷ after → next_displaced before ≡ Some h → has_started h moves ≡ false }
{}

/// A holder that has ended does not start again.
pub fn an_end_is_final()
    ensures { (cancels : Holder → Bool) (moves before after : List Move) (h : Holder) → KeepsLaw cancels moves
        → moves ≡ before ++ after → has_ended h before ≡ true → has_started h after ≡ true → ⊥ }
{}

/// A holder that ends without a start and without a stop had arrived before the last arrival, which displaced it.
pub fn only_a_later_arrival_displaces()
    ensures { (cancels : Holder → Bool) (moves before after : List Move) (r : Outcome) (h : Holder) → KeepsLaw cancels moves
        → moves ≡ before ++ Move.end_with r h ∷ after → has_started h before ≡ false → was_stopped h before ≡ false
        → (earlier : List Move) × (newcomer : Holder) × (before ≡ earlier ++ Move.arrive newcomer ∷ [])
        × (has_arrived h earlier ≡ true) }
{}

// ---- single changes

/// The base moves, which stand for the holders that a group already has, satisfy the law and determine the state of the group.
/// Promise (Laws of the definitions): Every list of possible changes of one group keeps the law, and the test of the law is exact
/// By: `table_laws::group_laws::{a_base_keeps_the_law, each_change_keeps_the_law, any_changes_keep_the_law, the_test_of_the_law_is_exact}`
pub fn a_base_keeps_the_law()
    ensures law { (cancels : Holder → Bool) (g : GroupState)
        → ((h : Holder) → g.in_progress ≡ Some h → is_the g.pending h ≡ false) → KeepsLaw (beyond_base cancels g) (base_moves g) }
    ensures state { (cancels : Holder → Bool) (g : GroupState)
        → ((h : Holder) → g.in_progress ≡ Some h → is_the g.pending h ≡ false) → Matches g (base_moves g) }
{}

/// Each single change of a group preserves the law, and the moves determine the state after it.
pub fn each_change_keeps_the_law()
    ensures law { (cancels : Holder → Bool) (g : GroupState) (moves : List Move) (c : Change) → MayBe g moves c
        → KeepsLaw cancels moves → Matches g moves → KeepsLaw cancels (moves ++ moves_of cancels g c) }
    ensures state { (cancels : Holder → Bool) (g : GroupState) (moves : List Move) (c : Change) → MayBe g moves c
        → Matches g moves → Matches (changed cancels g c) (moves ++ moves_of cancels g c) }
{}

/// Any list of changes does so too.
pub fn any_changes_keep_the_law()
    ensures law { (cancels : Holder → Bool) (g : GroupState) (moves : List Move) (cs : List Change)
        → MayAllBe cancels g moves cs → KeepsLaw cancels moves → Matches g moves
        → KeepsLaw cancels (moves ++ moves_of_all cancels g cs) }
    ensures state { (cancels : Holder → Bool) (g : GroupState) (moves : List Move) (cs : List Change)
        → MayAllBe cancels g moves cs → Matches g moves
        → Matches (after_all cancels g cs) (moves ++ moves_of_all cancels g cs) }
{}

// ---- the test

/// The test of the law returns true exactly if the law holds.
pub fn the_test_of_the_law_is_exact()
    ensures yes { (cancels : Holder → Bool) (moves : List Move) → keeps_law cancels moves ≡ true → KeepsLaw cancels moves }
    ensures only { (cancels : Holder → Bool) (moves : List Move) → KeepsLaw cancels moves → keeps_law cancels moves ≡ true }
{}

// ---- names of holders

/// There are names that differ for different attempts and holders.
pub fn attempts_have_names()
    ensures { Names }
{}

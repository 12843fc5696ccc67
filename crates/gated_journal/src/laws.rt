//! Laws about areas.

ghost use Rattle.std.specs.Prelude.{◌≡◌, ◌⊎◌, ◌+◌, ◌<◌, ◌≤◌, ◌^◌, ℕ, List, [], ◌∷◌, ◌++◌, length, take};
ghost use Rattle.definitions.specs.Disk.{Torn};
ghost use Rattle.gated_journal.specs.Appends.{record_of, Appends};
ghost use Rattle.gated_journal.specs.CutOff.{EncodesNothing};
ghost use Rattle.definitions.specs.Area.{Head, IsClosed, Reads, ReadsNothing, WouldRead, opened};
ghost use Rattle.gated_journal.specs.TwoAreas.{start_of, other, area_on, Recovers};
ghost use Rattle.gated_journal.specs.declared.gate.GateState.{GateState};
ghost use Rattle.gated_journal.specs.declared.gate.GateState.TheVariants.{Open, Closed};
ghost use Rattle.gated_journal.specs.declared.side.Side.{Side};

/// An area reads as at most one head and one list of bodies.
/// Promise (Areas and records): An area reads as one header and one list of bodies at most, and what follows its first closed gate does not
///   count
/// By: `gated_journal::laws::{an_area_has_one_reading, nothing_counts_after_a_closed_gate}`
pub fn an_area_has_one_reading()
    ensures { (area : List ℕ) (head other : Head) (bodies others : List (List ℕ))
        → Reads area head bodies → Reads area other others → (head ≡ other) × (bodies ≡ others) }
{}

/// An area reads as nothing if it has no head after an open gate, or if it ends inside its records. A scan that returns `None` found one
/// of the two.
pub fn an_area_that_is_cut_off_reads_as_nothing()
    ensures { (area : List ℕ) → EncodesNothing area → ReadsNothing area }
{}

/// The bytes after an area's first closed gate do not affect what it reads as.
pub fn nothing_counts_after_a_closed_gate()
    ensures { (area other : List ℕ) (head : Head) (bodies : List (List ℕ)) → Reads area head bodies
        → take (length (opened head bodies) + 1) other ≡ take (length (opened head bodies) + 1) area → Reads other head bodies }
{}

/// An area that reads as a head and bodies is active if the gate of the other one is closed.
/// Promise (Laws of the definitions): Which area is active: the only open one; not changed by an append, a put after a closed gate, or a close
///   of the other gate
/// By: `gated_journal::laws::{the_only_open_area_is_active, an_append_changes_no_choice, a_put_changes_no_choice, a_close_changes_no_choice}`
pub fn the_only_open_area_is_active()
    ensures { (len : ℕ) (side : Side) (disk : List ℕ) (head : Head) (bodies : List (List ℕ))
        → len + len ≤ length disk → Reads (area_on len side disk) head bodies → IsClosed (area_on len (other side) disk)
        → Recovers len side Closed disk head bodies }
{}

/// An append to the active area, complete or not, keeps it active, with the old bodies or with the new one appended.
pub fn an_append_changes_no_choice()
    ensures { (len : ℕ) (side : Side) (gate : GateState) (old new : List ℕ) (head : Head) (bodies : List (List ℕ)) (body : List ℕ)
        → Recovers len side gate old head bodies → length body < 2 ^ 32
        → length (opened head bodies) + (length (record_of body) + 1) ≤ len
        → Appends (start_of len side + length (opened head bodies)) (record_of body) old new
        → Recovers len side gate new head bodies ⊎ Recovers len side gate new head (bodies ++ body ∷ []) }
{}

/// A put into the other area, after its closed gate, does not change what the disk reads as.
pub fn a_put_changes_no_choice()
    ensures { (len at count : ℕ) (side : Side) (old new : List ℕ) (head : Head) (bodies : List (List ℕ))
        → Recovers len side Closed old head bodies → 0 < at → at + count ≤ len
        → Torn (start_of len (other side) + at) count old new → Recovers len side Closed new head bodies }
{}

/// Closing the other area's open gate, even with a torn write, does not change what the disk reads as.
pub fn a_close_changes_no_choice()
    ensures { (len : ℕ) (side : Side) (old new : List ℕ) (head : Head) (bodies : List (List ℕ))
        → Recovers len side Open old head bodies → Torn (start_of len (other side)) 1 old new
        → Recovers len side Open new head bodies ⊎ Recovers len side Closed new head bodies }
{}

/// Opening the gate of a complete other area with a greater generation: the disk reads as before, or as that area does.
/// Promise (Laws of the definitions): Opening the gate of a whole newer area leaves one active area or the other
/// By: `gated_journal::laws::an_opened_gate_switches`
pub fn an_opened_gate_switches()
    ensures { (len : ℕ) (side : Side) (old new : List ℕ) (head next : Head) (bodies others : List (List ℕ))
        → Recovers len side Closed old head bodies → WouldRead (area_on len (other side) old) next others
        → head.generation < next.generation → Torn (start_of len (other side)) 1 old new
        → Recovers len side Closed new head bodies ⊎ Recovers len (other side) Open new next others }
{}

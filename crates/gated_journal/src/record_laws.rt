//! Laws for a loop that takes the records of an area one by one with `record_at`.

ghost use Rattle.std.specs.Prelude.{◌≡◌, ◌<◌, ◌^◌, ℕ, List, [], ◌∷◌, ◌++◌, length};
ghost use Rattle.std.specs.List.{AllByRecursion};
ghost use Rattle.definitions.specs.Area.{record_bytes};
ghost use Rattle.gated_journal.specs.Scanned.{OpensWith, Parts};

/// At first no record has been taken, and all bytes are left.
pub fn none_is_parted_at_first()
    ensures { (bytes : List ℕ) → Parts bytes [] bytes }
{}

/// Taking the next record appends its body to those taken.
pub fn next_record_is_parted()
    ensures { (bytes : List ℕ) (bodies : List (List ℕ)) (rest body past : List ℕ) → Parts bytes bodies rest → OpensWith rest body past
        → Parts bytes (bodies ++ body ∷ []) past }
{}

/// Once no record is left at the start, all have been taken.
pub fn all_are_parted_at_last()
    ensures { (bodies parted : List (List ℕ)) (rest : List ℕ) → AllByRecursion (λ body. length body < 2 ^ 32) bodies
        → Parts (record_bytes bodies) parted rest → ((body past : List ℕ) → OpensWith rest body past → ⊥) → parted ≡ bodies }
{}

//! When two names stand for the same group.
ghost use Rattle.std.specs.Prelude.{◌≡◌, ◌≢◌, ◌↔◌, ℕ, List, [], chars};
ghost use Rattle.caseless.specs.Caseless.{IsDefaultMatch};
ghost use Rattle.group_name.specs.Group.{group_of};

/// Two non-empty names stand for the same group if and only if their repositories have the same bytes and their default case
/// foldings have the same characters.
#[tactic(auto, using(crate::proofs::Folding::group_of_name))]
pub fn names_of_one_group()
    ensures { (repository other_repository name other_name : List ℕ) → name ≢ [] → other_name ≢ []
        → ((group_of repository name ≡ group_of other_repository other_name)
        ↔ ((repository ≡ other_repository) × IsDefaultMatch (chars name) (chars other_name))) }
{}

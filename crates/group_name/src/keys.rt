//! Groups as keys of a map: two keys are equal where they are the same group, and equal keys have one hash.
ghost use Rattle.std.specs.Prelude.{◌++◌, encode_utf8_all};
ghost use Rattle.std.specs.Cmp.{first_so, second_so};
ghost use Rattle.std.specs.Cmp.Rules.{comparing};
ghost use Rattle.std.specs.Hash as fed;
ghost use Rattle.std.proofs.Common.{ap₂, rules};
ghost use Rattle.std.proofs.lemmas.Slice.Eq.{bytes_eq-Decides};
ghost use Rattle.group_name.specs.Group.{same_group};
ghost use Rattle.group_name.specs.KeyTexts.{hashed};

use crate::group_key::GroupKey;
use std::hash::{Hash, Hasher};
use wf_value::Same;

impl PartialEq for GroupKey {
    ghost eq = { same_group };

    ghost laws = { Prim.search (comparing, rules) };

    #[tactic(auto, using(crate::proofs::SameGroups::tells_same))]
    fn eq(&self, other: &GroupKey) -> bool {
        self.same(other)
    }
}

impl Eq for GroupKey {
    ghost laws = { Prim.search (comparing, rules) };
}

impl Hash for GroupKey {
    ghost hash_input = { hashed };

    ghost respects_eq = { λ g h same. ap₂ (λ r f. fed.str r ++ fed.str (encode_utf8_all f))
        ((bytes_eq-Decides g.repository h.repository).0 (first_so _ _ same)) ((bytes_eq-Decides g.folded h.folded).0 (second_so _ _ same)) };

    fn hash<H: Hasher>(&self, state: &mut H) {
        self.repository().hash(state);
        self.name().hash(state);
    }
}

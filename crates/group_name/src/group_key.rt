ghost use Rattle.std.specs.Prelude.{◌≡◌, [], IsUtf8, chars, Ok, IfOk, None};
ghost use Rattle.group_name.specs.BoundGroup.{group_of_folded};
ghost use Rattle.group_name.specs.Group.{folded_name, group_of};
ghost use Rattle.group_name.specs.KeyTexts.{name_bytes, repository_bytes};
ghost use Rattle.wf_value.specs.Gives.{Gives};

use caseless::default_case_fold_str;
use std::alloc::Global;
use std::marker::Model;
use wf_value::{Chars, Refusal, Same, TryCopy};

/// A concurrency group: a repository and a case-folded name. In contracts it is the bytes of the repository, and the characters of
/// the name after default case folding (The Unicode Standard, section 3.13), which the crate `caseless` implements.
#[derive(Drop)]
pub struct GroupKey {
    repository: Chars,
    folded: Chars,
}

impl Model for GroupKey {
    ghost use Rattle.std.specs.Prelude.{chars};
    ghost use Rattle.std.specs.Prelude.{IsUtf8};
    ghost use Rattle.group_name.specs.Group.{Group, coded_group};

    ghost Value = { Group };

    ghost coded = { coded_group };

    ghost view = { λ k. record { repository = k.repository; folded = chars k.folded } };

    ghost invariant = { λ k. IsUtf8 k.folded };
}

impl GroupKey {
    /// The group of a name in a repository. An empty name gives `None`, which takes no memory. Its only `Err` is 50 (out of
    /// memory). GitHub Docs, "Control the concurrency of workflows and jobs".
    /// Promise (Concurrency groups): The group of a name is its repository with the name's default case folding; the empty name has none, memory
    ///   or not. Two names mean one group exactly where these are the same
    /// By: `group_name::GroupKey::of`, `gives`, `answers`; `group_name::laws::names_of_one_group`
    /// Refusal (The layers below): `group_name`: `GroupKey::of`, `BoundGroup::{of, key, room}`; `group_book`: `Book::{expect, copy}`
    /// When: 50, but not for the empty name
    /// Afterwards: the book is as it was
    /// By: `gives`, `answers`, `err`, `entries`, `expected`
    pub fn of(alloc: Global, repository: &str, name: &str) -> Result<Option<Self>, Refusal>
        ensures gives { Gives (λ k. k) result (Ok (group_of repository.now name.now)) }
        ensures answers { name.now ≡ [] → result ≡ Ok None }
    {
        if name.is_empty() {
            return Ok(None);
        }
        Ok(Some(GroupKey {
            repository: Chars::from_str(alloc, repository)?,
            folded: folded(alloc, name)?,
        }))
    }

    /// The group of a case-folded text; `None` for the empty text.
    pub(crate) fn of_folded(repository: Chars, folded: Chars) -> Option<Self>
        requires { IsUtf8 folded }
        ensures { result ≡ group_of_folded repository folded }
    {
        if folded.as_str().is_empty() {
            None
        } else {
            Some(GroupKey { repository, folded })
        }
    }

    /// The text of the repository.
    pub fn repository(&self) -> &str
        ensures { result.now ≡ repository_bytes self.now }
    {
        self.repository.as_str()
    }

    /// The text of the case-folded name.
    pub fn name(&self) -> &str
        ensures bytes { result.now ≡ name_bytes self.now }
        ensures characters { chars (name_bytes self.now) ≡ self.now.folded }
    {
        self.folded.as_str()
    }
}

/// The case-folded name.
pub(crate) fn folded(alloc: Global, name: &str) -> Result<Chars, Refusal>
    ensures gives { Gives chars result (Ok (folded_name name.now)) }
    ensures utf8 { IfOk result IsUtf8 }
{
    let folding = default_case_fold_str(alloc, name)?;
    Ok(Chars::new(folding))
}

impl Same for GroupKey {
    /// Whether both are the same group.
    /// Promise (Concurrency groups): Keys are the same, by comparison and hash, exactly where they are one group; a copy is equal
    /// By: `group_name::GroupKey::{same, copy}`, and what it is as a key of a map (`same_group`)
    #[tactic(auto, using(crate::proofs::Folding::same_groups))]
    fn same(&self, other: &Self) -> bool {
        self.repository.same(&other.repository) && self.folded.same(&other.folded)
    }
}

impl TryCopy for GroupKey {
    fn copy(&self, alloc: Global) -> Result<Self, Refusal> {
        Ok(GroupKey {
            repository: self.repository.copy(alloc)?,
            folded: self.folded.copy(alloc)?,
        })
    }
}

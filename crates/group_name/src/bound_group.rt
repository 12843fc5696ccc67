ghost use Rattle.std.specs.Prelude.{◌≡◌, ◌↔◌, IsTrue, IsSome, IsUtf8, map, Ok, IfOk};
ghost use Rattle.group_name.specs.BoundGroup.{AreTexts, HasRoomFor, bound_group, folded_piece, group_at};
ghost use Rattle.group_name.specs.Group.{group_of};
ghost use Rattle.wf_expr.specs.Bound.{Results, bound_text};
ghost use Rattle.wf_value.specs.Gives.{ErrsOnlyByMemory, Gives};

use crate::bound_pieces::same_pieces;
use crate::group_key::{GroupKey, folded};
use crate::key_room::KeyRoom;
use std::alloc::Global;
use std::marker::Model;
use wf_expr::{BoundPiece, BoundTemplate, NeedResults};
use wf_value::{Chars, Refusal, Same, TryCopy};

/// The case-folded name of a concurrency group in a repository, bound before the results of needs are known. Given the results, it
/// names a group, or none. In contracts it is the repository's bytes and the name's pieces.
#[derive(Drop)]
pub struct BoundGroup {
    repository: Chars,
    name: BoundTemplate,
}

impl Model for BoundGroup {
    ghost use Rattle.group_name.specs.BoundGroup.{AreTexts, BoundName, coded_name};

    ghost Value = { BoundName };

    ghost coded = { coded_name };

    ghost view = { λ g. record { repository = g.repository; pieces = g.name } };

    ghost invariant = { λ g. AreTexts g.name };
}

/// A piece with case-folded text.
fn folded_piece(alloc: Global, piece: &BoundPiece) -> Result<BoundPiece, Refusal>
    ensures gives { Gives (λ p. p) result (Ok (folded_piece piece.now)) }
    ensures utf8 { IfOk result (λ p. IsUtf8 p.otherwise × IsUtf8 piece.now.otherwise) }
{
    Ok(BoundPiece {
        needs: piece.needs.copy(alloc)?,
        otherwise: folded(alloc, piece.otherwise.as_str())?,
    })
}

fn folded_pieces(alloc: Global, pieces: &[BoundPiece]) -> Result<Vec<BoundPiece>, Refusal>
    ensures gives { Gives (λ v. v.items) result (Ok (map folded_piece pieces.now)) }
    ensures utf8 { IfOk result (λ v. AreTexts v.items × AreTexts pieces.now) }
{
    let mut folded = Vec::with_capacity(alloc, pieces.len())?;
    for piece in pieces {
        folded.push(folded_piece(alloc, piece)?)?;
    }
    Ok(folded)
}

/// The concatenated texts of the pieces, given the results.
fn text_by<R: NeedResults>(
    alloc: Global,
    pieces: &[BoundPiece],
    results: &R,
) -> Result<Chars, Refusal>
    ensures gives { Gives (λ t. t) result (Ok (bound_text (R.result_of results.now) pieces.now)) }
    ensures utf8 { IfOk result IsUtf8 }
{
    let mut text = String::new(alloc);
    for piece in pieces {
        text.push_str(piece.text(results))?;
    }
    Ok(Chars::new(text))
}

impl BoundGroup {
    /// The group that a bound name stands for in a repository, for any results. Its only `Err` is 50 (out of memory). GitHub Docs,
    /// "Control the concurrency of workflows and jobs".
    /// Promise (Concurrency groups): A bound name means, by any results of needs, the group of its text
    /// By: `group_name::BoundGroup::of`, `gives`, `group`
    pub fn of(alloc: Global, repository: &str, name: &BoundTemplate) -> Result<Self, Refusal>
        ensures gives { Gives (λ g. g) result (Ok (bound_group repository.now name.now)) }
        ensures group { IfOk result (λ g. (results : Results)
            → group_at results g ≡ group_of repository.now (bound_text results name.now)) }
    {
        let pieces = folded_pieces(alloc, name.pieces())?;
        Ok(BoundGroup {
            repository: Chars::from_str(alloc, repository)?,
            name: BoundTemplate::new(pieces),
        })
    }

    /// The group of the name, given the results; `None` if the name is empty. Its only `Err` is 50 (out of memory).
    /// Promise (Concurrency groups): The group of a bound name can be had by results, also in memory that was taken before they are known
    /// By: `group_name::BoundGroup::{key, room, key_in}`
    pub fn key<R: NeedResults>(
        &self,
        alloc: Global,
        results: &R,
    ) -> Result<Option<GroupKey>, Refusal>
        ensures { Gives (λ k. k) result (Ok (group_at (R.result_of results.now) self.now)) }
    {
        let repository = self.repository.copy(alloc)?;
        let text = text_by(alloc, self.name.pieces(), results)?;
        Ok(GroupKey::of_folded(repository, text))
    }

    /// Takes the memory for the key that the name gives, whatever the results. Its only `Err` is 50 (out of memory).
    pub fn room(&self, alloc: Global) -> Result<KeyRoom, Refusal>
        ensures err { ErrsOnlyByMemory result }
        ensures room { IfOk result (HasRoomFor self.now) }
    {
        KeyRoom::take(alloc, &self.repository, self.name.pieces())
    }

    /// The group of the name, given the results, in memory that was taken for it; `None` if the name is empty.
    pub fn key_in<R: NeedResults>(&self, room: KeyRoom, results: &R) -> Option<GroupKey>
        requires { HasRoomFor self.now room }
        ensures { result ≡ group_at (R.result_of results.now) self.now }
    {
        room.filled(self.name.pieces(), results)
    }

    /// Whether the name stands for a group, given the results, that is, whether it is not empty. It takes no memory.
    /// Promise (Concurrency groups): Whether a bound name means a group, whether two mean the same, and whether two are the same whatever the
    ///   results, is answered memory or not
    /// By: `group_name::BoundGroup::{has_group, same, is_same_name, copy}`; `group_name::same_pieces`
    pub fn has_group<R: NeedResults>(&self, results: &R) -> bool
        ensures { IsTrue result ↔ IsSome (group_at (R.result_of results.now) self.now) }
    {
        self.name.has_text(results)
    }

    /// Whether the name stands for a group, given the results, and the other name stands for the same group, given its own results.
    /// It takes no memory.
    pub fn same<R: NeedResults, S: NeedResults>(
        &self,
        results: &R,
        other: &Self,
        other_results: &S,
    ) -> bool
        ensures { IsTrue result ↔ (IsSome (group_at (R.result_of results.now) self.now)
            × (group_at (R.result_of results.now) self.now ≡ group_at (S.result_of other_results.now) other.now)) }
    {
        self.has_group(results)
            && self.repository.same(&other.repository)
            && self.name.is_same_text(results, &other.name, other_results)
    }

    /// Whether both are the same name in the same repository, so that they stand for the same group whatever the results.
    pub fn is_same_name(&self, other: &Self) -> bool
        ensures { IsTrue result ↔ (self.now ≡ other.now) }
    {
        self.repository.same(&other.repository)
            && same_pieces(self.name.pieces(), other.name.pieces())
    }
}

impl TryCopy for BoundGroup {
    fn copy(&self, alloc: Global) -> Result<Self, Refusal> {
        Ok(BoundGroup {
            repository: self.repository.copy(alloc)?,
            name: self.name.copy(alloc)?,
        })
    }
}

//! Memory for the key of a group whose name depends on results, taken before they are known.
ghost use Rattle.std.specs.Prelude.{◌≡◌, ◌≤◌, ◌+◌, ◌++◌, IfOk, IfSome, length, string_bytes, string_capacity, string_len};
ghost use Rattle.wf_value.specs.Gives.{ErrsOnlyByMemory};
ghost use Rattle.wf_expr.specs.Bound.{bound_text};
ghost use Rattle.group_name.specs.BoundGroup.{group_of_folded, most_bytes};

use crate::group_key::GroupKey;
use std::alloc::Global;
use std::marker::Model;
use wf_expr::{BoundPiece, NeedResults};
use wf_value::{Chars, Code, Refusal, TryCopy};

/// No word of a result is longer than `cancelled`.
const LONGEST_WORD: usize = 9;

/// Memory for the key of a group. In contracts it is the repository's bytes, and how many bytes of a name it has room for.
#[derive(Drop)]
pub struct KeyRoom {
    repository: Chars,
    name: String,
}

impl Model for KeyRoom {
    ghost use Rattle.std.specs.Prelude.{◌≡◌, [], string_bytes, string_capacity, string_len};
    ghost use Rattle.group_name.specs.BoundGroup.{Room, coded_room};

    ghost Value = { Room };

    ghost coded = { coded_room };

    ghost view = { λ r. record { repository = r.repository; capacity = string_capacity r.name } };

    ghost invariant = { λ r. (string_bytes r.name ≡ []) × (string_len r.name ≡ 0) };
}

impl KeyRoom {
    /// Memory for each key that these pieces give in a repository, whatever the results.
    pub(crate) fn take(
        alloc: Global,
        repository: &Chars,
        pieces: &[BoundPiece],
    ) -> Result<Self, Refusal>
        ensures err { ErrsOnlyByMemory result }
        ensures repository { IfOk result (λ r. r.repository ≡ repository.now) }
        ensures capacity { IfOk result (λ r. most_bytes pieces.now ≤ r.capacity) }
    {
        let Some(most) = most_bytes(pieces) else {
            return Err(Refusal::Numbered(Code::NoMemory));
        };
        Ok(KeyRoom {
            repository: repository.copy(alloc)?,
            name: String::with_capacity(alloc, most)?,
        })
    }

    /// The key that the pieces give with the results; `None` if the name is empty. It takes no memory.
    pub(crate) fn filled<R: NeedResults>(
        self,
        pieces: &[BoundPiece],
        results: &R,
    ) -> Option<GroupKey>
        requires { most_bytes pieces.now ≤ self.capacity }
        ensures { result ≡ group_of_folded self.repository (bound_text (R.result_of results.now) pieces.now) }
    {
        let KeyRoom {
            repository,
            mut name,
        } = self;
        for piece in pieces {
            push_within(&mut name, piece.text(results));
        }
        GroupKey::of_folded(repository, Chars::new(name))
    }
}

/// The most bytes that the pieces give, whatever the results, if a text can have as many.
fn most_bytes(pieces: &[BoundPiece]) -> Option<usize>
    ensures { IfSome result (λ n. n ≡ most_bytes pieces.now) }
{
    let mut most: usize = 0;
    for piece in pieces {
        most = most.checked_add(piece.otherwise.as_str().len().max(LONGEST_WORD))?;
    }
    Some(most)
}

/// Appends to a text that has room.
fn push_within(text: &mut String, more: &str)
    requires { string_len text.old + length more.now ≤ string_capacity text.old }
    ensures bytes { string_bytes text.new ≡ string_bytes text.old ++ more.now }
    ensures len { string_len text.new ≡ string_len text.old + length more.now }
    ensures capacity { string_capacity text.old ≤ string_capacity text.new }
{
    match text.push_str(more) {
        Ok(()) => {}
        Err(_) => unreachable!(),
    }
}

impl TryCopy for KeyRoom {
    fn copy(&self, alloc: Global) -> Result<Self, Refusal> {
        Ok(KeyRoom {
            repository: self.repository.copy(alloc)?,
            name: String::with_capacity(alloc, self.name.capacity())?,
        })
    }
}

//! Steps on the book of a desk.

ghost use Rattle.std.specs.Prelude.{◌≡◌};
ghost use mathlib.Core.List.{IsPrefix};
ghost use Rattle.logbook.specs.Pages.{may_write};
ghost use Rattle.act_desk.specs.inner.Lines.{IsUnused, head_of};

use crate::book_rules::{BookRule, Look, NoResource, Reserve};
use crate::event::Note;
use logbook::{Offer, Pen, Seen, Word};

pub(crate) type BookWord = Word<Note, u64, BookRule>;

pub(crate) type SeenBook = Seen<Note, u64, BookRule>;

/// Makes a token, with a key that no note has.
pub(crate) fn reserve(word: &BookWord, seen: &mut SeenBook) -> Pen
    requires { word.now ≡ head_of seen.old.book }
    ensures seen { (seen.new.book ≡ seen.old.book) × IsPrefix seen.old.log seen.new.log }
    ensures token { (result.book ≡ seen.old.book) × (result.nib.right ≡ may_write) × IsUnused result.nib.key seen.new.log }
{
    let mut offer: Offer<Note, u64, BookRule, NoResource> = seen.plain::<NoResource, (), Look>(&());
    let mut token = seen.no_pen();
    word.compare_exchange::<Reserve, NoResource>(0, 0, seen, &mut offer, &mut token);
    drop(BookWord::tracked(0, &mut token));
    token
}

/// Sees the whole book, in which no note has the key of a token.
pub(crate) fn look(word: &BookWord, seen: &mut SeenBook, token: &mut Pen)
    requires word { word.now ≡ head_of seen.old.book }
    requires token { (token.old.book ≡ seen.old.book) × (token.old.nib.right ≡ may_write) }
    ensures seen { (seen.new.book ≡ seen.old.book) × IsPrefix seen.old.log seen.new.log }
    ensures token { (token.new.book ≡ token.old.book) × (token.new.nib ≡ token.old.nib) }
    ensures unused { IsUnused token.old.nib.key seen.new.log }
{
    let mut offer: Offer<Note, u64, BookRule, NoResource> = seen.plain::<NoResource, (), Look>(&());
    word.compare_exchange::<Look, NoResource>(0, 0, seen, &mut offer, token);
}

//! The comparison of the history with what the sessions submitted. It takes no memory.

ghost use Rattle.std.specs.Prelude.{◌≡◌, ◌≢◌, ◌<◌, ◌≤◌, ◌+◌, ℕ, List, [], ◌∷◌, ◌++◌, ◌==◌, ◌||◌, All, get_or, is_ok, length, take, false, true, IfNone, IfSome, None, Some};
ghost use mathlib.Core.List.{IsPrefix};
ghost use Rattle.act_sessions.specs.Exchange.{leaves_open as leaves, exchanges_in, is_one_of};
ghost use Rattle.act_sessions.specs.declared.transcript.LoggedExchange.{LoggedExchange as AskedOne};
ghost use Rattle.act_desk.specs.Settled.{Agrees, AreCovered, AreDefinite, IsOfLast, IsSettled, MayBegin, NoneBroken, entries_of, if_any, is_definite as definite, part_of, unentered_codes};

use act_disk::Disk;
use act_sessions::{Ending, LoggedExchange, Transcript, leaves_open};
use act_store::{Entry, Store};
use run_plan::Reply;
use std::marker::Model;
use std::snapshot::Snapshot;
use wf_value::{Code, Refusal, Same};

/// How far a list of submitted commands was found in the history: `asked` first ones, and perhaps the entry of the last one after them.
#[derive(Drop)]
struct HistoryMatch {
    asked: usize,
    over: Option<Snapshot<Entry>>,
}

impl Model for HistoryMatch {
    ghost use Rattle.std.specs.Prelude.{option_map};
    ghost use Rattle.act_desk.specs.Settled.{Progress};

    ghost Value = { Progress };

    ghost view = { λ f. record { asked = f.asked; over = option_map (λ s. s.value) f.over } };
}

impl HistoryMatch {
    /// The first ones, and nothing else.
    fn first(asked: usize) -> HistoryMatch
        ensures { result ≡ record { asked = asked; over = None } }
    {
        HistoryMatch { asked, over: None }
    }

    /// All of them, and the entry of the last one.
    fn all_and_over(asked: usize, entry: &Entry) -> HistoryMatch
        ensures { result ≡ record { asked = asked; over = Some entry.now } }
    {
        HistoryMatch {
            asked,
            over: Some(Snapshot::of(entry)),
        }
    }
}

/// Whether an answer settles if its command was entered: a reply does, and so do 46, 47 and 57.
fn is_definite(answer: &Result<Reply, Refusal>) -> bool
    ensures { result ≡ definite answer.now }
{
    match answer {
        Ok(_) => true,
        Err(refusal) => is_of_a_full_store(refusal),
    }
}

fn is_of_a_full_store(refusal: &Refusal) -> bool
    ensures { result ≡ is_one_of unentered_codes refusal.now }
{
    matches!(
        refusal,
        Refusal::Numbered(Code::HistoryFull | Code::AreaFull | Code::OldLayout)
    )
}

/// Whether each answer settles if its command was entered.
fn are_definite(asked: &[LoggedExchange]) -> bool
    ensures each { result ≡ true → ((k : ℕ) (one : AskedOne) → k < length asked.now → definite (get_or asked.now k one).answer ≡ true) }
    ensures not_each { result ≡ false → ((k : ℕ) (one : AskedOne) → k < length asked.now → definite (get_or asked.now k one).answer ≡ true) → ⊥ }
{
    for one in asked {
        if !is_definite(&one.answer) {
            return false;
        }
    }
    true
}

/// Whether an answer may be the last one: it settles if its command was entered, or leaves that unknown as only the last answer may.
fn may_be_last(answer: &Result<Reply, Refusal>) -> bool
    ensures { result ≡ (definite answer.now || leaves answer.now) }
{
    is_definite(answer) || leaves_open(answer)
}

/// Whether each answer settles if its command was entered, except perhaps the last one, which may leave that unknown.
fn may_be_answered(asked: &[LoggedExchange]) -> bool
    ensures definite { result ≡ true → AreDefinite (exchanges_in asked.now) }
    ensures other { result ≡ false → AreDefinite (exchanges_in asked.now) → ⊥ }
{
    match asked.split_last() {
        None => true,
        Some((last, prefix)) => {
            if !may_be_last(&last.answer) {
                return false;
            }
            are_definite(prefix)
        }
    }
}

/// The next position with a reply.
fn skip(asked: &[LoggedExchange], at: usize) -> usize
    requires { at ≤ length asked.now }
    ensures within { result ≤ length asked.now }
    ensures none { (seat : ℕ) → entries_of seat (exchanges_in (take result asked.now)) ≡ entries_of seat (exchanges_in (take at asked.now)) }
    ensures reply { result < length asked.now → (one : AskedOne) → is_ok (get_or asked.now result one).answer ≡ true }
{
    for i in at..asked.len() {
        if asked[i].answer.is_ok() {
            return i;
        }
    }
    asked.len()
}

/// Whether an entry of the seat may be that of the last command.
fn is_of_last(asked: &[LoggedExchange], seat: u64, entry: &Entry) -> bool
    requires { entry.now.seat ≡ seat }
    ensures last { result ≡ true → IsOfLast seat (exchanges_in asked.now) entry.now }
    ensures other { result ≡ false → IsOfLast seat (exchanges_in asked.now) entry.now → ⊥ }
{
    let Some(last) = asked.last() else {
        return false;
    };
    leaves_open(&last.answer) && last.command.same(&entry.command)
}

/// Finds one more entry, or skips an entry of another seat.
fn find(
    asked: &[LoggedExchange],
    seat: u64,
    entry: &Entry,
    found: HistoryMatch,
) -> Option<HistoryMatch>
    requires within { found.asked ≤ length asked.now }
    requires over { IfSome found.over (IsOfLast seat (exchanges_in asked.now)) }
    requires all { IfSome found.over (λ e. found.asked ≡ length asked.now) }
    ensures within { IfSome result (λ f. f.asked ≤ length asked.now) }
    ensures more { IfSome result (λ f. entries_of seat (exchanges_in (take f.asked asked.now)) ++ if_any f.over
        ≡ (entries_of seat (exchanges_in (take found.asked asked.now)) ++ if_any found.over) ++ part_of seat (entry.now ∷ [])) }
    ensures over { IfSome result (λ f. IfSome f.over (IsOfLast seat (exchanges_in asked.now))) }
    ensures all { IfSome result (λ f. IfSome f.over (λ e. f.asked ≡ length asked.now)) }
    ensures other { IfNone result (MayBegin seat (exchanges_in asked.now)
        ((entries_of seat (exchanges_in (take found.asked asked.now)) ++ if_any found.over) ++ part_of seat (entry.now ∷ [])) → ⊥) }
{
    if entry.seat != seat {
        return Some(found);
    }
    find_next(asked, seat, entry, found)
}

/// Finds one more entry of the seat.
fn find_next(
    asked: &[LoggedExchange],
    seat: u64,
    entry: &Entry,
    found: HistoryMatch,
) -> Option<HistoryMatch>
    requires seat { entry.now.seat ≡ seat }
    requires within { found.asked ≤ length asked.now }
    requires all { IfSome found.over (λ e. found.asked ≡ length asked.now) }
    ensures within { IfSome result (λ f. f.asked ≤ length asked.now) }
    ensures more { IfSome result (λ f. entries_of seat (exchanges_in (take f.asked asked.now)) ++ if_any f.over
        ≡ (entries_of seat (exchanges_in (take found.asked asked.now)) ++ if_any found.over) ++ entry.now ∷ []) }
    ensures over { IfSome result (λ f. IfSome f.over (IsOfLast seat (exchanges_in asked.now))) }
    ensures all { IfSome result (λ f. IfSome f.over (λ e. f.asked ≡ length asked.now)) }
    ensures other { IfNone result (MayBegin seat (exchanges_in asked.now)
        ((entries_of seat (exchanges_in (take found.asked asked.now)) ++ if_any found.over) ++ entry.now ∷ []) → ⊥) }
{
    if found.over.is_some() {
        return None;
    }
    let at = skip(asked, found.asked);
    if at < asked.len() {
        return find_reply(asked, seat, entry, at);
    }
    if !is_of_last(asked, seat, entry) {
        return None;
    }
    Some(HistoryMatch::all_and_over(at, entry))
}

/// Finds the entry of the command at a position, with its reply.
fn find_reply(asked: &[LoggedExchange], seat: u64, entry: &Entry, at: usize) -> Option<HistoryMatch>
    requires seat { entry.now.seat ≡ seat }
    requires within { at < length asked.now }
    requires reply { (one : AskedOne) → is_ok (get_or asked.now at one).answer ≡ true }
    ensures within { IfSome result (λ f. f.asked ≤ length asked.now) }
    ensures more { IfSome result (λ f. entries_of seat (exchanges_in (take f.asked asked.now)) ++ if_any f.over
        ≡ entries_of seat (exchanges_in (take at asked.now)) ++ entry.now ∷ []) }
    ensures over { IfSome result (λ f. f.over ≡ None) }
    ensures other { IfNone result (MayBegin seat (exchanges_in asked.now) (entries_of seat (exchanges_in (take at asked.now)) ++ entry.now ∷ []) → ⊥) }
{
    let one = &asked[at];
    let Ok(reply) = &one.answer else {
        return None;
    };
    if !one.command.same(&entry.command) || !reply.same(&entry.reply) {
        return None;
    }
    Some(HistoryMatch::first(at + 1))
}

/// Finds the entries from one position to another one, or skips those of other seats.
fn follow<D: Disk>(
    store: &Store<D>,
    seat: u64,
    asked: &[LoggedExchange],
    found: HistoryMatch,
    from: u64,
    to: u64,
) -> Option<HistoryMatch>
    requires range { (from ≤ to) × (to ≤ length store.now.history) }
    requires within { found.asked ≤ length asked.now }
    requires part { part_of seat (take from store.now.history) ≡ entries_of seat (exchanges_in (take found.asked asked.now)) ++ if_any found.over }
    requires over { IfSome found.over (IsOfLast seat (exchanges_in asked.now)) }
    requires all { IfSome found.over (λ e. found.asked ≡ length asked.now) }
    ensures within { IfSome result (λ f. f.asked ≤ length asked.now) }
    ensures part { IfSome result (λ f. part_of seat (take to store.now.history)
        ≡ entries_of seat (exchanges_in (take f.asked asked.now)) ++ if_any f.over) }
    ensures over { IfSome result (λ f. IfSome f.over (IsOfLast seat (exchanges_in asked.now))) }
    ensures all { IfSome result (λ f. IfSome f.over (λ e. f.asked ≡ length asked.now)) }
    ensures other { IfNone result (MayBegin seat (exchanges_in asked.now) (part_of seat (take to store.now.history)) → ⊥) }
{
    let mut found = found;
    for index in from..to {
        let entry = store.entry(index + 1)?;
        found = find(asked, seat, entry, found)?;
    }
    Some(found)
}

/// Whether the entries of a seat are what its session submitted, and its answers leave nothing else unknown. Each command that got a reply
/// has to be among the covered entries.
fn agrees<D: Disk>(store: &Store<D>, covered: u64, seat: u64, asked: &[LoggedExchange]) -> bool
    requires { covered ≤ length store.now.history }
    ensures agrees { result ≡ true → Agrees seat (exchanges_in asked.now) store.now.history }
    ensures covered { result ≡ true → IsPrefix (entries_of seat (exchanges_in asked.now)) (part_of seat (take covered store.now.history)) }
    ensures other { result ≡ false → Agrees seat (exchanges_in asked.now) store.now.history
        → IsPrefix (entries_of seat (exchanges_in asked.now)) (part_of seat (take covered store.now.history)) → ⊥ }
{
    if !may_be_answered(asked) {
        return false;
    }
    let Some(first) = follow(store, seat, asked, HistoryMatch::first(0), 0, covered) else {
        return false;
    };
    if skip(asked, first.asked) != asked.len() {
        return false;
    }
    match follow(store, seat, asked, first, covered, store.entries()) {
        Some(found) => skip(asked, found.asked) == asked.len(),
        None => false,
    }
}

/// Whether all entries belong to the first `seats` seats.
fn are_of_first<D: Disk>(store: &Store<D>, seats: u64) -> bool
    ensures of_first { result ≡ true → All (λ e. e.seat < seats) store.now.history }
    ensures other { result ≡ false → All (λ e. e.seat < seats) store.now.history → ⊥ }
{
    for index in 0..store.entries() {
        match store.entry(index + 1) {
            Some(entry) if entry.seat < seats => {}
            _ => return false,
        }
    }
    true
}

/// Whether each seat's part of the history is what its session submitted, with all its replies among the covered entries, and there is no
/// other part.
pub(crate) fn is_settled<D: Disk>(
    store: &Store<D>,
    covered: u64,
    transcripts: &[Transcript],
) -> bool
    requires { covered ≤ length store.now.history }
    ensures settled { result ≡ true → IsSettled transcripts.now store.now.history }
    ensures covered { result ≡ true → AreCovered transcripts.now (take covered store.now.history) }
    ensures other { result ≡ false → IsSettled transcripts.now store.now.history → AreCovered transcripts.now (take covered store.now.history) → ⊥ }
{
    for k in 0..transcripts.len() {
        if !agrees(store, covered, k as u64, transcripts[k].asked.as_slice()) {
            return false;
        }
    }
    are_of_first(store, transcripts.len() as u64)
}

/// Whether a session's reader or writer failed.
pub(crate) fn any_broken(transcripts: &[Transcript]) -> bool
    ensures some { result ≡ true → NoneBroken transcripts.now → ⊥ }
    ensures none { result ≡ false → NoneBroken transcripts.now }
{
    for transcript in transcripts {
        if is_broken(transcript) {
            return true;
        }
    }
    false
}

fn is_broken(transcript: &Transcript) -> bool
    ensures broken { result ≡ true → transcript.now.ending ≡ Ending.Broken }
    ensures whole { result ≡ false → transcript.now.ending ≢ Ending.Broken }
{
    transcript.ending == Ending::Broken
}

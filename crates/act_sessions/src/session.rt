ghost use Rattle.std.specs.Prelude.{Option, ◌≡◌, ◌<◌, ◌≤◌, ◌++◌, ℕ, List, IfOk, IfErr, length};
ghost use Rattle.act_sessions.specs.Ends.{HasFailed, HasFinished};
ghost use Rattle.act_sessions.specs.Session.{moment, Goes, IsPart, Moment, Position};
ghost use Rattle.act_sessions.specs.Exchange.{AreAsked, OnlyLastOpen, Exchange, exchanges_by};
ghost use Rattle.act_sessions.specs.inner.Turns.{EndsRound, Aborts, Says, TakesTurn};

use crate::answer::Answer;
use crate::error::SessionError;
use crate::held_bytes::HeldBytes;
use crate::input::await_request;
use crate::output::respond;
use crate::protocol::Protocol;
use crate::request::Request;
use crate::transcript::{Ending, Part, SessionFault, Transcript};
use crate::turn::take_turn;
use std::alloc::Global;
use std::io::{Read, Write};

/// Writes a text, and returns `last`.
fn say<W: Write>(
    writer: &mut W,
    transcript: &mut Transcript,
    text: &[u8],
    last: bool,
) -> Result<bool, SessionError>
    ensures written { (asked : List Exchange) → Says (moment (W.contents writer.old) asked transcript.old)
        (moment (W.contents writer.new) asked transcript.new) text.now last result }
    ensures asked { transcript.new.asked ≡ transcript.old.asked }
{
    respond(writer, transcript, text)?;
    Ok(last)
}

/// Takes a turn, and writes its text. Returns whether it is the last of the session.
fn write_turn<P: Protocol, W: Write, A: Answer>(
    alloc: Global,
    writer: &mut W,
    answerer: &mut A,
    transcript: &mut Transcript,
    request: Request<P::Fault>,
    count: u64,
) -> Result<bool, SessionError>
    requires { count < P.rules.most }
    ensures { TakesTurn P.rules count request
        (moment (W.contents writer.old) (A.asked answerer.old) transcript.old)
        (moment (W.contents writer.new) (A.asked answerer.new) transcript.new) result }
{
    match take_turn::<P, Transcript, A>(alloc, transcript, answerer, request, count) {
        Some(text) => say(writer, transcript, &text.bytes, text.last),
        None => Err(SessionError::Memory),
    }
}

/// Ends a session that cannot continue. Running out of memory is reported if the protocol has a response for it; otherwise the session
/// ends with a fault.
fn abort<P: Protocol, W: Write>(
    writer: &mut W,
    transcript: &mut Transcript,
    error: SessionError,
) -> Ending
    ensures { (asked : List Exchange) → Aborts P.rules error (moment (W.contents writer.old) asked transcript.old)
        (moment (W.contents writer.new) asked transcript.new) result }
{
    match (error, P::out_of_memory_response()) {
        (SessionError::Memory, Some(text)) => match respond(writer, transcript, text) {
            Ok(()) => Ending::Done,
            Err(_) => Ending::Broken,
        },
        (SessionError::Memory, None) => Ending::Memory,
        (SessionError::Broken, _) => Ending::Broken,
    }
}

/// Waits for one request and answers it. Returns whether it is the last of the session, or `None` at the end of the input.
fn take_round<P: Protocol, R: Read, W: Write, A: Answer>(
    alloc: Global,
    reader: &mut R,
    writer: &mut W,
    answerer: &mut A,
    held: &mut HeldBytes<P>,
    transcript: &mut Transcript,
    count: u64,
) -> Result<Option<bool>, SessionError>
    requires room { count < P.rules.most }
    requires held { length held.old ≤ P.rules.limit }
    ensures { (from : Position) (input : Option (List ℕ)) (begin : Moment)
        → Goes P.rules from input (R.remaining reader.old) begin (moment (W.contents writer.old) (A.asked answerer.old) transcript.old)
        (record { turns = count; held = held.old })
        → EndsRound P.rules from input (R.remaining reader.new) begin (moment (W.contents writer.new) (A.asked answerer.new) transcript.new)
        held.new count result }
{
    match await_request::<P, R>(alloc, reader, held)? {
        Some(request) => {
            let last = write_turn::<P, W, A>(alloc, writer, answerer, transcript, request, count)?;
            Ok(Some(last))
        }
        None => Ok(None),
    }
}

/// Continues a session, after `count` turns and with the bytes that are held, to the end of the input or of the session. What it submits
/// is appended to the transcript. The transcript's ending does not change.
///
/// If it waits, the count and the bytes that are held are the place to continue from once there are more bytes.
/// Promise (Sessions): A part of a session goes from one place to the next by the bytes held and read
/// By: `act_sessions::run_part`, `part` (`IsPart`), `waits`
/// Promise (Sessions): In a part, what was asked is what the transcript lists, in order, each once; only the last answer may leave its command
///   open
/// By: `act_sessions::run_part`, `exchanges` (`OnlyLastOpen`)
pub fn run_part<P: Protocol, R: Read, W: Write, A: Answer>(
    alloc: Global,
    reader: &mut R,
    writer: &mut W,
    answerer: &mut A,
    held: &mut HeldBytes<P>,
    count: &mut u64,
    transcript: &mut Transcript,
) -> Part
    requires room { count.old < P.rules.most }
    requires held { length held.old ≤ P.rules.limit }
    ensures part { IsPart P.rules (record { turns = count.old; held = held.old }) (R.remaining reader.old) (R.remaining reader.new)
        (moment (W.contents writer.old) (A.asked answerer.old) transcript.old)
        (moment (W.contents writer.new) (A.asked answerer.new) transcript.new)
        (record { turns = count.new; held = held.new }) result }
    // What follows for an observer who knows nothing of the bytes.
    ensures exchanges { (exchanges : List Exchange) × AreAsked (A.asked answerer.old) (A.asked answerer.new) exchanges
        × (exchanges_by transcript.new ≡ exchanges_by transcript.old ++ exchanges) × OnlyLastOpen exchanges }
    ensures waits { result ≡ Part.AwaitsInput → (count.new < P.rules.most) × (length held.new ≤ P.rules.limit) }
{
    let _written = transcript.written;
    'rounds: for turns in *count..P::most() {
        match take_round::<P, R, W, A>(alloc, reader, writer, answerer, held, transcript, turns) {
            Ok(Some(true)) => return Part::Over(Ending::Done),
            Ok(Some(false)) => {}
            Ok(None) => {
                *count = turns;
                return Part::AwaitsInput;
            }
            Err(error) => return Part::Over(abort::<P, W>(writer, transcript, error)),
        }
    }
    unreachable!()
}

/// Reads requests from a byte stream, submits their commands and writes the answers until the session ends. Memory to record a command and
/// its copy is reserved before the command is submitted.
/// Promise (Sessions): A session that ends with Ok asked the commands of the bytes read, in order, each once. Its transcript lists them with
///   their answers, what was written is the definition's bytes, and it ended as the definition says
/// By: `act_sessions::run`, `ok` (`HasFinished`, `IsDone`, `Did`)
/// Promise (Sessions): A session takes no more requests and holds no more bytes than its protocol allows
/// By: `act_sessions::run`, `ok` (`HasFinished`, `counted`, `held`)
/// Promise (Sessions): A session that was cut did the same, and wrote a prefix. Nothing is asked of half a request. After a failed read every
///   request that came whole was asked and answered
/// By: `act_sessions::run`, `err` (`HasFailed`, `IsCut`, `IsUnheard`)
/// Promise (Sessions): Whatever is known of the reader, there are bytes of which the transcript is a session by these rules; the ending is
///   `Done` exactly at Ok
/// By: `act_sessions::run`, `ok` (`HasFinished`), `err` (`HasFailed`), (`EndsOverSome`, `Ends`)
/// Refusal (Sessions and programs): a session: `act_sessions::run`, `act_sessions::Work::work`
/// When: 50 (`Ending::Memory`): out of memory outside a command (of HTTP, also for saying so)
/// Afterwards: each command was asked once and is in the transcript; a prefix was written
/// By: `err` (`HasFailed`); `act_sessions::SessionFault::refusal`, `memory`
/// Refusal (Sessions and programs): a session: `act_sessions::run`
/// When: 61 (`Ending::Broken`): a stream failed; that it did: T
/// Afterwards: each command was asked once and is in the transcript; a prefix was written
/// By: `err` (`HasFailed`); `act_sessions::SessionFault::refusal`, `broken`
pub fn run<P: Protocol, R: Read, W: Write, A: Answer>(
    alloc: Global,
    reader: &mut R,
    writer: &mut W,
    answerer: &mut A,
) -> Result<Transcript, SessionFault>
    ensures ok { IfOk result (HasFinished P.rules (R.remaining reader.old) (R.remaining reader.new) (W.contents writer.old) (W.contents writer.new)
        (A.asked answerer.old) (A.asked answerer.new)) }
    ensures err { IfErr result (λ f. HasFailed P.rules (R.remaining reader.old) (R.remaining reader.new) (W.contents writer.old) (W.contents writer.new)
        (A.asked answerer.old) (A.asked answerer.new) f.transcript) }
{
    let mut held = HeldBytes::<P>::new(alloc);
    let mut count = 0;
    let mut transcript = Transcript::new(alloc);
    let end = run_part::<P, R, W, A>(
        alloc,
        reader,
        writer,
        answerer,
        &mut held,
        &mut count,
        &mut transcript,
    );
    match end {
        Part::AwaitsInput => Ok(transcript.ended(Ending::Done)),
        Part::Over(Ending::Done) => Ok(transcript.ended(Ending::Done)),
        Part::Over(ending) => Err(SessionFault {
            transcript: transcript.ended(ending),
        }),
    }
}

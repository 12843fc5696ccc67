ghost use Rattle.std.specs.Prelude.{◌≡◌, ◌≢◌, ℕ, List, [], ◌++◌, Option, Some};
ghost use Rattle.run_plan.specs.declared.command.Command.{Command};
ghost use Rattle.act_sessions.specs.Joined.{IsJoined};
ghost use Rattle.act_sessions.specs.Session.{first, start, IsCut, IsDone, IsPart, Moment, Position};
ghost use Rattle.act_sessions.specs.Exchange.{Response, Exchange};
ghost use Rattle.act_sessions.specs.Rules.{AnsweredBy, HasCome, IsApart, IsEnded, Reads, Turn};

use crate::protocol::Protocol;
use crate::transcript::{Ending, Part};

/// Two sessions that read the same bytes to their end, with answerers that answer alike, are equal. So the pieces in which the bytes
/// arrive do not matter.
/// Promise (Sessions): The pieces in which the bytes come make no difference, where a turn ended the sessions, or no bytes both wait and are a
///   request
/// By: `act_sessions::{one_session, one_session_to_its_end}`
pub fn one_session<P: Protocol>()
    ensures { (f : List Exchange → Command → Response) (bytes rest other : List ℕ) (ts us : List (Turn P.Fault)) → Reads P.rules bytes ts rest
        → Reads P.rules bytes us other → AnsweredBy f [] ts → AnsweredBy f [] us → IsEnded P.rules 0 ts → IsEnded P.rules 0 us
        → (ts ≡ us) × (rest ≡ other) }
{}

/// The same for sessions that wait at the end of their bytes. In a protocol where no bytes both wait and are a request, two sessions that
/// read the same bytes to their end, each ended by a turn or waiting, are equal.
pub fn one_session_to_its_end<P: Protocol>()
    ensures { IsApart P.rules → (f : List Exchange → Command → Response) (bytes rest other : List ℕ) (ts us : List (Turn P.Fault))
        → Reads P.rules bytes ts rest → Reads P.rules bytes us other → AnsweredBy f [] ts → AnsweredBy f [] us → HasCome P.rules 0 ts rest
        → HasCome P.rules 0 us other → (ts ≡ us) × (rest ≡ other) }
{}

/// Two consecutive parts are one. A stream is cut anywhere, the first part waits at the end of the first piece, and the second continues
/// from there with the other piece, the same output, another answerer and another transcript. Together they submit and write what one part
/// does over the whole stream.
pub fn two_parts<P: Protocol>()
    ensures { (from to last : Position) (x y : List ℕ) (i1 i2 : Option (List ℕ)) (old mid begin new : Moment) (end : Part)
        → IsPart P.rules from (Some x) i1 old mid to Part.AwaitsInput → begin.output ≡ mid.output
        → IsPart P.rules to (Some y) i2 begin new last end
        → (whole : Moment) × IsJoined mid begin new whole × IsPart P.rules from (Some (x ++ y)) i2 old whole last end }
{}

/// A part that begins a session satisfies what `run` says of a session: it is done if the part waits at the end of its input or is over,
/// and cut otherwise.
/// Promise (Sessions): Two parts in a row are one, and a session is one part from the first place
/// By: `act_sessions::{first_part, two_parts}` (`IsJoined`)
pub fn first_part<P: Protocol>()
    ensures waits { (i i2 output : Option (List ℕ)) (asked : List Exchange) (new : Moment) (last : Position)
        → IsPart P.rules first i i2 (start output asked) new last Part.AwaitsInput → IsDone P.rules i i2 (start output asked) new }
    ensures over { (i i2 output : Option (List ℕ)) (asked : List Exchange) (new : Moment) (last : Position)
        → IsPart P.rules first i i2 (start output asked) new last (Part.Over Ending.Done) → IsDone P.rules i i2 (start output asked) new }
    ensures cut { (ending : Ending) → ending ≢ Ending.Done → (i i2 output : Option (List ℕ)) (asked : List Exchange) (new : Moment) (last : Position)
        → IsPart P.rules first i i2 (start output asked) new last (Part.Over ending) → IsCut P.rules ending i i2 (start output asked) new }
{}

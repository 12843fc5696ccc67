ghost use Rattle.std.specs.Prelude.{◌≡◌, ◌≢◌, IfErr, IfOk};
ghost use Rattle.act_sessions.specs.declared.transcript.Transcript.{Transcript as Record};
ghost use Rattle.act_sessions.specs.Exchange.{AreAsked, exchanges_by};

use crate::answer::Answer;
use crate::transcript::{Ending, SessionFault, Transcript};
use std::alloc::Global;

/// A session still to be run: a reader and a writer, or something that obtains them.
pub trait Work: Drop {
    /// Whether this is the transcript of a session of this work that ended as its bytes say. If nothing is known of the bytes, as with a
    /// socket, every transcript is.
    ghost ends: { Self → Record → Type 0 };

    /// Runs the session: submits its commands, and returns what was submitted and written.
    fn work<A: Answer>(self, alloc: Global, answer: &mut A) -> Result<Transcript, SessionFault>
        ensures ok { IfOk result (λ t. (t.ending ≡ Ending.Done) × ends self t × AreAsked (A.asked answer.old) (A.asked answer.new) (exchanges_by t)) }
        ensures err { IfErr result (λ f. (f.transcript.ending ≢ Ending.Done) × ends self f.transcript
            × AreAsked (A.asked answer.old) (A.asked answer.new) (exchanges_by f.transcript)) };
}

ghost use Rattle.std.specs.Prelude.{◌≡◌, ◌<◌, IfSome, vec_len, vec_capacity};

use crate::answer::Answer;
use crate::protocol::Protocol;
use crate::submit::Submit;
use crate::transcript::{LoggedExchange, Transcript};
use crate::turn::text_of_answer;
use crate::turn_text::TurnText;
use run_plan::Command;
use std::alloc::Global;
use wf_value::TryCopy;

/// Reserves space to record a command, and copies it.
fn make_ready(alloc: Global, transcript: &mut Transcript, command: &Command) -> Option<Command>
    ensures copy { IfSome result (λ copy. (copy ≡ command.now) × (vec_len transcript.new.asked < vec_capacity transcript.new.asked)) }
    ensures asked { transcript.new.asked.items ≡ transcript.old.asked.items }
    ensures written { transcript.new.written ≡ transcript.old.written }
{
    transcript.asked.reserve(1).ok()?;
    command.copy(alloc).ok()
}

/// A transcript records what is submitted. It takes the memory for that before the command is submitted.
impl<A: Answer> Submit<A> for Transcript {
    ghost use Rattle.act_sessions.specs.Taking.{IsRecorded};

    ghost submits = { IsRecorded A.asked };

    fn submit<P: Protocol>(
        &mut self,
        alloc: Global,
        answerer: &mut A,
        command: Command,
        closes: bool,
        count: u64,
    ) -> Option<TurnText> {
        let copy = make_ready(alloc, self, &command)?;
        let answer = answerer.ask(command);
        let text = text_of_answer::<P>(alloc, &answer, closes, count);
        self.asked.push_reserved(LoggedExchange {
            command: copy,
            answer,
        });
        text
    }
}

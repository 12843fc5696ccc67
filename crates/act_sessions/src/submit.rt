ghost use Rattle.std.specs.Prelude.{◌<◌, Option};
ghost use Rattle.run_plan.specs.declared.command.Command.{Command};
ghost use Rattle.act_sessions.specs.Exchange.{Response};
ghost use Rattle.act_sessions.specs.Taking.{TakesCommand};

use crate::protocol::Protocol;
use crate::turn_text::TurnText;
use run_plan::Command;
use std::alloc::Global;

/// Submits the commands of a session to an answerer, and records each with its answer.
/// Promise (Sessions): A command of a turn is submitted for a transcript and for a client of `client_loop`
/// By: `act_sessions::Submit` (`TakesCommand`), for a transcript (`IsRecorded`) and for a client of `client_loop` (`IsEntered`)
pub trait Submit<A> {
    /// What a command changes, by its answer. With `None` there was no memory, and it was not submitted.
    ghost submits: { Self → A → Command → Option Response → Self → A → Type 0 };

    /// Submits a command, in a turn after `count` others, and returns the text that answers it. Returns `None` if it runs out of memory,
    /// before the command is submitted or for the text.
    fn submit<P: Protocol>(
        &mut self,
        alloc: Global,
        answerer: &mut A,
        command: Command,
        closes: bool,
        count: u64,
    ) -> Option<TurnText>
        requires { count < P.rules.most }
        ensures { TakesCommand P.rules (λ answer. submits self.old answerer.old command answer self.new answerer.new) count command closes result };
}

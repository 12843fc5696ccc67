ghost use Rattle.std.specs.Prelude.{List};
ghost use Rattle.act_sessions.specs.Exchange.{Submits, Exchange};

use run_plan::{Command, Reply};
use wf_value::Refusal;

/// Answers the commands of a session.
/// Refusal (Sessions and programs): a command of either, by `act_sessions::Answer`
/// When: 46, 47, 50, 51, 52, 57, 60: as `Desk::submit` (of HTTP, 50 also out of memory elsewhere, as status 503)
/// Afterwards: as of `Desk::submit`, and the session ends
/// By: its clauses (`Submits`); `act_desk::serve_all`, `served`
pub trait Answer {
    /// The commands submitted so far, each with its answer.
    ghost asked: { Self → List Exchange };

    /// Submits one command, which is then listed with its answer. A command answered with 50 may be missing from the list, and may still
    /// have been carried out.
    fn ask(&mut self, command: Command) -> Result<Reply, Refusal>
        ensures { Submits (asked self.old) (asked self.new) command result };
}

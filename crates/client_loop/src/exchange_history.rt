ghost use Rattle.std.specs.Prelude.{◌≡◌, ◌++◌, ◌∷◌, []};

use http_server::Log;
use run_plan::{Command, Reply};
use std::marker::Model;
use std::snapshot::Snapshot;
use wf_value::Refusal;

/// Commands with their answers, which only contracts read. They take no memory.
#[derive(Drop)]
pub(crate) struct ExchangeHistory {
    exchanges: Log<Snapshot<Command>, Result<Reply, Refusal>>,
}

impl Model for ExchangeHistory {
    ghost use Rattle.std.specs.Prelude.{List, map};
    ghost use Rattle.act_sessions.specs.Exchange.{Exchange};

    ghost Value = { List Exchange };

    ghost view = { λ h. map (λ x. (x.0.value, x.1)) h.exchanges.items };
}

impl ExchangeHistory {
    pub(crate) fn new() -> ExchangeHistory
        ensures { result ≡ [] }
    {
        ExchangeHistory {
            exchanges: Log::new(),
        }
    }

    /// Appends a command with its answer.
    pub(crate) fn add(&mut self, command: &Snapshot<Command>, answer: &Result<Reply, Refusal>)
        ensures { self.new ≡ self.old ++ (command.now.value, answer.now) ∷ [] }
    {
        self.exchanges = self.exchanges.and(command, answer);
    }
}

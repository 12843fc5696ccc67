ghost use Rattle.std.specs.Prelude.{◌≡◌, ◌++◌, ◌∷◌, []};
ghost use Rattle.covered_log.specs.Lines.{Begins, Displaced, Entered, Forgets, LegStands, Missed, Stands};

use http_server::Log;
use run_plan::{Command, Number, Reply};
use run_table::{RunView, Table};
use std::marker::Model;
use std::snapshot::Snapshot;
use table_model::Run;
use table_runs::runs::Runs;
use table_views::LegNews;

/// What a line tells, and when.
#[derive(Drop)]
pub(crate) enum Told {
    Entry(u64, Snapshot<Command>, Snapshot<Reply>),
    /// A run that begins an attempt: its id, and its number among those of its workflow.
    Attempt(u64, Snapshot<Table>, Number, Number, Snapshot<Run>),
    Run(u64, Number, Snapshot<Run>),
    Leg(u64, Snapshot<LegNews>),
    /// The run at an index of these that made way for a newcomer of its group.
    Displaced(u64, Snapshot<Runs>, usize, Snapshot<Run>),
    Forgotten(u64, u32),
    Missed,
}

/// What all lines tell, which only contracts read. It takes no memory.
#[derive(Drop)]
pub(crate) struct ToldChanges {
    told: Log<Told, bool>,
}

impl Model for ToldChanges {
    ghost use Rattle.std.specs.Prelude.{List, map};
    ghost use Rattle.covered_log.specs.Lines.{Change};
    ghost use Rattle.covered_log.specs.inner.Told.{change_of};

    ghost Value = { List Change };

    ghost view = { λ t. map (λ x. change_of x.0) t.told.items };
}

impl ToldChanges {
    pub(crate) fn new() -> ToldChanges
        ensures { result ≡ [] }
    {
        ToldChanges { told: Log::new() }
    }

    /// Appends an entry.
    pub(crate) fn enter(&mut self, at: u64, command: &Command, reply: &Reply)
        ensures { self.new ≡ self.old ++ Entered at command.now reply.now ∷ [] }
    {
        let entry = Told::Entry(at, Snapshot::of(command), Snapshot::of(reply));
        self.told = self.told.and(&entry, &true);
    }

    /// Appends how a run stands that begins an attempt.
    pub(crate) fn begin(&mut self, at: u64, table: &Table, view: &RunView<'_>)
        ensures { self.new ≡ self.old ++ Begins at table.now view.now ∷ [] }
    {
        let run = Snapshot::of(view.run());
        let begun = Told::Attempt(at, Snapshot::of(table), view.id(), view.number(), run);
        self.told = self.told.and(&begun, &true);
    }

    /// Appends how a run stands.
    pub(crate) fn stand(&mut self, at: u64, id: Number, run: &Run)
        ensures { self.new ≡ self.old ++ Stands at id run.now ∷ [] }
    {
        let stand = Told::Run(at, id, Snapshot::of(run));
        self.told = self.told.and(&stand, &true);
    }

    /// Appends how a leg stands.
    pub(crate) fn stand_leg(&mut self, at: u64, news: &LegNews)
        ensures { self.new ≡ self.old ++ LegStands at news.now ∷ [] }
    {
        let stand = Told::Leg(at, Snapshot::of(news));
        self.told = self.told.and(&stand, &true);
    }

    /// Appends that run `r` made way for a newcomer of its group.
    pub(crate) fn displace(&mut self, at: u64, runs: &Runs, r: usize, run: &Run)
        ensures { self.new ≡ self.old ++ Displaced at runs.now r run.now ∷ [] }
    {
        let displaced = Told::Displaced(at, Snapshot::of(runs), r, Snapshot::of(run));
        self.told = self.told.and(&displaced, &true);
    }

    /// Appends through which id runs are forgotten.
    pub(crate) fn forget(&mut self, at: u64, through: u32)
        ensures { self.new ≡ self.old ++ Forgets at through ∷ [] }
    {
        self.told = self.told.and(&Told::Forgotten(at, through), &true);
    }

    /// Appends a change that is missed.
    pub(crate) fn miss(&mut self)
        ensures { self.new ≡ self.old ++ Missed ∷ [] }
    {
        self.told = self.told.and(&Told::Missed, &true);
    }
}

ghost use Rattle.std.specs.Prelude.{◌≡◌, ◌+◌, ◌↔◌, ◌≤◌, IfNone, IfOk, IfSome, IsTrue, OnErr, OnOk, false, length, true};
ghost use Rattle.covered_log.specs.Lines.{Begins, Displaced, Entered, Forgets, LegStands, Missed, Stands};
ghost use Rattle.covered_log.specs.LogState.{HasRoom, IsPage, is_known, losing_line, new_log, place_of, with_change};

use crate::displaced::displaced_line;
use crate::kept::KeptLines;
use crate::page::{Page, page_end, text_between};
use crate::told::ToldChanges;
use run_plan::{Command, Number, Reply};
use run_table::{RunView, Table};
use std::alloc::{AllocError, Global};
use std::marker::Model;
use table_model::Run;
use table_runs::runs::Runs;
use table_views::{
    LegNews, attempt_line, entry_line, forgotten_line, leg_change_line, run_change_line,
};

/// The changes of a service: its covered entries, in the order of the history, and the runs and legs that they have changed. Each has the time
/// of its commit, in milliseconds since 1970. The lines of the last changes are kept; all changes are counted. Places and cursors go on when the history of the store turns over.
#[derive(Drop)]
pub struct CoveredLog {
    /// What tells the cursors of this process from those of others.
    process: u64,
    kept: KeptLines,
    /// How many entries there were.
    entries: u64,
    /// All changes, for contracts only.
    told: ToldChanges,
}

impl Model for CoveredLog {
    ghost use Rattle.covered_log.specs.LogState.{IsLog, LogState};

    ghost Value = { LogState };

    ghost view = { λ l. record { process = l.process; changes = l.told; first = l.kept.first } };

    ghost invariant = { λ l. IsLog l.kept l.entries l.told };
}

impl CoveredLog {
    /// The log of a service that begins now.
    pub fn new(alloc: Global, process: u64) -> CoveredLog
        ensures { result ≡ new_log process }
    {
        CoveredLog {
            process,
            kept: KeptLines::new(alloc),
            entries: 0,
            told: ToldChanges::new(),
        }
    }

    /// Whether there may be one more change. A log has fewer than 2^64.
    pub fn has_room(&self) -> bool
        ensures { IsTrue result ↔ HasRoom self.now }
    {
        self.kept.end() < u64::MAX
    }

    /// How many entries there were, which is the place of the last.
    pub fn place(&self) -> u64
        ensures { result ≡ place_of self.now }
    {
        self.entries
    }

    /// The number of the process.
    pub fn process(&self) -> u64
        ensures { result ≡ self.now.process }
    {
        self.process
    }

    /// The cursor of the present: how many changes there were.
    pub fn end(&self) -> u64
        ensures { result ≡ length self.now.changes }
    {
        self.kept.end()
    }

    /// Takes up the next entry. Without memory for its line all lines are forgotten, and the counts go on.
    /// Promise (Views of a service): A covered entry is a change, and its line is the definition's, to the byte, with its place and time; so
    ///   are the line of a run, with its row where an attempt begins, and that of a leg
    /// By: `covered_log::CoveredLog::enter`, `ok`, `err` (`with_change`, `line_of`)
    pub fn enter(
        &mut self,
        alloc: Global,
        at: u64,
        command: &Command,
        reply: &Reply,
    ) -> Result<(), AllocError>
        requires { HasRoom self.old }
        ensures ok { OnOk result (self.new ≡ with_change self.old (Entered at command.now reply.now)) }
        ensures err { OnErr result (self.new ≡ losing_line self.old (Entered at command.now reply.now)) }
    {
        self.entries += 1;
        let line = entry_line(alloc, self.entries, at, command, reply);
        self.told.enter(at, command, reply);
        self.kept.keep(line)?;
        Ok(())
    }

    /// Takes up how a run that begins an attempt stands after the entries so far. Without memory for its line all lines are forgotten, and the counts go on.
    pub(crate) fn begin(
        &mut self,
        alloc: Global,
        at: u64,
        table: &Table,
        view: &RunView<'_>,
    ) -> Result<(), AllocError>
        requires { HasRoom self.old }
        ensures ok { OnOk result (self.new ≡ with_change self.old (Begins at table.now view.now)) }
        ensures err { OnErr result (self.new ≡ losing_line self.old (Begins at table.now view.now)) }
    {
        let line = attempt_line(alloc, self.entries, at, table, view);
        self.told.begin(at, table, view);
        self.kept.keep(line)?;
        Ok(())
    }

    /// Takes up how a run stands after the entries so far. Without memory for its line all lines are forgotten, and the counts go on.
    pub(crate) fn stand(
        &mut self,
        alloc: Global,
        at: u64,
        id: Number,
        run: &Run,
    ) -> Result<(), AllocError>
        requires { HasRoom self.old }
        ensures ok { OnOk result (self.new ≡ with_change self.old (Stands at id run.now)) }
        ensures err { OnErr result (self.new ≡ losing_line self.old (Stands at id run.now)) }
    {
        let line = run_change_line(alloc, self.entries, at, id, run);
        self.told.stand(at, id, run);
        self.kept.keep(line)?;
        Ok(())
    }

    /// Takes up how a leg stands after the entries so far. Without memory for its line all lines are forgotten, and the counts go on.
    pub(crate) fn stand_leg(
        &mut self,
        alloc: Global,
        at: u64,
        news: &LegNews,
    ) -> Result<(), AllocError>
        requires { HasRoom self.old }
        ensures ok { OnOk result (self.new ≡ with_change self.old (LegStands at news.now)) }
        ensures err { OnErr result (self.new ≡ losing_line self.old (LegStands at news.now)) }
    {
        let line = leg_change_line(alloc, self.entries, at, news);
        self.told.stand_leg(at, news);
        self.kept.keep(line)?;
        Ok(())
    }

    /// Takes up that run `r` made way for a newcomer of its group. Without memory for its line all lines are forgotten, and the counts go on.
    pub(crate) fn displace(
        &mut self,
        alloc: Global,
        at: u64,
        runs: &Runs,
        r: usize,
        run: &Run,
    ) -> Result<(), AllocError>
        requires { HasRoom self.old }
        ensures ok { OnOk result (self.new ≡ with_change self.old (Displaced at runs.now r run.now)) }
        ensures err { OnErr result (self.new ≡ losing_line self.old (Displaced at runs.now r run.now)) }
    {
        let line = displaced_line(alloc, self.entries, at, runs, r, run);
        self.told.displace(at, runs, r, run);
        self.kept.keep(line)?;
        Ok(())
    }

    /// Takes up through which id runs are forgotten after the entries so far. Without memory for its line all lines are forgotten, and the counts
    /// go on.
    pub(crate) fn forget(&mut self, alloc: Global, at: u64, through: u32) -> Result<(), AllocError>
        requires { HasRoom self.old }
        ensures ok { OnOk result (self.new ≡ with_change self.old (Forgets at through)) }
        ensures err { OnErr result (self.new ≡ losing_line self.old (Forgets at through)) }
    {
        let line = forgotten_line(alloc, self.entries, at, through);
        self.told.forget(at, through);
        self.kept.keep(line)?;
        Ok(())
    }

    /// There was no memory to tell how runs and legs stand. All lines are forgotten, and the counts go on.
    /// Promise (Views of a service): Places count all entries since the service began, also those for whose lines there was no memory
    /// By: `covered_log::CoveredLog::miss` (`losing_line`); `covered_log::CoveredLog::place`
    pub fn miss(&mut self)
        requires { HasRoom self.old }
        ensures { self.new ≡ losing_line self.old Missed }
    {
        self.told.miss();
        self.kept.lose();
    }

    /// The index of the line behind a cursor among those that are kept, or where they end; `None` if the cursor is not known.
    fn index_of(&self, process: u64, line: u64) -> Option<usize>
        ensures none { IfNone result (is_known self.now process line ≡ false) }
        ensures known { IfSome result (λ index. is_known self.now process line ≡ true) }
        ensures index { IfSome result (λ index. line ≡ self.now.first + index) }
        ensures within { IfSome result (λ index. line ≤ length self.now.changes) }
    {
        if process != self.process || line > self.kept.end() || line < self.kept.first() {
            return None;
        }
        Some((line - self.kept.first()) as usize)
    }

    /// The lines behind a cursor, which names a process and says how many lines come before it; `None` if it is not known.
    /// Promise (Views of a service): The lines behind a cursor are those of all changes after it, in order, at most 1,000, each once, and the
    ///   next cursor stands behind them
    /// By: `covered_log::CoveredLog::after`, `page` (`IsPage`, `lines_of`), `known`
    /// Promise (Views of a service): A cursor is not known exactly if it is of another process, beyond the last change, or before the first line
    ///   that is kept
    /// By: `covered_log::CoveredLog::after`, `unknown` (`is_known`)
    pub fn after(&self, alloc: Global, process: u64, line: u64) -> Result<Option<Page>, AllocError>
        ensures unknown { IfOk result (λ page. IfNone page (is_known self.now process line ≡ false)) }
        ensures known { IfOk result (λ page. IfSome page (λ p. is_known self.now process line ≡ true)) }
        ensures page { IfOk result (λ page. IfSome page (IsPage self.now line)) }
    {
        let Some(from) = self.index_of(process, line) else {
            return Ok(None);
        };
        let end = page_end(&self.kept, from);
        let text = text_between(alloc, &self.kept, from, end)?;
        let next = self.kept.first() + end as u64;
        Ok(Some(Page { text, next }))
    }
}

//! What a request is shown.

ghost use Rattle.std.specs.Prelude.{◌≡◌, ◌≤◌, ◌<◌, ◌^◌, Err, IfOk, Ok, codes, length};
ghost use Rattle.service_metrics.specs.Metrics.{metrics_text};
ghost use Rattle.table_views.specs.HolderPages.{IsHolderPage};
ghost use Rattle.table_views.specs.ReadyPages.{IsReadyPage};
ghost use Rattle.table_views.specs.RunBodies.{run_body};
ghost use Rattle.table_views.specs.RunPages.{IsRunsPage};
ghost use Rattle.view_sessions.specs.declared.answer.Content.TheVariants as content;
ghost use Rattle.service_views.specs.declared.shown.Made.TheVariants as made;
ghost use Rattle.service_views.specs.Shown.{IsJson, IsMade, IsMetrics, IsPlain, IsShownOrNot, Shows, ShowsBehind, ShowsBoard, ShowsBody, ShowsChanges, ShowsCopy, ShowsRun, ShowsRunners, ShowsRunnersFrom, asked_changes, first_runner, gauges_of, later, or_no_memory, rows, runners_ahead, seconds_of};

use crate::behind::{Found, behind, present};
use crate::board::Board;
use crate::kept::Kept;
use covered_log::CoveredLog;
use run_plan::Number;
use run_table::{Runner, Table};
use service_metrics::{Gauges, metrics_text};
use std::alloc::{AllocError, Global};
use std::time::Instant;
use store_copies::copy_of;
use table_views::{
    LeaseNames, holder_page, index_after, ready_page, run_body, run_view, runner_page, runs_page,
};
use view_sessions::{
    Answer, BoardFile, ChangesQuery, Content, Cursor, GroupsQuery, QueueQuery, RunQuery,
    RunnersQuery, RunsQuery, View, ViewFault, ViewRequest,
};
use wf_value::{Chars, Refusal};

/// The most rows of a page.
const MAX_ROWS: usize = 100;

/// The most runners at which a page looks.
const MAX_LOOKED: usize = 10_000;

/// What is shown: the table, the version of the program, its board, the length of an area and its room, its generation, how many clients each port
/// has, and how many checkpoints were finished.
#[derive(Clone, Copy)]
pub struct Seen<'t> {
    pub table: &'t Table,
    pub version: &'t str,
    pub board: &'t Board,
    pub area: u64,
    pub room: u64,
    pub generation: u64,
    pub hooks: usize,
    pub runners: usize,
    pub viewers: usize,
    pub checkpoints: u64,
    pub now: Instant,
}

/// What becomes of a request.
#[derive(Drop)]
pub enum Made {
    Answer(Answer),
    Waits(ChangesQuery),
}

/// A JSON answer.
fn json(text: String) -> Result<Made, Refusal>
    ensures { result ≡ Ok (made.Answer (Ok (content.Json text))) }
{
    Ok(Made::Answer(Ok(Content::Json(text))))
}

/// Lines of JSON.
fn lines(text: String) -> Result<Made, Refusal>
    ensures { result ≡ Ok (made.Answer (Ok (content.Lines text))) }
{
    Ok(Made::Answer(Ok(Content::Lines(text))))
}

fn fault(fault: ViewFault) -> Result<Made, Refusal>
    ensures { result ≡ Ok (made.Answer (Err fault)) }
{
    Ok(Made::Answer(Err(fault)))
}

/// What was made, or that there is no memory.
fn or_no_memory(made: Result<Made, Refusal>) -> Made
    ensures { result ≡ or_no_memory made }
{
    match made {
        Ok(made) => made,
        Err(_) => Made::Answer(Err(ViewFault::NoMemory)),
    }
}

/// A request for the head alone does not wait.
fn asked_changes(query: ChangesQuery, head_only: bool) -> ChangesQuery
    ensures { result ≡ asked_changes query head_only }
{
    ChangesQuery {
        after: query.after,
        wait: if head_only { 0 } else { query.wait },
    }
}

/// A request that waits goes on waiting unless its time is over.
fn later(query: ChangesQuery, is_over: bool) -> ChangesQuery
    ensures { result ≡ later query is_over }
{
    ChangesQuery {
        after: query.after,
        wait: if is_over { 0 } else { 1 },
    }
}

// ---- what each path shows

fn runs(alloc: Global, table: &Table, query: &RunsQuery) -> Result<Made, Refusal>
    ensures { IfOk result (IsJson (IsRunsPage query.now.filter query.now.before (rows query.now.limit) table.now)) }
{
    json(runs_page(
        alloc,
        table,
        &query.filter,
        query.before,
        query.limit.min(MAX_ROWS),
    )?)
}

fn run(alloc: Global, table: &Table, names: &LeaseNames, query: RunQuery) -> Result<Made, Refusal>
    ensures { IfOk result (ShowsRun names.now table.now query) }
{
    match run_view(alloc, table, names, query.run, query.from)? {
        Some(text) => json(text),
        None => fault(ViewFault::UnknownRun),
    }
}

fn body(alloc: Global, table: &Table, run: Number) -> Result<Made, Refusal>
    ensures { IfOk result (ShowsBody (run_body table.now run)) }
{
    match run_body(alloc, table, run)? {
        Some(text) => json(text),
        None => fault(ViewFault::UnknownRun),
    }
}

fn queue(alloc: Global, table: &Table, query: QueueQuery) -> Result<Made, Refusal>
    ensures { IfOk result (IsJson (IsReadyPage query.from (rows query.limit) table.now)) }
{
    json(ready_page(alloc, table, query.from, query.limit.min(MAX_ROWS))?)
}

fn groups(alloc: Global, table: &Table, query: &GroupsQuery) -> Result<Made, Refusal>
    ensures { IfOk result (IsJson (IsHolderPage query.now.filter query.now.from (rows query.now.limit) table.now)) }
{
    json(holder_page(
        alloc,
        table,
        &query.filter,
        query.from,
        query.limit.min(MAX_ROWS),
    )?)
}

fn health(alloc: Global) -> Result<Made, Refusal>
    ensures { IfOk result (IsPlain (codes "ok\n")) }
{
    let text = String::from_str(alloc, "ok\n")?;
    Ok(Made::Answer(Ok(Content::Plain(text))))
}

/// A store file with the table.
fn backup(alloc: Global, area: u64, table: &Table) -> Result<Made, Refusal>
    ensures { IfOk result (ShowsCopy area table.now) }
{
    match copy_of(alloc, area, table)? {
        Some(copy) => Ok(Made::Answer(Ok(Content::Store(copy)))),
        None => fault(ViewFault::AreaFull),
    }
}

fn board_file(alloc: Global, board: &Board, file: BoardFile) -> Result<Made, Refusal>
    ensures { IfOk result (ShowsBoard board.now file) }
{
    let Some(bytes) = board.bytes(file) else {
        return fault(ViewFault::UnknownPath);
    };
    let mut copy = Vec::new(alloc);
    copy.extend_from_slice(bytes)?;
    Ok(Made::Answer(Ok(Content::Board(file, copy))))
}

/// What there is behind a cursor. A request that may wait does, if there is nothing yet.
fn changes_behind(
    alloc: Global,
    log: &CoveredLog,
    query: ChangesQuery,
    cursor: Cursor,
) -> Result<Made, Refusal>
    ensures { IfOk result (ShowsBehind log.now query cursor) }
{
    match behind(alloc, log, cursor)? {
        Found::Lines(text) => lines(text),
        Found::None if query.wait > 0 => Ok(Made::Waits(query)),
        Found::None => lines(present(alloc, log)?),
        Found::Unknown => fault(ViewFault::UnknownCursor),
    }
}

fn changes(alloc: Global, log: &CoveredLog, query: ChangesQuery) -> Result<Made, Refusal>
    ensures { IfOk result (ShowsChanges log.now query) }
{
    match query.after {
        Some(cursor) => changes_behind(alloc, log, query, cursor),
        None => lines(present(alloc, log)?),
    }
}

/// The runner at the first index of a page.
fn first_runner(table: &Table, after: &Option<Chars>) -> usize
    ensures from { result ≡ first_runner table.now.runners after.now }
    ensures within { result ≤ length table.now.runners }
{
    match after {
        Some(name) => index_after(table, name.as_str()),
        None => 0,
    }
}

/// At how many runners a page of so many rows may look.
fn runners_ahead(name: &Option<Chars>, limit: usize) -> usize
    ensures { result ≡ runners_ahead name.now limit }
{
    match name {
        Some(_) => MAX_LOOKED,
        None => limit,
    }
}

impl Kept {
    /// How many seconds ago each of these runners was heard.
    fn seconds_of(
        &self,
        alloc: Global,
        runners: &[Runner],
        now: Instant,
    ) -> Result<Vec<Option<u64>>, AllocError>
        ensures { IfOk result (λ seconds. seconds.items ≡ seconds_of self.now now runners.now) }
    {
        let mut seconds = Vec::with_capacity(alloc, runners.len())?;
        for runner in runners {
            seconds.push(self.seconds_since(runner.name.as_str(), now))?;
        }
        Ok(seconds)
    }

    fn runners_from(
        &self,
        alloc: Global,
        seen: Seen<'_>,
        name: &Option<Chars>,
        from: usize,
        limit: usize,
    ) -> Result<Made, Refusal>
        requires within { from ≤ length seen.table.now.runners }
        requires few { limit < 2 ^ 32 }
        ensures { IfOk result (ShowsRunnersFrom self.now seen.entry.now seen.entry.table.now name.now from limit) }
    {
        let runners = seen.table.runners();
        let end = from + runners_ahead(name, limit).min(runners.len() - from);
        let heard = self.seconds_of(alloc, &runners[from..end], seen.now)?;
        json(runner_page(alloc, seen.table, name, heard.as_slice(), from, limit)?)
    }

    fn runners(&self, alloc: Global, seen: Seen<'_>, query: &RunnersQuery) -> Result<Made, Refusal>
        ensures { IfOk result (ShowsRunners self.now seen.entry.now seen.entry.table.now query.now) }
    {
        let from = first_runner(seen.table, &query.after);
        self.runners_from(alloc, seen, &query.name, from, query.limit.min(MAX_ROWS))
    }

    fn metrics(&self, alloc: Global, seen: Seen<'_>) -> Result<Made, Refusal>
        ensures { IfOk result (IsMetrics (metrics_text (gauges_of self.now seen.entry) self.now.counters seen.entry.table.now)) }
    {
        let gauges = Gauges {
            version: seen.version,
            uptime: self.uptime(seen.now),
            hooks: seen.hooks as u64,
            runners: seen.runners as u64,
            views: seen.viewers as u64,
            silence: self.longest_silence(seen.table.runners(), seen.now),
            standing: self.first.seconds(seen.now),
            area: seen.area,
            room: seen.room,
            generation: seen.generation,
            checkpoints: seen.checkpoints,
        };
        let text = metrics_text(alloc, &gauges, &self.counters, seen.table)?;
        Ok(Made::Answer(Ok(Content::Metrics(text))))
    }

    /// The answer to a view.
    fn show(
        &self,
        alloc: Global,
        seen: Seen<'_>,
        view: &View,
        head_only: bool,
    ) -> Result<Made, Refusal>
        ensures { IfOk result (Shows self.now seen.entry head_only view.now) }
    {
        match view {
            View::Runs(query) => runs(alloc, seen.table, query),
            View::Run(query) => run(alloc, seen.table, self.changes.names(), *query),
            View::Body(run) => body(alloc, seen.table, *run),
            View::Queue(query) => queue(alloc, seen.table, *query),
            View::Runners(query) => self.runners(alloc, seen, query),
            View::Groups(query) => groups(alloc, seen.table, query),
            View::Health => health(alloc),
            View::Metrics => self.metrics(alloc, seen),
            View::Changes(query) => {
                changes(alloc, self.changes.log(), asked_changes(*query, head_only))
            }
            View::Backup => backup(alloc, seen.area, seen.table),
            View::Board(file) => board_file(alloc, seen.board, *file),
        }
    }

    /// What becomes of a request. Without memory the answer is that there is none.
    /// Promise (Views of a service): Each path of the view port is answered as its definition says, and a request with a fault by exactly this
    ///   fault. The only other answer is that there is no memory
    /// By: `service_views::Kept::made` (`IsMade`, `Shows`)
    /// Promise (Views of a service): Behind a known cursor come the lines after it, and the cursor to go on from. Where there are none yet, a
    ///   request that may wait waits, and any other gets the cursor alone
    /// By: `service_views::Kept::{made, made_later}` (`ShowsChanges`, `lines_behind`, `cursor_line`)
    pub fn made(&self, alloc: Global, seen: Seen<'_>, request: &ViewRequest) -> Made
        ensures { IsMade self.now seen.entry request.now result }
    {
        match &request.asked {
            Ok(view) => or_no_memory(self.show(alloc, seen, view, request.head_only)),
            Err(fault) => Made::Answer(Err(*fault)),
        }
    }

    /// The answer for a client that has waited for changes, if there is one by now. `is_over` if its time is over.
    pub fn made_later(&self, alloc: Global, query: ChangesQuery, is_over: bool) -> Made
        ensures { IsShownOrNot (ShowsChanges self.now.changes.log (later query is_over)) result }
    {
        or_no_memory(changes(alloc, self.changes.log(), later(query, is_over)))
    }
}

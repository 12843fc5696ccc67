use crate::board_file::BoardFile;
use crate::cursor::Cursor;
use run_plan::Number;
use table_views::{GroupFilter, RunFilter};
use wf_value::Chars;

/// A page of runs.
#[derive(Drop)]
pub struct RunsQuery {
    pub filter: RunFilter,
    pub before: Option<Number>,
    pub limit: usize,
}

/// A run, with its jobs from an index on.
#[derive(Clone, Copy)]
pub struct RunQuery {
    pub run: Number,
    pub from: usize,
}

/// A page of the ready legs of the runs from an id on.
#[derive(Clone, Copy)]
pub struct QueueQuery {
    pub from: Number,
    pub limit: usize,
}

/// A page of the runners whose names begin with a text.
#[derive(Drop)]
pub struct RunnersQuery {
    pub name: Option<Chars>,
    pub after: Option<Chars>,
    pub limit: usize,
}

/// A page of the holders of groups.
#[derive(Drop)]
pub struct GroupsQuery {
    pub filter: GroupFilter,
    pub from: Number,
    pub limit: usize,
}

/// The changes after a cursor, and how many seconds to wait for the first.
#[derive(Clone, Copy)]
pub struct ChangesQuery {
    pub after: Option<Cursor>,
    pub wait: u64,
}

/// What a request asks for.
#[derive(Drop)]
pub enum View {
    Runs(RunsQuery),
    Run(RunQuery),
    Body(Number),
    Queue(QueueQuery),
    Runners(RunnersQuery),
    Groups(GroupsQuery),
    Health,
    Metrics,
    Changes(ChangesQuery),
    Backup,
    Board(BoardFile),
}

ghost use Rattle.std.specs.Prelude.{◌≡◌, option_map};
ghost use Rattle.view_sessions.specs.Paths.{after_runs, before_body, board_path, path_of, plain_path, run_path};

use crate::board_file::BoardFile;
use run_plan::Number;

/// What the path of a target names.
#[derive(Clone, Copy, PartialEq, Eq)]
pub(crate) enum Path {
    /// `/runs`
    Runs,
    /// `/runs/RUN`
    Run(Number),
    /// `/runs/RUN/body`
    Body(Number),
    /// `/queue`
    Queue,
    /// `/runners`
    Runners,
    /// `/groups`
    Groups,
    /// `/healthz`
    Health,
    /// `/metrics`
    Metrics,
    /// `/changes`
    Changes,
    /// `/backup`
    Backup,
    /// `/`, `/board.js` and `/board.css`
    Board(BoardFile),
}

/// The bytes after `/runs/`, if they begin with that.
fn after_runs(path: &[u8]) -> Option<&[u8]>
    ensures { option_map (λ rest. rest.now) result ≡ after_runs path.now }
{
    path.strip_prefix(b"/runs/")
}

/// The bytes before `/body`, if they end with that.
fn before_body(rest: &[u8]) -> Option<&[u8]>
    ensures { option_map (λ run. run.now) result ≡ before_body rest.now }
{
    rest.strip_suffix(b"/body")
}

/// The path of bytes after `/runs/`.
fn run_path(rest: &[u8]) -> Option<Path>
    ensures { result ≡ run_path rest.now }
{
    match before_body(rest) {
        Some(run) => Number::of(run).map(Path::Body),
        None => Number::of(rest).map(Path::Run),
    }
}

/// The path of bytes that name a file of the board.
fn board_path(path: &[u8]) -> Option<Path>
    ensures { result ≡ board_path path.now }
{
    if path == b"/".as_slice() {
        Some(Path::Board(BoardFile::Page))
    } else if path == b"/board.js".as_slice() {
        Some(Path::Board(BoardFile::Script))
    } else if path == b"/board.css".as_slice() {
        Some(Path::Board(BoardFile::Style))
    } else {
        None
    }
}

/// The path of bytes that do not begin with `/runs/`.
fn plain_path(path: &[u8]) -> Option<Path>
    ensures { result ≡ plain_path path.now }
{
    if path == b"/runs".as_slice() {
        Some(Path::Runs)
    } else if path == b"/queue".as_slice() {
        Some(Path::Queue)
    } else if path == b"/runners".as_slice() {
        Some(Path::Runners)
    } else if path == b"/groups".as_slice() {
        Some(Path::Groups)
    } else if path == b"/healthz".as_slice() {
        Some(Path::Health)
    } else if path == b"/metrics".as_slice() {
        Some(Path::Metrics)
    } else if path == b"/changes".as_slice() {
        Some(Path::Changes)
    } else if path == b"/backup".as_slice() {
        Some(Path::Backup)
    } else {
        board_path(path)
    }
}

impl Path {
    pub(crate) fn of(path: &[u8]) -> Option<Path>
        ensures { result ≡ path_of path.now }
    {
        match after_runs(path) {
            Some(rest) => run_path(rest),
            None => plain_path(path),
        }
    }
}

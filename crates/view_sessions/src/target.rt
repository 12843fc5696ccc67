//! What a target asks for.

ghost use Rattle.std.specs.Prelude.{◌≡◌, Ok};
ghost use Rattle.wf_value.specs.Gives.{Gives};
ghost use Rattle.view_sessions.specs.Targets.{asked, groups_query, runners_query, runs_query, is_taken, view_at, view_of};

use crate::fault::ViewFault;
use crate::parameter::Parameter;
use crate::path::Path;
use crate::query::{Query, after_byte, before_byte, query_of};
use crate::view::{ChangesQuery, GroupsQuery, QueueQuery, RunQuery, RunnersQuery, RunsQuery, View};
use std::alloc::Global;
use table_views::{GroupFilter, RunFilter};
use wf_value::Refusal;

fn runs_query(query: Query) -> RunsQuery
    ensures { result ≡ runs_query query }
{
    let before = query.number_at(Parameter::Before);
    let limit = query.limit();
    let Query {
        status,
        conclusion,
        repository,
        path,
        event,
        reference,
        group,
        ..
    } = query;
    let filter = RunFilter {
        status,
        conclusion,
        repository,
        path,
        event,
        reference,
        group,
    };
    RunsQuery {
        filter,
        before,
        limit,
    }
}

fn runners_query(query: Query) -> RunnersQuery
    ensures { result ≡ runners_query query }
{
    let limit = query.limit();
    let Query { name, after, .. } = query;
    RunnersQuery { name, after, limit }
}

fn groups_query(query: Query) -> GroupsQuery
    ensures { result ≡ groups_query query }
{
    let from = query.first_run();
    let limit = query.limit();
    let Query {
        repository,
        group,
        ..
    } = query;
    let filter = GroupFilter { repository, group };
    GroupsQuery {
        filter,
        from,
        limit,
    }
}

/// The view of a path with its parameters.
fn view_at(path: Path, query: Query) -> View
    ensures { result ≡ view_at path query }
{
    match path {
        Path::Runs => View::Runs(runs_query(query)),
        Path::Run(run) => View::Run(RunQuery {
            run,
            from: query.index(),
        }),
        Path::Body(run) => View::Body(run),
        Path::Queue => View::Queue(QueueQuery {
            from: query.first_run(),
            limit: query.limit(),
        }),
        Path::Runners => View::Runners(runners_query(query)),
        Path::Groups => View::Groups(groups_query(query)),
        Path::Health => View::Health,
        Path::Metrics => View::Metrics,
        Path::Changes => View::Changes(ChangesQuery {
            after: query.cursor(),
            wait: query.wait(),
        }),
        Path::Backup => View::Backup,
        Path::Board(file) => View::Board(file),
    }
}

/// The view that a path and parameters ask for.
fn view_of(alloc: Global, path: Path, parameters: &[u8]) -> Result<Result<View, ViewFault>, Refusal>
    ensures { Gives (λ r. r) result (Ok (view_of path parameters.now)) }
{
    match query_of(alloc, &path, parameters)? {
        Ok(query) => Ok(Ok(view_at(path, query.with_folded_group(alloc)?))),
        Err(fault) => Ok(Err(fault)),
    }
}

/// Whether a method is one of those that a view takes.
fn is_taken(method: &[u8]) -> bool
    ensures { result ≡ is_taken method.now }
{
    method == b"GET".as_slice() || method == b"HEAD".as_slice()
}

/// The view that a method and a target ask for.
pub(crate) fn asked(
    alloc: Global,
    method: &[u8],
    target: &[u8],
) -> Result<Result<View, ViewFault>, Refusal>
    ensures { Gives (λ r. r) result (Ok (asked method.now target.now)) }
{
    let Some(path) = Path::of(before_byte(target, b'?')) else {
        return Ok(Err(ViewFault::UnknownPath));
    };
    if !is_taken(method) {
        return Ok(Err(ViewFault::MethodNotAllowed));
    }
    match after_byte(target, b'?') {
        Some(parameters) => view_of(alloc, path, parameters),
        None => view_of(alloc, path, &[]),
    }
}

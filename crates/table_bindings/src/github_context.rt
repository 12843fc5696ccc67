//! The service's members of `github`.

ghost use Rattle.std.specs.Prelude.{◌≡◌, option_map};
ghost use Rattle.wf_expr.specs.ScalarView.{shown};
ghost use Rattle.wf_reader.specs.Event.{event_of};
ghost use Rattle.table_model.specs.LegContext.{github_of_run, name_or_path, under};

use run_plan::Prepared;
use wf_expr::ScalarView;

/// A member of `github` in a run of this event with this id, number and attempt, in decimal. GitHub Docs, "Contexts reference".
pub(crate) fn github_member<'a>(
    event: &'a Prepared,
    run_id: &'a str,
    run_number: &'a str,
    run_attempt: &'a str,
    name: &str,
) -> Option<ScalarView<'a>>
    ensures { option_map shown result ≡ under name.now (github_of_run event.now run_id.now run_number.now run_attempt.now) }
{
    match name {
        "workflow" => Some(ScalarView::Text(workflow_name(event))),
        "repository" => Some(ScalarView::Text(event.repo().as_str())),
        "event_name" => Some(ScalarView::Text(event.event().as_str())),
        "run_id" => Some(ScalarView::Text(run_id)),
        "run_number" => Some(ScalarView::Text(run_number)),
        "run_attempt" => Some(ScalarView::Text(run_attempt)),
        _ => None,
    }
}

/// The workflow's name, or its path if it has no name.
fn workflow_name(event: &Prepared) -> &str
    ensures { let admitted = event_of event.now.body in result.now ≡ name_or_path admitted.workflow.name admitted.path }
{
    let name = event.workflow_name().as_str();
    if name.is_empty() {
        event.path().as_str()
    } else {
        name
    }
}

ghost use Rattle.std.specs.Prelude.{◌≡◌};
ghost use Rattle.wf_expr.specs.TemplateValue.{sets_flag};
ghost use Rattle.wf_expr.specs.ScalarView.{shown};

use crate::scalar_view::ScalarView;

/// Whether the value of a template sets a flag such as `cancel-in-progress` or `continue-on-error`. Only the boolean true and the text
/// `true` do.
pub(crate) fn view_sets_flag(value: ScalarView<'_>) -> bool
    ensures { result ≡ sets_flag (shown value.entry) }
{
    match value {
        ScalarView::Truth(truth) => truth,
        ScalarView::Text(text) => text == "true",
        ScalarView::Null | ScalarView::Whole(_) => false,
    }
}

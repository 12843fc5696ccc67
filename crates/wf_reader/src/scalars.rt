ghost use Rattle.std.specs.Prelude.{◌≡◌, option_map};
ghost use Rattle.serde_json.specs.View.{view};
ghost use Rattle.wf_expr.specs.ScalarView.{shown};
ghost use Rattle.wf_reader.specs.Json.{scalar_in};

use serde_json::Value;
use wf_expr::ScalarView;

/// The scalar that a value is: null, a boolean, a signed 64-bit integer or a text. `None` for any other value. It takes no memory.
pub fn scalar_of(value: &Value) -> Option<ScalarView<'_>>
    ensures { option_map shown result ≡ scalar_in (view value.now) }
{
    match value {
        Value::Null => Some(ScalarView::Null),
        Value::Bool(truth) => Some(ScalarView::Truth(*truth)),
        Value::Number(number) => match number.as_i64() {
            Some(whole) => Some(ScalarView::Whole(whole)),
            None => None,
        },
        Value::String(text) => Some(ScalarView::Text(text.as_str())),
        _ => None,
    }
}

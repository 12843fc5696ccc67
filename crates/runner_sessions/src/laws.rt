//! Laws of the definitions.

ghost use Rattle.act_sessions.specs.Rules.{IsApart};
ghost use Rattle.runner_sessions.specs.Line.{runner_rules};

/// No bytes are both an unfinished line and a line. So what waits at the end of the input needed no answer
/// (`act_sessions::one_session_to_its_end`).
pub fn an_unfinished_line_is_none()
    ensures { IsApart runner_rules }
{}

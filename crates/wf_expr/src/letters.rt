ghost use Rattle.std.specs.Prelude.{◌≡◌};
ghost use Rattle.wf_expr.specs.Grammar.{begins_name, continues_name};

/// Whether the character may start a name: a letter A to Z, a to z, or `_`.
#[tactic(auto, unfolding(crate::specs::Grammar::begins_name))]
pub(crate) fn begins_name(c: char) -> bool
    ensures { result ≡ begins_name c }
{
    c.is_ascii_alphabetic() || c == '_'
}

/// Whether the character may continue a name: one that may start it, a digit or `-`.
#[tactic(auto, unfolding(crate::specs::Grammar::continues_name))]
pub(crate) fn continues_name(c: char) -> bool
    ensures { result ≡ continues_name c }
{
    begins_name(c) || c.is_ascii_digit() || c == '-'
}

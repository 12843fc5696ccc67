ghost use Rattle.std.specs.Prelude.{ℕ, List, [], ◌∷◌, ◌++◌};
ghost use Rattle.webhook_sessions.specs.Fields.{OccursAs};

/// How often a field occurs in a head, with its value if it occurs once.
#[derive(Clone, Copy)]
pub enum Occurrence<'a> {
    Missing,
    Once(&'a [u8]),
    Repeated,
}

/// The occurrence after one more field with this value.
pub fn once_more<'a>(found: Occurrence<'a>, value: &'a [u8]) -> Occurrence<'a>
    ensures { (values : List (List ℕ)) → OccursAs values found.entry → OccursAs (values ++ value.now ∷ []) result }
{
    match found {
        Occurrence::Missing => Occurrence::Once(value),
        Occurrence::Once(_) => Occurrence::Repeated,
        Occurrence::Repeated => Occurrence::Repeated,
    }
}

use crate::event::{Event, Note};
use logbook::{Gain, Pen, Plain, Play, Rule};

/// The rule of a shared book.
pub struct BookRule;

impl Rule<Note, u64> for BookRule {
    ghost use Rattle.std.specs.Prelude.{[]};
    ghost use base.Fml.{ftrue};
    ghost use Rattle.act_desk.specs.inner.Lines.{IsKept};

    ghost holds = { λ cells log. IsKept cells log };

    ghost first = { [] };

    ghost hinted = { λ n log. Unit {0} };

    ghost shows = { λ log. [] };

    ghost keeps = { λ names log. ftrue };

    ghost moves = { λ ask before after answer. Unit {0} };
}

/// Callers exchange no resource.
pub struct NoResource;

impl Gain<Note, u64> for NoResource {
    ghost use base.Fml.{ftrue};

    ghost after = { λ names about answer. ftrue };
}

/// A step that makes a token.
pub struct Reserve;

impl Play<Note, u64> for Reserve {
    ghost use Rattle.act_desk.specs.inner.Lines.{Reserves};

    ghost then = { Reserves };
}

/// A step that sees the whole book.
pub struct Look;

impl Play<Note, u64> for Look {
    ghost use Rattle.act_desk.specs.inner.Lines.{Looks};

    ghost then = { Looks };
}

/// A step that notes an event.
pub struct Append;

impl Play<Note, u64> for Append {
    ghost use Rattle.act_desk.specs.inner.Lines.{Adds};

    ghost then = { Adds };
}

/// An event, and the token of the note after it.
pub struct Next {
    pub event: Event,
    pub token: Pen,
}

impl Plain<Next, Note, u64> for Append {
    ghost use Rattle.std.specs.Prelude.{None};

    ghost ask = { λ next. record { from = 0; to = next.token.nib.key; event = next.event } };

    ghost state = { λ next. None };
}

impl Plain<(), Note, u64> for Look {
    ghost use Rattle.std.specs.Prelude.{None};
    ghost use Rattle.act_desk.specs.declared.event.Event.TheVariants.{Told};

    ghost ask = { λ nothing. record { from = 0; to = 0; event = Told } };

    ghost state = { λ nothing. None };
}

ghost use Rattle.std.specs.Prelude.{◌≡◌};

use std::marker::Model;
use wf_value::Chars;

/// A job's id and the ids that it lists in `needs`, with repetitions, both borrowed. GitHub Docs, "Workflow syntax for GitHub
/// Actions", `jobs.<job_id>.needs`.
#[derive(Drop)]
pub struct JobNeeds<'a> {
    id: &'a Chars,
    needs: &'a [Chars],
}

impl<'a> Model for JobNeeds<'a> {
    ghost use Rattle.definitions.specs.Rising.{JobNeeds};

    ghost Value = { JobNeeds };

    ghost view = { λ j. record { id = j.id.now; needs = j.needs.now } };
}

impl<'a> JobNeeds<'a> {
    pub fn new(id: &'a Chars, needs: &'a [Chars]) -> Self
        ensures { result ≡ record { id = id.now; needs = needs.now } }
    {
        JobNeeds { id, needs }
    }

    pub(crate) fn id(&self) -> &'a Chars
        ensures { result.now ≡ self.now.id }
    {
        self.id
    }

    pub(crate) fn needs(&self) -> &'a [Chars]
        ensures { result.now ≡ self.now.needs }
    {
        self.needs
    }
}

ghost use Rattle.std.specs.Prelude.{◌≡◌, Ok};
ghost use Rattle.wf_value.specs.Gives.{Gives};

use crate::prepared::Prepared;
use std::alloc::Global;
use std::marker::Model;
use wf_value::{Refusal, Same, TryCopy};

/// The body of an admitted event, of which memory holds one copy, however many replies share it. In contracts it is the list of its
/// bytes.
#[derive(Drop)]
pub struct SharedBody {
    event: Prepared,
}

impl Model for SharedBody {
    ghost use Rattle.std.specs.Prelude.{List, ℕ};

    ghost Value = { List ℕ };

    ghost view = { λ b. b.event.body };
}

impl SharedBody {
    /// The body of this event. It takes no memory, since sharing the event takes none.
    pub fn of(event: &Prepared) -> Result<Self, Refusal>
        ensures { Gives (λ b. b) result (Ok event.now.body) }
    {
        Ok(SharedBody {
            event: event.share()?,
        })
    }

    pub fn as_str(&self) -> &str
        ensures { result.now ≡ self.now }
    {
        self.event.body_text()
    }
}

impl TryCopy for SharedBody {
    fn copy(&self, _alloc: Global) -> Result<Self, Refusal> {
        SharedBody::of(&self.event)
    }
}

impl Same for SharedBody {
    fn same(&self, other: &Self) -> bool {
        self.as_str() == other.as_str()
    }
}

//! A workflow as the key of a map: two are equal if they have the same repository and path.

ghost use Rattle.std.specs.Prelude.{◌++◌, Ok};
ghost use Rattle.std.specs.Cmp.{first_so, second_so};
ghost use Rattle.std.specs.Cmp.Rules.{comparing};
ghost use Rattle.std.specs.Hash as fed;
ghost use Rattle.std.proofs.Common.{ap₂, rules};
ghost use Rattle.std.proofs.lemmas.Slice.Eq.{bytes_eq-Decides};
ghost use Rattle.wf_value.specs.Gives.{Gives};
ghost use Rattle.wf_reader.specs.Event.{event_of};
ghost use Rattle.table_model.specs.LegContext.{same_workflow};
ghost use Rattle.table_runs.specs.inner.Counted.{hashed};

use run_plan::Prepared;
use std::alloc::AllocError;
use std::hash::{Hash, Hasher};
use std::marker::Model;
use wf_value::Refusal;

/// A workflow, by a share of an event of it. In contracts it is the event.
#[derive(Drop)]
pub(crate) struct Workflow {
    event: Prepared,
}

impl Model for Workflow {
    ghost use Rattle.definitions.specs.SmallText.{Admitted, coded_admitted};

    ghost Value = { Admitted };

    ghost coded = { coded_admitted };

    ghost view = { λ w. w.event };
}

impl Workflow {
    /// The workflow of an event. It takes no memory.
    pub(crate) fn of(event: &Prepared) -> Result<Self, Refusal>
        ensures { Gives (λ w. w) result (Ok event.now) }
    {
        Ok(Workflow {
            event: event.share()?,
        })
    }
}

impl PartialEq for Workflow {
    ghost eq = { same_workflow };

    ghost laws = { Prim.search (comparing, rules) };

    fn eq(&self, other: &Workflow) -> bool {
        let repo = self.event.repo().as_str();
        let path = self.event.path().as_str();
        repo == other.event.repo().as_str() && path == other.event.path().as_str()
    }
}

impl Eq for Workflow {
    ghost laws = { Prim.search (comparing, rules) };
}

impl Hash for Workflow {
    ghost hash_input = { hashed };

    ghost respects_eq = { λ a b same. ap₂ (λ repo path. fed.str repo ++ fed.str path)
        ((bytes_eq-Decides (event_of a.body).repo (event_of b.body).repo).0 (first_so _ _ same))
        ((bytes_eq-Decides (event_of a.body).path (event_of b.body).path).0 (second_so _ _ same)) };

    fn hash<H: Hasher>(&self, state: &mut H) {
        self.event.repo().as_str().hash(state);
        self.event.path().as_str().hash(state);
    }
}

impl Clone for Workflow {
    ghost use Rattle.std.specs.Prelude.{◌≡◌};

    ghost is_clone = { λ old new. new ≡ old };

    fn clone(&self) -> Result<Workflow, AllocError> {
        match self.event.share() {
            Ok(event) => Ok(Workflow { event }),
            Err(_) => Err(AllocError),
        }
    }
}

//! What a template needs to know about the jobs that its job needs.

ghost use Rattle.std.specs.Prelude.{◌≡◌};

use wf_value::{Chars, JobResult};

/// The results of needs, by index.
pub trait NeedResults {
    ghost use Rattle.std.specs.Prelude.{ℕ, Option};
    ghost use Rattle.wf_value.specs.declared.outcome.JobResult.{JobResult};

    ghost result_of: { Self → ℕ → Option JobResult };

    /// The result of a need, if it has one yet. It takes no memory.
    fn result_of(&self, need: usize) -> Option<JobResult>
        ensures { result ≡ result_of self.now need };
}

/// Maps the paths of the form `needs.ID.result` to the indices of the needs.
pub trait Needs {
    ghost use Rattle.std.specs.Prelude.{ℕ, List, Option};

    ghost need_of: { Self → List (List ℕ) → Option ℕ };

    /// The need whose result the path gives, if any. It takes no memory.
    fn need_of(&self, path: &[Chars]) -> Option<usize>
        ensures { result ≡ need_of self.now path.now };
}

use std::alloc::AllocError;
use wf_value::{Code, Refusal};

/// Why a session cannot continue.
#[derive(Clone, Copy)]
pub enum SessionError {
    Memory,
    Broken,
}

impl From<AllocError> for SessionError {
    ghost use Rattle.std.specs.Prelude.{◌≡◌};
    ghost use Rattle.act_sessions.specs.declared.error.SessionError.TheVariants.{Memory};

    ghost from_gives = { λ _ e. e ≡ Memory };

    fn from(_e: AllocError) -> SessionError {
        SessionError::Memory
    }
}

/// Outside an answer the only refusals are 61, a failed stream, and out of memory.
impl From<Refusal> for SessionError {
    ghost use Rattle.std.specs.Prelude.{◌≡◌};
    ghost use Rattle.act_sessions.specs.inner.SessionErrors.{error_of};

    ghost from_gives = { λ refusal e. e ≡ error_of refusal };

    fn from(refusal: Refusal) -> SessionError {
        match refusal {
            Refusal::Numbered(Code::StreamFailed) => SessionError::Broken,
            _ => SessionError::Memory,
        }
    }
}

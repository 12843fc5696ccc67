use std::alloc::{AllocError, AllocFailed};

/// Why no value was read.
#[derive(Drop)]
pub enum DecodeError {
    /// Out of memory. This says nothing about the bytes.
    NoMemory,
    /// No prefix of the bytes is an encoding.
    NoEncoding,
}

impl From<AllocError> for DecodeError {
    ghost use Rattle.std.specs.Prelude.{◌≡◌};
    ghost use Rattle.command_encodings.specs.declared.decode_error.DecodeError.TheVariants.{NoMemory};

    ghost from_gives = { λ _ e. e ≡ NoMemory };

    fn from(_e: AllocError) -> DecodeError {
        DecodeError::NoMemory
    }
}

impl<T: Drop> From<AllocFailed<T>> for DecodeError {
    ghost use Rattle.std.specs.Prelude.{◌≡◌};
    ghost use Rattle.command_encodings.specs.declared.decode_error.DecodeError.TheVariants.{NoMemory};

    ghost from_gives = { λ _ e. e ≡ NoMemory };

    fn from(_e: AllocFailed<T>) -> DecodeError {
        DecodeError::NoMemory
    }
}

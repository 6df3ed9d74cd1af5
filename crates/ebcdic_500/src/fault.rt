//! Why a text was not turned.

use std::alloc::{AllocError, AllocFailed};
use thiserror::Error;

/// Why a text was not turned from or into code page 500.
#[derive(Debug, Drop, PartialEq, Eq, Error)]
pub enum CodePageError {
    /// The byte or character at `at` is outside the table, and each one before it is in the table.
    /// All characters of the table are ASCII, so `at` counts bytes and characters alike.
    #[error("what stands at {at} is not in code page 500")]
    NotInTable { at: usize },
    /// Memory was refused.
    #[error("no memory")]
    NoMemory,
}

impl From<AllocError> for CodePageError {
    ghost use Rattle.std.specs.Prelude.{◌≡◌};
    ghost use Rattle.ebcdic_500.specs.declared.fault.CodePageError.TheVariants.{NoMemory};

    ghost from_gives = { λ _ error. error ≡ NoMemory };

    fn from(_error: AllocError) -> CodePageError {
        CodePageError::NoMemory
    }
}

impl<T: Drop> From<AllocFailed<T>> for CodePageError {
    ghost use Rattle.std.specs.Prelude.{◌≡◌};
    ghost use Rattle.ebcdic_500.specs.declared.fault.CodePageError.TheVariants.{NoMemory};

    ghost from_gives = { λ _ error. error ≡ NoMemory };

    fn from(_error: AllocFailed<T>) -> CodePageError {
        CodePageError::NoMemory
    }
}

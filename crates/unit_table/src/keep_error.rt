//! Why what a question claims and changes was not kept.

ghost use Rattle.std.specs.Prelude.{◌≡◌};

use std::alloc::AllocError;
use thiserror::Error;

/// Why nothing was kept.
#[derive(Clone, Copy, Debug, PartialEq, Eq, Error)]
pub enum KeepError {
    /// The unit would have more than 65,535 claims.
    #[error("too many claims")]
    TooMany,
    /// Memory was refused, or as many units have work as can be numbered.
    #[error("out of memory")]
    NoMemory,
}

impl From<AllocError> for KeepError {
    ghost use Rattle.unit_table.specs.declared.keep_error.KeepError.TheVariants.{NoMemory};

    ghost from_gives = { λ _ e. e ≡ NoMemory };

    fn from(_: AllocError) -> KeepError {
        KeepError::NoMemory
    }
}

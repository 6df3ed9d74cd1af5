//! Why no store was opened.

ghost use Rattle.std.specs.Prelude.{◌≡◌};

use std::alloc::AllocError;
use thiserror::Error;

/// Why a store was not opened.
#[derive(Clone, Copy, Debug, PartialEq, Eq, Error)]
pub enum OpenError {
    /// The disk has no store's size, or does not begin as a store does.
    #[error("not a store")]
    NotAStore,
    /// The store is damaged at this offset of the disk.
    #[error("damaged at {at}")]
    Damaged { at: usize },
    #[error("the device failed")]
    DeviceFailed,
    #[error("no memory")]
    NoMemory,
}

impl From<AllocError> for OpenError {
    ghost use Rattle.durable_core.specs.declared.errors.OpenError.TheVariants.{NoMemory};

    ghost from_gives = { λ _ e. e ≡ NoMemory };

    fn from(_: AllocError) -> Self {
        OpenError::NoMemory
    }
}

/// A disk that was not opened, and why.
#[derive(Debug, Drop)]
pub struct Refused<D> {
    pub disk: D,
    pub error: OpenError,
}

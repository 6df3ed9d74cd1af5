//! Why a call on a store was refused.
ghost use Rattle.std.specs.Prelude.{◌≡◌};

use drda_disk::{DiskError, DiskFault};
use std::alloc::AllocError;
use thiserror::Error;

/// Why no store was opened.
#[derive(Clone, Copy, Debug, PartialEq, Eq, Error)]
pub enum OpenError {
    /// The disk has no store's size, or does not begin with `DRDASTO1`.
    #[error("not a store")]
    NotAStore,
    /// The store is damaged at this offset of the disk.
    #[error("damaged at {at}")]
    Damaged { at: usize },
    #[error("the device failed")]
    DeviceFailed,
    #[error("no memory")]
    NoMemory,
}

impl From<AllocError> for OpenError {
    ghost use Rattle.half_store.specs.declared.errors.OpenError.TheVariants.{NoMemory};

    ghost from_gives = { λ _ e. e ≡ NoMemory };

    fn from(_: AllocError) -> Self {
        OpenError::NoMemory
    }
}

impl From<DiskFault> for OpenError {
    ghost use Rattle.half_store.specs.declared.errors.OpenError.TheVariants.{DeviceFailed};

    ghost from_gives = { λ _ e. e ≡ DeviceFailed };

    fn from(_: DiskFault) -> Self {
        OpenError::DeviceFailed
    }
}

impl From<DiskError> for OpenError {
    ghost use Rattle.half_store.specs.Opened.{open_error_of};

    ghost from_gives = { λ fault e. e ≡ open_error_of fault };

    fn from(fault: DiskError) -> Self {
        match fault {
            DiskError::NoMemory => OpenError::NoMemory,
            DiskError::DeviceFailed => OpenError::DeviceFailed,
        }
    }
}

/// Why no store was made.
#[derive(Clone, Copy, Debug, PartialEq, Eq, Error)]
pub enum FormatError {
    /// A store has 2 MiB to 1 GiB.
    #[error("a store has 2 MiB to 1 GiB")]
    BadSize,
    #[error("the name of a database has 1 to 18 printable characters")]
    BadName,
    #[error("the device failed")]
    DeviceFailed,
    #[error("no memory")]
    NoMemory,
}

impl From<AllocError> for FormatError {
    ghost use Rattle.half_store.specs.declared.errors.FormatError.TheVariants.{NoMemory};

    ghost from_gives = { λ _ e. e ≡ NoMemory };

    fn from(_: AllocError) -> Self {
        FormatError::NoMemory
    }
}

impl From<DiskFault> for FormatError {
    ghost use Rattle.half_store.specs.declared.errors.FormatError.TheVariants.{DeviceFailed};

    ghost from_gives = { λ _ e. e ≡ DeviceFailed };

    fn from(_: DiskFault) -> Self {
        FormatError::DeviceFailed
    }
}

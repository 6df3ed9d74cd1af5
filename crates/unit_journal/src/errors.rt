//! Why a journal's call was refused.
ghost use Rattle.std.specs.Prelude.{◌≡◌};

use drda_disk::{DiskError, DiskFault, Full};
use std::alloc::{AllocError, AllocFailed};
use thiserror::Error;

/// Why no records were laid.
#[derive(Clone, Copy, Debug, PartialEq, Eq, Error)]
pub enum LayError {
    #[error("no memory")]
    NoMemory,
    #[error(transparent)]
    Full(Full),
    #[error("the device failed")]
    DeviceFailed,
}

impl From<AllocError> for LayError {
    ghost use Rattle.unit_journal.specs.declared.errors.LayError.TheVariants.{NoMemory};

    ghost from_gives = { λ _ e. e ≡ NoMemory };

    fn from(_: AllocError) -> Self {
        LayError::NoMemory
    }
}

impl From<DiskFault> for LayError {
    ghost use Rattle.unit_journal.specs.declared.errors.LayError.TheVariants.{DeviceFailed};

    ghost from_gives = { λ _ e. e ≡ DeviceFailed };

    fn from(_: DiskFault) -> Self {
        LayError::DeviceFailed
    }
}

/// Why no journal was opened.
#[derive(Clone, Copy, Debug, PartialEq, Eq, Error)]
pub enum OpenError {
    #[error("no memory")]
    NoMemory,
    /// The open gate at this offset of the disk has no record behind it.
    #[error("damaged at {at}")]
    Damaged { at: usize },
    #[error("the device failed")]
    DeviceFailed,
}

impl<T: Drop> From<AllocFailed<T>> for OpenError {
    ghost use Rattle.unit_journal.specs.declared.errors.OpenError.TheVariants.{NoMemory};

    ghost from_gives = { λ _ e. e ≡ NoMemory };

    fn from(_: AllocFailed<T>) -> Self {
        OpenError::NoMemory
    }
}

impl From<DiskFault> for OpenError {
    ghost use Rattle.unit_journal.specs.declared.errors.OpenError.TheVariants.{DeviceFailed};

    ghost from_gives = { λ _ e. e ≡ DeviceFailed };

    fn from(_: DiskFault) -> Self {
        OpenError::DeviceFailed
    }
}

impl From<DiskError> for OpenError {
    ghost use Rattle.unit_journal.specs.Open.{open_error_of};

    ghost from_gives = { λ fault e. e ≡ open_error_of fault };

    fn from(fault: DiskError) -> Self {
        match fault {
            DiskError::NoMemory => OpenError::NoMemory,
            DiskError::DeviceFailed => OpenError::DeviceFailed,
        }
    }
}

//! Why calls on what lies on a disk came to nothing.
ghost use Rattle.std.specs.Prelude.{◌≡◌};

use crate::DiskFault;
use std::alloc::AllocError;
use thiserror::Error;

/// There is no room in a region of the disk: `need` bytes are asked for and `room` are there.
#[derive(Clone, Copy, Debug, PartialEq, Eq, Error)]
#[error("{need} bytes are needed and there is room for {room}")]
pub struct Full {
    pub need: usize,
    pub room: usize,
}

/// Why nothing was written into a region.
#[derive(Clone, Copy, Debug, PartialEq, Eq, Error)]
pub enum WriteError {
    #[error(transparent)]
    Full(Full),
    #[error("the device failed")]
    DeviceFailed,
}

impl From<DiskFault> for WriteError {
    ghost use Rattle.drda_disk.specs.declared.errors.WriteError.TheVariants.{DeviceFailed};

    ghost from_gives = { λ _ e. e ≡ DeviceFailed };

    fn from(_: DiskFault) -> Self {
        WriteError::DeviceFailed
    }
}

/// Why a call that takes memory and the disk came to nothing.
#[derive(Clone, Copy, Debug, PartialEq, Eq, Error)]
pub enum DiskError {
    #[error("no memory")]
    NoMemory,
    #[error("the device failed")]
    DeviceFailed,
}

impl From<AllocError> for DiskError {
    ghost use Rattle.drda_disk.specs.declared.errors.DiskError.TheVariants.{NoMemory};

    ghost from_gives = { λ _ e. e ≡ NoMemory };

    fn from(_: AllocError) -> Self {
        DiskError::NoMemory
    }
}

impl From<DiskFault> for DiskError {
    ghost use Rattle.drda_disk.specs.declared.errors.DiskError.TheVariants.{DeviceFailed};

    ghost from_gives = { λ _ e. e ≡ DeviceFailed };

    fn from(_: DiskFault) -> Self {
        DiskError::DeviceFailed
    }
}

//! Why no table was written.
ghost use Rattle.std.specs.Prelude.{◌≡◌};

use drda_disk::{DiskError, DiskFault, Full, WriteError};
use row_pages::PageFault;
use std::alloc::AllocError;
use thiserror::Error;
use unit_journal::LayError;

/// Why no rows were written into an image, or the image did not become the active half.
#[derive(Clone, Copy, Debug, PartialEq, Eq, Error)]
pub enum ImageError {
    #[error("no memory")]
    NoMemory,
    #[error("the device failed")]
    DeviceFailed,
    /// A page that was read is none, or has no rows, or a row is too long for a page.
    #[error("a page is damaged")]
    Damaged,
    /// The half has no room for a page more, or for what comes behind the pages.
    #[error(transparent)]
    Full(Full),
}

impl From<AllocError> for ImageError {
    ghost use Rattle.checkpoint_writer.specs.declared.errors.ImageError.TheVariants.{NoMemory};

    ghost from_gives = { λ _ e. e ≡ NoMemory };

    fn from(_: AllocError) -> Self {
        ImageError::NoMemory
    }
}

impl From<PageFault> for ImageError {
    ghost use Rattle.checkpoint_writer.specs.Errors.{error_of};

    ghost from_gives = { λ fault e. e ≡ error_of fault };

    fn from(fault: PageFault) -> Self {
        match fault {
            PageFault::NoMemory => ImageError::NoMemory,
            PageFault::DeviceFailed => ImageError::DeviceFailed,
            PageFault::Damaged => ImageError::Damaged,
        }
    }
}

impl From<WriteError> for ImageError {
    ghost use Rattle.checkpoint_writer.specs.Errors.{unwritten};

    ghost from_gives = { λ fault e. e ≡ unwritten fault };

    fn from(fault: WriteError) -> Self {
        match fault {
            WriteError::Full(full) => ImageError::Full(full),
            WriteError::DeviceFailed => ImageError::DeviceFailed,
        }
    }
}

impl From<DiskFault> for ImageError {
    ghost use Rattle.checkpoint_writer.specs.declared.errors.ImageError.TheVariants.{DeviceFailed};

    ghost from_gives = { λ _ e. e ≡ DeviceFailed };

    fn from(_: DiskFault) -> Self {
        ImageError::DeviceFailed
    }
}

impl From<DiskError> for ImageError {
    ghost use Rattle.checkpoint_writer.specs.Errors.{undone};

    ghost from_gives = { λ fault e. e ≡ undone fault };

    fn from(fault: DiskError) -> Self {
        match fault {
            DiskError::NoMemory => ImageError::NoMemory,
            DiskError::DeviceFailed => ImageError::DeviceFailed,
        }
    }
}

impl From<LayError> for ImageError {
    ghost use Rattle.checkpoint_writer.specs.Errors.{not_laid};

    ghost from_gives = { λ fault e. e ≡ not_laid fault };

    fn from(fault: LayError) -> Self {
        match fault {
            LayError::NoMemory => ImageError::NoMemory,
            LayError::DeviceFailed => ImageError::DeviceFailed,
            LayError::Full(full) => ImageError::Full(full),
        }
    }
}

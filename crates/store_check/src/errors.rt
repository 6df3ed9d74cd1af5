//! Why pages were not found whole.
ghost use Rattle.std.specs.Prelude.{◌≡◌};
ghost use Rattle.store_check.specs.Errors.{error_at};

use row_pages::PageFault;
use thiserror::Error;

/// Why pages were not found whole.
#[derive(Clone, Copy, Debug, PartialEq, Eq, Error)]
pub enum CheckError {
    #[error("no memory")]
    NoMemory,
    #[error("the device failed")]
    DeviceFailed,
    /// The first bad page lies at this offset of the disk.
    #[error("a page is damaged at {at}")]
    Damaged { at: usize },
}

/// The error that a fault of the page at an offset is.
pub(crate) fn error_at(at: usize, fault: PageFault) -> CheckError
    ensures { result ≡ error_at at fault }
{
    match fault {
        PageFault::NoMemory => CheckError::NoMemory,
        PageFault::DeviceFailed => CheckError::DeviceFailed,
        PageFault::Damaged => CheckError::Damaged { at },
    }
}

//! Why tables were not written whole.

use row_pages::PageFault;
use std::alloc::AllocError;
use thiserror::Error;

/// Why tables were not written whole.
#[derive(Clone, Copy, Debug, PartialEq, Eq, Error)]
pub enum DumpError {
    #[error("no memory")]
    NoMemory,
    #[error("the device failed")]
    DeviceFailed,
    /// A page has no rows of its table.
    #[error("a page is damaged")]
    Damaged,
    /// Who is written to took not all.
    #[error("the output failed")]
    NotWritten,
}

impl From<AllocError> for DumpError {
    fn from(_: AllocError) -> DumpError {
        DumpError::NoMemory
    }
}

impl From<PageFault> for DumpError {
    fn from(fault: PageFault) -> DumpError {
        match fault {
            PageFault::NoMemory => DumpError::NoMemory,
            PageFault::DeviceFailed => DumpError::DeviceFailed,
            PageFault::Damaged => DumpError::Damaged,
        }
    }
}

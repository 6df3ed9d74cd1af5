//! That the device failed.

use thiserror::Error;

/// The device failed. Nothing is recorded any more.
#[derive(Clone, Copy, Debug, PartialEq, Eq, Error)]
#[error("the device failed")]
pub struct DeviceFailed;

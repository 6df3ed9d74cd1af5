//! Why records were not made together.

use thiserror::Error;

/// Why no record of a group was made.
#[derive(Clone, Copy, Debug, PartialEq, Eq, Error)]
pub enum GroupError {
    /// Nothing was written: there is no memory or no room for all of them. Each may be made alone.
    #[error("no memory or no room for all of them")]
    Refused,
    /// The device failed. Whether the records are there, all or none, shows when the store is opened again.
    #[error("the device failed")]
    DeviceFailed,
}

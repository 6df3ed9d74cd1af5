//! Why no copy of the state was made.

ghost use Rattle.std.specs.Prelude.{◌≡◌};
ghost use Rattle.durable_core.specs.Copying as spec;

use ahead_view::ReadError;
use rdb_core::PlainState;
use thiserror::Error;

/// Why no copy of the state was made.
#[derive(Clone, Copy, Debug, PartialEq, Eq, Error)]
pub enum PlainError {
    /// Memory was refused.
    #[error("no memory")]
    NoMemory,
    /// The device failed, or gave what is no page.
    #[error("the device failed")]
    DeviceFailed,
    /// The device had failed before.
    #[error("closed")]
    Closed,
}

/// What is told of a copy that was made, or was not.
pub(crate) fn told(copy: Result<PlainState, ReadError>) -> Result<PlainState, PlainError>
    ensures { result ≡ spec.told copy }
{
    match copy {
        Ok(plain) => Ok(plain),
        Err(ReadError::NoMemory) => Err(PlainError::NoMemory),
        Err(ReadError::DeviceFailed) => Err(PlainError::DeviceFailed),
    }
}

//! Why nothing was recorded.

ghost use Rattle.std.specs.Prelude.{◌≡◌};

use std::alloc::AllocError;
use thiserror::Error;

/// Why no record was made.
#[derive(Clone, Copy, Debug, PartialEq, Eq, Error)]
pub enum RecordError {
    /// Memory was refused, before anything was written.
    #[error("no memory")]
    NoMemory,
    /// The record has no place: `need` bytes are asked for and `room` are there. Nothing was written.
    #[error("{need} bytes are needed and there is room for {room}")]
    Full { need: u64, room: u64 },
    /// The device failed. Whether the record is there shows when the store is opened again.
    #[error("the device failed")]
    DeviceFailed,
}

impl From<AllocError> for RecordError {
    ghost use Rattle.unit_records.specs.declared.record_error.RecordError.TheVariants.{NoMemory};

    ghost from_gives = { λ _ e. e ≡ NoMemory };

    fn from(_: AllocError) -> RecordError {
        RecordError::NoMemory
    }
}

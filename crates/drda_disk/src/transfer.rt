//! Reads and writes of a whole range, by as many calls as they take.
ghost use Rattle.std.specs.Prelude.{◌≡◌, ◌+◌, ◌^◌, ◌<◌, ◌≤◌, IsTrue, length, OnOk, IfOk};
ghost use Rattle.drda_words.specs.Place.{part};
ghost use Rattle.drda_disk.specs.Disk.{overlaid, Stays};
ghost use Rattle.drda_disk.specs.PositionalFile.{MayTear};

use crate::PositionalFile;
use std::io::{self, ErrorKind};
use thiserror::Error;

/// How often a read or a write is begun again after an interruption.
const MAX_INTERRUPTIONS: u32 = 1_000_000;

/// Why a file's call failed.
#[derive(Clone, Copy, Debug, PartialEq, Eq, Error)]
pub enum DeviceFault {
    #[error("the file ends before its length")]
    Ended,
    #[error("the file takes no bytes")]
    TookNone,
    #[error("interrupted too often")]
    Interrupted,
    #[error("a sync failed before")]
    SyncFailed,
    /// The system's error, by its kind.
    #[error("the system failed: {0:?}")]
    System(ErrorKind),
}

/// After an interruption, how many more are borne.
fn again(error: io::Error, left: u32) -> Result<u32, DeviceFault>
    ensures { IfOk result (λ fewer. fewer < left) }
{
    match error.kind() {
        ErrorKind::Interrupted if left > 0 => Ok(left - 1),
        ErrorKind::Interrupted => Err(DeviceFault::Interrupted),
        kind => Err(DeviceFault::System(kind)),
    }
}

/// Reads the whole range.
pub(crate) fn read_all<F: PositionalFile>(
    file: &mut F,
    at: usize,
    into: &mut [u8],
) -> Result<(), DeviceFault>
    requires inside { at + length into.old ≤ length (F.life file.old).seen }
    requires small { at + length into.old < 2 ^ 64 }
    ensures read { OnOk result (IsTrue F.is_modelled → into.new ≡ part (F.life file.old).seen at (length into.old)) }
    ensures stays { Stays (F.life file.old) (F.life file.new) }
{
    let mut done = 0;
    let mut left = MAX_INTERRUPTIONS;
    while done < into.len() {
        match file.read_some(at + done, &mut into[done..]) {
            Ok(0) => return Err(DeviceFault::Ended),
            Ok(more) => done += more,
            Err(error) => left = again(error, left)?,
        }
    }
    Ok(())
}

/// Writes the whole range.
pub(crate) fn write_all<F: PositionalFile>(
    file: &mut F,
    at: usize,
    bytes: &[u8],
) -> Result<(), DeviceFault>
    requires inside { at + length bytes.now ≤ length (F.life file.old).seen }
    requires small { at + length bytes.now < 2 ^ 64 }
    ensures written { OnOk result (IsTrue F.is_modelled → (F.life file.new).seen ≡ overlaid (F.life file.old).seen at bytes.now) }
    ensures tears { MayTear at (length bytes.now) (F.life file.old) (F.life file.new) }
{
    let mut done = 0;
    let mut left = MAX_INTERRUPTIONS;
    while done < bytes.len() {
        match file.write_some(at + done, &bytes[done..]) {
            Ok(0) => return Err(DeviceFault::TookNone),
            Ok(more) => done += more,
            Err(error) => left = again(error, left)?,
        }
    }
    Ok(())
}

//! Beginning to write the half that is not active.
ghost use Rattle.std.specs.Prelude.{◌≡◌, ◌≢◌, ◌+◌, ◌-◌, ◌^◌, ◌<◌, ◌≤◌, IsTrue, length, slice_index, OnOk, IfOk, Ok};
ghost use Rattle.drda_disk.specs.Disk.{Only, Torn, LeavesOnly, CountsFault};
ghost use Rattle.drda_disk.specs.Errors.{OnNoMemory, CountsError};
ghost use Rattle.drda_disk.specs.Layout.{open_gate};
ghost use Rattle.half_store.specs.Layout.{is_store_size, half_len, offset_of, other_than};
ghost use Rattle.half_store.specs.Active.{active_of};
ghost use Rattle.half_store.specs.Opened.{store_of};
ghost use Rattle.half_store.specs.Writing.{IsEmpty, IsKept, IsWriting, half_of, half_bytes_of, IsClosing, SaysLast};

use crate::layout::half_bytes;
use crate::{Active, ImageWriter};
use drda_disk::{CLOSED_GATE, Disk, DiskError, DiskFault, OPEN_GATE, write_through};

/// Closes the gate at an offset where it is open, and syncs. A closed one is not written, since a
/// torn write could open it.
fn close_gate<D: Disk>(disk: &mut D, at: usize) -> Result<(), DiskFault>
    requires { at + 1 ≤ length (D.life disk.old).seen }
    ensures any_moment { IsTrue D.is_modelled → Only (D.life disk.old) → LeavesOnly (D.life disk.old) (D.life disk.new) (IsClosing at (D.life disk.old).seen) }
    ensures shut { OnOk result (IsTrue D.is_modelled → slice_index (D.life disk.new).seen at ≢ open_gate) }
    ensures durable { OnOk result (Only (D.life disk.new)) }
    ensures others { Torn at 1 (D.life disk.old).seen (D.life disk.new).seen }
    ensures cause { CountsFault result (D.life disk.old).faults (D.life disk.new).faults }
{
    let mut gate = [0u8; 1];
    disk.read_at(at, &mut gate)?;
    if gate[0] != OPEN_GATE {
        disk.sync()?;
        return Ok(());
    }
    write_through(disk, at, &[CLOSED_GATE])?;
    Ok(())
}

/// The generation behind one that is not the last.
fn following(generation: u64) -> u64
    requires { generation < 2 ^ 64 - 1 }
    ensures { result ≡ generation + 1 }
{
    generation + 1
}

/// Begins to write the half that is not active. Its gate is closed, where it is open, and the disk
/// is synced. The disk has a store's size.
///
/// `NoMemory` comes exactly where the active half has the last generation, 2^64 - 1, and before any
/// device call.
pub fn begin_image<D: Disk>(disk: &mut D, active: &Active) -> Result<ImageWriter, DiskError>
    requires { IsTrue (is_store_size (length (D.life disk.old).seen)) }
    ensures any_moment { IsTrue D.is_modelled → Only (D.life disk.old) → active_of (D.life disk.old).seen ≡ Ok (store_of active.now) →
        LeavesOnly (D.life disk.old) (D.life disk.new)
        (IsKept (D.life disk.old).seen (store_of active.now) (offset_of (half_len (length (D.life disk.old).seen)) (other_than active.now.half)) 1) }
    ensures begun { IfOk result (λ w. IsTrue D.is_modelled → Only (D.life disk.old) → active_of (D.life disk.old).seen ≡ Ok (store_of active.now) →
        IsWriting D.is_modelled (D.life disk.new) (D.life disk.new).seen (store_of active.now) w) }
    ensures half { IfOk result (λ w. (half_of w ≡ other_than active.now.half) × (half_bytes_of w ≡ half_len (length (D.life disk.old).seen))) }
    ensures empty { IfOk result (IsEmpty (length (D.life disk.new).seen)) }
    ensures others { Torn (offset_of (half_len (length (D.life disk.old).seen)) (other_than active.now.half)) 1 (D.life disk.old).seen (D.life disk.new).seen }
    ensures last { SaysLast result active.now.generation }
    ensures refused { OnNoMemory result (disk.new ≡ disk.old) }
    ensures cause { CountsError result (D.life disk.old).faults (D.life disk.new).faults }
{
    if active.generation == u64::MAX {
        return Err(DiskError::NoMemory);
    }
    let half_bytes = half_bytes(disk.size());
    let half = active.half.other();
    let generation = following(active.generation);
    close_gate(disk, half.offset(half_bytes))?;
    Ok(ImageWriter {
        half,
        half_bytes,
        generation,
        pages: 0,
    })
}

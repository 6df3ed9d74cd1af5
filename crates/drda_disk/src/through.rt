//! What most callers ask of a disk: a write that is there to stay, and a read into new memory.
ghost use Rattle.std.specs.Prelude.{◌≡◌, ◌+◌, ◌≤◌, ℕ, List, IsTrue, length, OnOk, IfOk};
ghost use Rattle.drda_words.specs.Place.{part};
ghost use Rattle.drda_disk.specs.Disk.{Only, overlaid, Torn, Stays, LeavesOnly, Within, CountsFault};
ghost use Rattle.drda_disk.specs.Errors.{CountsError};

use crate::{Disk, DiskError, DiskFault};
use std::alloc::Global;

/// Writes the bytes from `at` on and syncs: once this succeeds they outlast a crash. The range lies
/// inside the disk. On a fault the range may hold any bytes.
pub fn write_through<D: Disk>(disk: &mut D, at: usize, bytes: &[u8]) -> Result<(), DiskFault>
    requires { at + length bytes.now ≤ length (D.life disk.old).seen }
    ensures durable { OnOk result (Only (D.life disk.new)) }
    ensures written { OnOk result (IsTrue D.is_modelled → (D.life disk.new).seen ≡ overlaid (D.life disk.old).seen at bytes.now) }
    ensures others { Torn at (length bytes.now) (D.life disk.old).seen (D.life disk.new).seen }

    // At each moment of the call a crash leaves what was durable, but for the range.
    ensures any_moment { Only (D.life disk.old) → LeavesOnly (D.life disk.old) (D.life disk.new) (Torn at (length bytes.now) (D.life disk.old).seen) }
    // Where each image is some base but for a wider range already, no moment of the call adds to that.
    ensures within { (from m : ℕ) (base : List ℕ) → from ≤ at → at + length bytes.now ≤ from + m → Within from m base (D.life disk.old)
        → LeavesOnly (D.life disk.old) (D.life disk.new) (Torn from m base) }
    ensures faults { CountsFault result (D.life disk.old).faults (D.life disk.new).faults }
{
    disk.write_at(at, bytes)?;
    disk.sync()
}

/// The `len` bytes from `at` on, in new memory. The range lies inside the disk.
pub fn read_bytes<D: Disk>(
    alloc: Global,
    disk: &mut D,
    at: usize,
    len: usize,
) -> Result<Vec<u8>, DiskError>
    requires { at + len ≤ length (D.life disk.old).seen }
    ensures read { IfOk result (λ bytes. IsTrue D.is_modelled → bytes.items ≡ part (D.life disk.old).seen at len) }
    ensures len { IfOk result (λ bytes. length bytes.items ≡ len) }
    ensures stays { Stays (D.life disk.old) (D.life disk.new) }
    ensures faults { CountsError result (D.life disk.old).faults (D.life disk.new).faults }
{
    let mut bytes = vec![in alloc; 0; len]?;
    disk.read_at(at, &mut bytes)?;
    Ok(bytes)
}

//! Making a store.
ghost use Rattle.std.specs.Prelude.{◌≡◌, ◌+◌, ◌≤◌, IsTrue, false, length, OnOk};
ghost use Rattle.drda_disk.specs.Disk.{Only, LeavesOnly, overlaid, CountsFault};
ghost use Rattle.half_store.specs.Active.{is_marked};
ghost use Rattle.half_store.specs.Fresh.{is_name, is_store_of, IsFresh, IsNoneOrFresh, IsUnmarked, AnswersFormat, OnRefusedToFormat, CountsFormat};

use crate::FormatError;
use crate::fresh::{blank_page, fresh_front};
use crate::head::{LONGEST_NAME, MARK, MARK_BYTES};
use crate::layout::{FIRST_AT, are_printable, half_bytes, is_store_size};
use drda_disk::{Disk, DiskFault, write_through};
use std::alloc::Global;

/// The name of a database.
fn is_name(name: &str) -> bool
    ensures is { result ≡ is_name name.now }
    ensures short { IsTrue result → length name.now ≤ 18 }
{
    1 <= name.len() && name.len() <= LONGEST_NAME && are_printable(name.as_bytes())
}

/// Whether a store of so many bytes and of this name can be made: it has 2 MiB to 1 GiB, and the name
/// 1 to 18 printable characters without blanks.
pub fn is_store(size: usize, name: &str) -> bool
    ensures { result ≡ is_store_of size name.now }
{
    is_store_size(size) && is_name(name)
}

/// Writes all of a fresh store but its mark, and syncs: these bytes behind the mark, and the header
/// page of the second half.
fn lay<D: Disk>(
    disk: &mut D,
    front: &[u8],
    second_at: usize,
    second: &[u8],
) -> Result<(), DiskFault>
    requires behind { 8 + length front.now ≤ second_at }
    requires inside { second_at + length second.now ≤ length (D.life disk.old).seen }
    ensures unmarked { IsUnmarked (D.life disk.old) → LeavesOnly (D.life disk.old) (D.life disk.new) (λ c. is_marked c ≡ false) }
    ensures written { OnOk result (IsTrue D.is_modelled → (D.life disk.new).seen ≡ overlaid (overlaid (D.life disk.old).seen 8 front.now) second_at second.now) }
    ensures durable { OnOk result (Only (D.life disk.new)) }
    ensures len { length (D.life disk.new).seen ≡ length (D.life disk.old).seen }
    ensures cause { CountsFault result (D.life disk.old).faults (D.life disk.new).faults }
{
    disk.write_at(MARK_BYTES, front)?;
    disk.write_at(second_at, second)?;
    disk.sync()?;
    Ok(())
}

/// Makes a fresh store of this name: no tables, and an empty journal. All but the first eight bytes
/// are written and synced before those are.
///
/// `BadSize` comes where the disk has not 2 MiB to 1 GiB, then `BadName` where the name is not 1 to
/// 18 printable characters without blanks; these and `NoMemory` come before any device call. On a
/// disk that does not begin with `DRDASTO1` a crash at any moment leaves no store or the fresh one;
/// on one that does, nothing is said of a crash before this succeeds.
pub fn format<D: Disk>(alloc: Global, disk: &mut D, name: &str) -> Result<(), FormatError>
    ensures answer { AnswersFormat result (length (D.life disk.old).seen) name.now }
    ensures fresh { OnOk result (IsTrue D.is_modelled → Only (D.life disk.new) × IsFresh name.now (D.life disk.new).seen) }
    ensures any_moment { IsTrue D.is_modelled → IsUnmarked (D.life disk.old) → LeavesOnly (D.life disk.old) (D.life disk.new) (IsNoneOrFresh name.now) }
    ensures refused { OnRefusedToFormat result (disk.new ≡ disk.old) }
    ensures cause { CountsFormat result (D.life disk.old).faults (D.life disk.new).faults }
{
    let size = disk.size();
    if !is_store_size(size) {
        return Err(FormatError::BadSize);
    }
    if !is_name(name) {
        return Err(FormatError::BadName);
    }
    let front = fresh_front(alloc, size, name)?;
    let second = blank_page(alloc)?;
    let half_bytes = half_bytes(size);
    lay(disk, &front, FIRST_AT + half_bytes, &second)?;
    write_through(disk, 0, &MARK)?;
    Ok(())
}

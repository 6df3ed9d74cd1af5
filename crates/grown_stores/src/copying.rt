//! The bytes of a half, copied from disk to disk.

ghost use Rattle.std.specs.Prelude.{◌≡◌, ◌+◌, ◌^◌, ◌<◌, ◌≤◌, IfErr, IsTrue, OnOk, false, length};
ghost use Rattle.drda_words.specs.Place.{part};
ghost use Rattle.drda_disk.specs.Disk.{LeavesOnly, Stays, Torn};
ghost use Rattle.drda_disk.specs.Layout.{page_bytes};
ghost use Rattle.half_store.specs.Active.{is_marked};
ghost use Rattle.half_store.specs.Fresh.{IsUnmarked};
ghost use Rattle.store_files.specs.Stores.{IsOfDevice};

use drda_disk::{Disk, DiskError, read_bytes};
use half_store::FIRST_AT;
use std::alloc::Global;
use store_files::Fault;

/// So many bytes are copied at once.
const AT_ONCE: usize = 1_048_576;

/// Copies so many bytes of a disk, from an offset on, to the first half of another one. A crash meanwhile leaves no store there. Memory for
/// a mebibyte may be refused.
pub(crate) fn copy<D: Disk, E: Disk>(
    alloc: Global,
    old: &mut D,
    from: usize,
    count: usize,
    new: &mut E,
) -> Result<(), Fault>
    requires there { from + count ≤ length (D.life old.old).seen }
    requires room { page_bytes + count ≤ length (E.life new.old).seen }
    requires small { (from + count < 2 ^ 64) × (page_bytes + count < 2 ^ 64) }
    ensures copied { OnOk result (IsTrue D.is_modelled → IsTrue E.is_modelled → part (E.life new.new).seen page_bytes count ≡ part (D.life old.old).seen from count) }
    ensures stays { Stays (D.life old.old) (D.life old.new) }
    ensures size { length (E.life new.new).seen ≡ length (E.life new.old).seen }
    ensures moments { IsUnmarked (E.life new.old) → LeavesOnly (E.life new.old) (E.life new.new) (λ image. is_marked image ≡ false) }
    ensures cause { IfErr result IsOfDevice }
{
    let mut done = 0;
    while done < count {
        let more = AT_ONCE.min(count - done);
        copy_some(alloc, old, from + done, more, new, FIRST_AT + done)?;
        done += more;
    }
    Ok(())
}

// Copies so many bytes at once.
fn copy_some<D: Disk, E: Disk>(
    alloc: Global,
    old: &mut D,
    from: usize,
    count: usize,
    new: &mut E,
    at: usize,
) -> Result<(), Fault>
    requires there { from + count ≤ length (D.life old.old).seen }
    requires room { at + count ≤ length (E.life new.old).seen }
    requires behind { page_bytes ≤ at }
    ensures copied { OnOk result (IsTrue D.is_modelled → IsTrue E.is_modelled → part (E.life new.new).seen at count ≡ part (D.life old.old).seen from count) }
    ensures stays { Stays (D.life old.old) (D.life old.new) }
    ensures others { Torn at count (E.life new.old).seen (E.life new.new).seen }
    ensures moments { IsUnmarked (E.life new.old) → LeavesOnly (E.life new.old) (E.life new.new) (λ image. is_marked image ≡ false) }
    ensures cause { IfErr result IsOfDevice }
{
    let bytes = match read_bytes(alloc, old, from, count) {
        Ok(bytes) => bytes,
        Err(DiskError::NoMemory) => return Err(Fault::NoMemory),
        Err(DiskError::DeviceFailed) => return Err(Fault::Device),
    };
    match new.write_at(at, &bytes) {
        Ok(()) => Ok(()),
        Err(_) => Err(Fault::Device),
    }
}

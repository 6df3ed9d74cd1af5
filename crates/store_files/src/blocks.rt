//! The blocks of a new file.

ghost use Rattle.std.specs.Prelude.{◌≡◌, IfErr, false, length};
ghost use Rattle.drda_disk.specs.Disk.{LeavesOnly};
ghost use Rattle.half_store.specs.Active.{is_marked};
ghost use Rattle.half_store.specs.Fresh.{IsUnmarked};
ghost use Rattle.store_files.specs.Stores.{IsOfDevice};

use crate::fault::Fault;
use drda_disk::Disk;
use half_store::FIRST_AT;
use std::alloc::Global;

/// How many bytes are written at once.
const AT_ONCE: usize = 1_048_576;

/// Writes zeros over a disk, so that the system has its blocks and no later write finds none. The first 8,192 bytes are left: a store's
/// mark stands there, and its head is written whole when it is made. A crash meanwhile leaves no store. Memory for a mebibyte may be
/// refused.
pub fn reserve_blocks<D: Disk>(alloc: Global, disk: &mut D) -> Result<(), Fault>
    ensures size { length (D.life disk.new).seen ≡ length (D.life disk.old).seen }
    ensures moments { IsUnmarked (D.life disk.old) → LeavesOnly (D.life disk.old) (D.life disk.new) (λ image. is_marked image ≡ false) }
    ensures cause { IfErr result IsOfDevice }
{
    let size = disk.size();
    let zeros = vec![in alloc; 0u8; AT_ONCE]?;
    let mut at = FIRST_AT;
    while at < size {
        let count = AT_ONCE.min(size - at);
        let Ok(()) = disk.write_at(at, &zeros[..count]) else {
            return Err(Fault::Device);
        };
        at += count;
    }
    Ok(())
}

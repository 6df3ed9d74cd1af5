//! A half and what stands beside it, but for the mark.

ghost use Rattle.std.specs.Prelude.{◌≡◌, ◌+◌, ◌^◌, ◌<◌, ◌≤◌, IfErr, OnOk, false, length};
ghost use Rattle.drda_disk.specs.Disk.{LeavesOnly, Only, Stays};
ghost use Rattle.drda_disk.specs.Layout.{page_bytes};
ghost use Rattle.half_store.specs.Active.{is_marked};
ghost use Rattle.half_store.specs.Fresh.{IsUnmarked};
ghost use Rattle.store_files.specs.Stores.{IsOfDevice};
ghost use Rattle.grown_stores.specs.Growing.{HasRoom, IsMoved};

use crate::copying::copy;
use crate::laying::lay;
use drda_disk::{Disk, DiskFault};
use std::alloc::Global;
use store_files::{Fault, reserve_blocks};

/// Lays all of a store that is moved but for its mark: so many bytes of the old disk from an offset on, in front of the second half, whose
/// gate is closed, and a head. All blocks of the new disk are there then, and what was written is there to stay.
pub(crate) fn move_half<D: Disk, E: Disk>(
    alloc: Global,
    old: &mut D,
    from: usize,
    count: usize,
    new: &mut E,
    head: &[u8],
    second_at: usize,
) -> Result<(), Fault>
    requires there { from + count ≤ length (D.life old.old).seen }
    requires room { HasRoom count second_at (length head.now) (length (E.life new.old).seen) }
    requires small { (from + count < 2 ^ 64) × (page_bytes + count < 2 ^ 64) }
    ensures moved { OnOk result (IsMoved D.is_modelled E.is_modelled (D.life old.old).seen from count head.now second_at (E.life new.new).seen) }
    ensures durable { OnOk result (Only (E.life new.new)) }
    ensures size { length (E.life new.new).seen ≡ length (E.life new.old).seen }
    ensures stays { Stays (D.life old.old) (D.life old.new) }
    ensures moments { IsUnmarked (E.life new.old) → LeavesOnly (E.life new.old) (E.life new.new) (λ image. is_marked image ≡ false) }
    ensures cause { IfErr result IsOfDevice }
{
    reserve_blocks(alloc, new)?;
    copy(alloc, old, from, count, new)?;
    match lay(new, head, second_at) {
        Ok(()) => Ok(()),
        Err(DiskFault) => Err(Fault::Device),
    }
}

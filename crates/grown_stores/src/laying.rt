//! What a store that is moved has beside its half.

ghost use Rattle.std.specs.Prelude.{◌≡◌, ◌+◌, ◌<◌, ◌≤◌, ◌∷◌, [], IfOk, IsTrue, OnOk, false, length};
ghost use Rattle.drda_disk.specs.Disk.{CountsFault, LeavesOnly, Only, overlaid};
ghost use Rattle.drda_disk.specs.Layout.{page_bytes};
ghost use Rattle.half_store.specs.Active.{is_marked};
ghost use Rattle.half_store.specs.Fresh.{IsUnmarked, head_bytes};

use drda_disk::{CLOSED_GATE, Disk, DiskFault};
use half_store::{MARK_BYTES, push_head};
use std::alloc::{AllocError, Global};

/// The head of a store of this size and name, behind its mark.
pub(crate) fn head_of(alloc: Global, size: usize, name: &str) -> Result<Vec<u8>, AllocError>
    requires { length name.now ≤ 18 }
    ensures { IfOk result (λ bytes. bytes.items ≡ head_bytes size name.now) }
{
    let mut bytes = Vec::new(alloc);
    push_head(&mut bytes, size, name)?;
    Ok(bytes)
}

/// Writes a head behind its mark, and the closed gate of the second half, and syncs.
pub(crate) fn lay<D: Disk>(disk: &mut D, head: &[u8], second_at: usize) -> Result<(), DiskFault>
    requires front { 8 + length head.now ≤ page_bytes }
    requires behind { page_bytes ≤ second_at }
    requires inside { second_at < length (D.life disk.old).seen }
    ensures unmarked { IsUnmarked (D.life disk.old) → LeavesOnly (D.life disk.old) (D.life disk.new) (λ c. is_marked c ≡ false) }
    ensures written { OnOk result (IsTrue D.is_modelled → (D.life disk.new).seen ≡ overlaid (overlaid (D.life disk.old).seen 8 head.now) second_at (0 ∷ [])) }
    ensures durable { OnOk result (Only (D.life disk.new)) }
    ensures len { length (D.life disk.new).seen ≡ length (D.life disk.old).seen }
    ensures cause { CountsFault result (D.life disk.old).faults (D.life disk.new).faults }
{
    disk.write_at(MARK_BYTES, head)?;
    disk.write_at(second_at, &[CLOSED_GATE])?;
    disk.sync()?;
    Ok(())
}

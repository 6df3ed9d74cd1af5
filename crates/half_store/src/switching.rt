//! Switching to the image that was written.
ghost use Rattle.std.specs.Prelude.{◌≡◌, ◌+◌, ◌-◌, ◌^◌, ◌<◌, ◌≤◌, ℕ, List, [], ◌∷◌, IsTrue, length, OnOk, IfOk};
ghost use Rattle.drda_disk.specs.Disk.{Only, Torn, LeavesOnly, Within, overlaid, CountsFault};
ghost use Rattle.drda_disk.specs.Errors.{OnNoMemory, CountsError};
ghost use Rattle.drda_disk.specs.Layout.{open_gate, page_bytes};
ghost use Rattle.half_store.specs.Active.{active_of};
ghost use Rattle.half_store.specs.Opened.{store_of, IsToldAs};
ghost use Rattle.half_store.specs.Writing.{IsWriting, half_bytes_of, pages_of, from_of};
ghost use Rattle.half_store.specs.Switching.{IsBehindGate, IsOldOrNew, switched};

use crate::active::active_at;
use crate::fresh::header_page;
use crate::{Active, Header, ImageWriter, Layout};
use drda_disk::{Disk, DiskError, DiskFault, OPEN_GATE, write_through};
use std::alloc::Global;

/// Writes what stands behind a closed gate and syncs, then opens the gate and syncs.
fn open_gate<D: Disk>(disk: &mut D, at: usize, behind: &[u8]) -> Result<(), DiskFault>
    requires small { at < 2 ^ 40 }
    requires inside { at + 1 + length behind.now ≤ length (D.life disk.old).seen }
    ensures any_moment { (n : ℕ) (base : List ℕ) → IsTrue D.is_modelled → length behind.now ≤ n → Within (at + 1) n base (D.life disk.old) →
        LeavesOnly (D.life disk.old) (D.life disk.new) (IsBehindGate at n base (D.life disk.old).seen behind.now) }
    ensures durable { OnOk result (Only (D.life disk.new)) }
    ensures written { OnOk result (IsTrue D.is_modelled → (D.life disk.new).seen ≡ overlaid (overlaid (D.life disk.old).seen (at + 1) behind.now) at (open_gate ∷ [])) }
    ensures others { Torn at (1 + length behind.now) (D.life disk.old).seen (D.life disk.new).seen }
    ensures cause { CountsFault result (D.life disk.old).faults (D.life disk.new).faults }
{
    write_through(disk, at + 1, behind)?;
    write_through(disk, at, &[OPEN_GATE])?;
    Ok(())
}

impl ImageWriter {
    /// Makes the half that was written the active one, of layout 2, with its catalogue at these of its
    /// pages: the header is written and all that was written is synced before the gate is opened, and
    /// then that is synced. `active` is the half from which the image was begun.
    ///
    /// A crash at any moment leaves the old active half, or the new one with all that was read of it
    /// before the call. `NoMemory` comes before any device call; on `DeviceFailed` either of the two
    /// may count.
    pub fn switch<D: Disk>(
        self,
        alloc: Global,
        disk: &mut D,
        active: &Active,
        first_catalogue: u32,
        catalogue_pages: u32,
    ) -> Result<Active, DiskError>
        requires inside { from_of self + half_bytes_of self ≤ length (D.life disk.old).seen }
        requires catalogue { first_catalogue + catalogue_pages ≤ pages_of self }
        ensures any_moment { (base : List ℕ) → IsWriting D.is_modelled (D.life disk.old) base (store_of active.now) self →
            LeavesOnly (D.life disk.old) (D.life disk.new)
            (IsOldOrNew base (D.life disk.old).seen (store_of active.now) (switched (store_of active.now) self first_catalogue catalogue_pages) (from_of self) (half_bytes_of self)) }
        ensures active { OnOk result ((base : List ℕ) → IsWriting D.is_modelled (D.life disk.old) base (store_of active.now) self →
            active_of (D.life disk.new).seen ≡ Ok (switched (store_of active.now) self first_catalogue catalogue_pages)) }
        ensures durable { OnOk result (Only (D.life disk.new)) }
        ensures told { IfOk result (IsToldAs (switched (store_of active.now) self first_catalogue catalogue_pages) (half_bytes_of self)) }
        ensures others { Torn (from_of self) page_bytes (D.life disk.old).seen (D.life disk.new).seen }
        ensures refused { OnNoMemory result (disk.new ≡ disk.old) }
        ensures cause { CountsError result (D.life disk.old).faults (D.life disk.new).faults }
    {
        let header = Header {
            generation: self.generation,
            pages: self.pages,
            first_catalogue,
            catalogue_pages,
            layout: Layout::Two,
        };
        let name = active.name.clone()?;
        let page = header_page(alloc, header)?;
        open_gate(disk, self.half.offset(self.half_bytes), &page)?;
        Ok(active_at(self.half_bytes, name, self.half, header))
    }
}

//! Making an image the active half.
ghost use Rattle.std.specs.Prelude.{◌≡◌, ◌+◌, ◌≤◌, ℕ, List, IfOk, length};
ghost use Rattle.drda_disk.specs.Disk.{LeavesOnly};
ghost use Rattle.unit_journal.specs.Record.{entries_of, laid};
ghost use Rattle.half_store.specs.Opened.{store_of};
ghost use Rattle.half_store.specs.Switching.{switched};
ghost use Rattle.half_store.specs.Writing.{IsWriting, from_of, half_bytes_of, pages_of};
ghost use Rattle.checkpoint_writer.specs.Errors.{CountsImage};
ghost use Rattle.checkpoint_writer.specs.Moment.{IsActive, IsSwitched, Moment, OnRefused, TellsEnd};

use crate::ImageError;
use drda_disk::Disk;
use half_store::{Active, ImageWriter};
use std::alloc::Global;
use unit_journal::{Journal, Record};

/// The half that became active, and its journal.
#[derive(Drop)]
pub struct Switched {
    pub active: Active,
    pub journal: Journal,
}

/// Lays these records and no others behind the pages of an image, with `held` bytes held back behind
/// them, and makes it the active half, with its catalogue at these of its pages. `active` is the half
/// from which the image was begun.
///
/// A crash at any moment leaves the old half, or the new one with its pages and just these records.
/// After `NoMemory` and `Full` the old half goes on; on `DeviceFailed` either of the two may count.
/// `Full` comes exactly where the records, the bytes held back and a gate do not fit behind the pages,
/// and before any device call; `Damaged` never.
pub fn finish_image<D: Disk>(
    alloc: Global,
    disk: &mut D,
    image: ImageWriter,
    active: &Active,
    first_catalogue: u32,
    catalogue_pages: u32,
    records: &[Record],
    held: usize,
) -> Result<Switched, ImageError>
    requires inside { from_of image + half_bytes_of image ≤ length (D.life disk.old).seen }
    requires catalogue { first_catalogue + catalogue_pages ≤ pages_of image }
    ensures any_moment { (base : List ℕ) → IsWriting D.is_modelled (D.life disk.old) base (store_of active.now) image →
        LeavesOnly (D.life disk.old) (D.life disk.new) (Moment base (D.life disk.old).seen (store_of active.now) image first_catalogue catalogue_pages (entries_of records.now) held) }
    ensures done { IfOk result (λ s. (base : List ℕ) → IsWriting D.is_modelled (D.life disk.old) base (store_of active.now) image →
        IsSwitched D.is_modelled (D.life disk.new) (D.life disk.old).seen (switched (store_of active.now) image first_catalogue catalogue_pages) image s (entries_of records.now) held) }
    ensures active { IfOk result (IsActive image (switched (store_of active.now) image first_catalogue catalogue_pages) held) }
    ensures size { length (D.life disk.new).seen ≡ length (D.life disk.old).seen }
    ensures refused { OnRefused result ((base : List ℕ) → IsWriting D.is_modelled (D.life disk.old) base (store_of active.now) image → IsWriting D.is_modelled (D.life disk.new) base (store_of active.now) image) }
    ensures told { TellsEnd result image (length (laid (entries_of records.now)) + held) }
    ensures cause { CountsImage result (D.life disk.old).faults (D.life disk.new).faults }
{
    let journal = Journal::lay(alloc, disk, image.finish_pages(), records, held)?;
    let active = image.switch(alloc, disk, active, first_catalogue, catalogue_pages)?;
    Ok(Switched { active, journal })
}

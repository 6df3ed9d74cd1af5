//! Writing a checkpoint.
ghost use Rattle.std.specs.Prelude.{◌≡◌, ℕ, List, IsTrue, IfOk, length};
ghost use Rattle.drda_disk.specs.Disk.{LeavesOnly, Now, Stays};
ghost use Rattle.half_store.specs.Layout.{half_len, is_store_size};
ghost use Rattle.half_store.specs.Opened.{store_of};
ghost use Rattle.half_store.specs.Writing.{IsWriting, half_bytes_of};
ghost use Rattle.unit_journal.specs.Record.{entries_of};
ghost use Rattle.checkpoint_writer.specs.Errors.{CountsImage};
ghost use Rattle.checkpoint_writer.specs.Moment.{OnRefused};
ghost use Rattle.store_check.specs.Moment.{GoesOn, IsOld, Moment, Rests};
ghost use Rattle.store_check.specs.Room.{need_of};
ghost use Rattle.paged_tables.specs.PagedTables.{store_in};
ghost use Rattle.paged_tables.specs.TablesByName.{LieInside, created_of};
ghost use Rattle.paged_checkpoints.specs.Apart.{AreReadable, StandApart};
ghost use Rattle.paged_checkpoints.specs.Laying.{all_shown};
ghost use Rattle.paged_checkpoints.specs.Written.{IsBegun, IsLaidAnew, IsLaidIn, StandsAnew, TellsExactly, TellsWriting};

use crate::pages::write_pages;
use crate::room::check_room;
use checkpoint_writer::{ImageError, Switched, finish_image};
use drda_disk::Disk;
use half_store::{Active, ImageWriter, begin_image};
use paged_tables::{PagedTables, TablesLeft};
use std::alloc::Global;
use table_map::TablePages;
use unit_journal::Record;

/// The half that became active, and where the tables' pages lie in it: one list of pages for each table
/// that is created, in the order of their names, for `PagedTables::relaid`.
#[derive(Drop)]
pub struct Relaid {
    pub switched: Switched,
    pub pages: Vec<TablePages>,
}

/// Writes tables and records into an image that was begun, and makes it the active half.
fn write_image<'a, D: Disk>(
    alloc: Global,
    disk: &mut D,
    image: ImageWriter,
    active: &Active,
    tables: TablesLeft<'a>,
    records: &[Record],
    held: usize,
) -> Result<Relaid, ImageError>
    requires { IsBegun (length (D.life disk.old).seen) image tables }
    ensures any_moment { AreReadable D.is_modelled (D.life disk.old).seen image tables.entry → (base : List ℕ) → IsWriting D.is_modelled (D.life disk.old) base (store_of active.now) image →
        LeavesOnly (D.life disk.old) (D.life disk.new) (Moment base (store_of active.now) (all_shown tables.entry) (entries_of records.now) held) }
    ensures done { IfOk result (λ r. AreReadable D.is_modelled (D.life disk.old).seen image tables.entry → (base : List ℕ) → IsWriting D.is_modelled (D.life disk.old) base (store_of active.now) image →
        StandsAnew D.is_modelled (D.life disk.new) base (store_of active.now) (all_shown tables.entry) tables.entry (entries_of records.now) held r) }
    ensures refused { OnRefused result ((base : List ℕ) → IsWriting D.is_modelled (D.life disk.old) base (store_of active.now) image →
        (c : List ℕ) → Now (D.life disk.new) c → IsOld base (store_of active.now) c) }
    ensures laid { IfOk result (IsLaidIn image tables.entry held) }
    ensures size { length (D.life disk.new).seen ≡ length (D.life disk.old).seen }
    ensures told { AreReadable D.is_modelled (D.life disk.old).seen image tables.entry → TellsWriting result (need_of (all_shown tables.entry) (entries_of records.now) held) (half_bytes_of image) }
    ensures cause { CountsImage result (D.life disk.old).faults (D.life disk.new).faults }
{
    store_check::laws::checkpoints_are_known();
    let mut image = image;
    let written = write_pages(alloc, disk, &mut image, tables)?;
    let first = written.first_catalogue;
    let pages = image.pages() - first;
    match finish_image(alloc, disk, image, active, first, pages, records, held) {
        Ok(switched) => Ok(Relaid {
            switched,
            pages: written.pages,
        }),
        Err(error) => Err(error),
    }
}

/// Writes a checkpoint, for which there is room.
fn write_half<D: Disk>(
    alloc: Global,
    disk: &mut D,
    active: &Active,
    tables: &PagedTables,
    records: &[Record],
    held: usize,
) -> Result<Relaid, ImageError>
    requires size { IsTrue (is_store_size (length (D.life disk.old).seen)) }
    requires tables { LieInside (length (D.life disk.old).seen) tables.now.tables }
    ensures any_moment { Rests D.is_modelled (D.life disk.old) (store_of active.now) → StandApart D.is_modelled (D.life disk.old).seen (store_of active.now) tables.now.tables →
        LeavesOnly (D.life disk.old) (D.life disk.new) (Moment (D.life disk.old).seen (store_of active.now) (store_in tables.now) (entries_of records.now) held) }
    ensures done { IfOk result (λ r. Rests D.is_modelled (D.life disk.old) (store_of active.now) → StandApart D.is_modelled (D.life disk.old).seen (store_of active.now) tables.now.tables →
        StandsAnew D.is_modelled (D.life disk.new) (D.life disk.old).seen (store_of active.now) (store_in tables.now) (created_of tables.now.tables) (entries_of records.now) held r) }
    ensures goes_on { OnRefused result (Rests D.is_modelled (D.life disk.old) (store_of active.now) → GoesOn (D.life disk.new) (D.life disk.old).seen (store_of active.now)) }
    ensures laid { IfOk result (IsLaidAnew tables.now held (length (D.life disk.new).seen)) }
    ensures size { length (D.life disk.new).seen ≡ length (D.life disk.old).seen }
    ensures told { StandApart D.is_modelled (D.life disk.old).seen (store_of active.now) tables.now.tables → TellsWriting result (need_of (store_in tables.now) (entries_of records.now) held) (half_len (length (D.life disk.old).seen)) }
    ensures cause { CountsImage result (D.life disk.old).faults (D.life disk.new).faults }
{
    let image = begin_image(disk, active)?;
    match write_image(alloc, disk, image, active, tables.lend(), records, held) {
        Ok(relaid) => Ok(relaid),
        Err(ImageError::DeviceFailed) => Err(ImageError::DeviceFailed),
        // What was written is synced, so that a crash leaves what is read.
        Err(ImageError::NoMemory) => {
            disk.sync()?;
            Err(ImageError::NoMemory)
        }
        Err(ImageError::Damaged) => {
            disk.sync()?;
            Err(ImageError::Damaged)
        }
        Err(ImageError::Full(full)) => {
            disk.sync()?;
            Err(ImageError::Full(full))
        }
    }
}

/// Writes a checkpoint of these tables: all rows of each table that is created, those of its pages with
/// the changes since, into pages of the half that is not active, behind them their catalogue, and behind
/// that these records and no others; then that half becomes the active one, and its journal holds `held`
/// bytes back. The disk has a store's size.
///
/// Where the tables' pages stand in the disk, outside of the half that is not active (`StandApart`), a
/// crash at any moment leaves the old half as it was, or the new one whole (`Moment`), and the tables can
/// be laid over the pages that are returned. After `NoMemory` and `Full` the old half goes on, unchanged,
/// and a crash leaves it; on `DeviceFailed` either of the two may count.
///
/// `Full` comes exactly where the half has no room for the header, the pages of the tables and of their
/// catalogue, the records, the bytes held back and a gate: of a disk that gives back what was written, on
/// which the tables' pages stand. It is counted before anything is written: `need` is the bytes of all that,
/// and `room` those of the half. `NoMemory` comes where memory is refused, and at the last generation, 2^64 - 1.
/// `Damaged` comes only where a page of the tables does not stand in the disk as it was written; the old
/// half goes on then too.
pub fn write_checkpoint<D: Disk>(
    alloc: Global,
    disk: &mut D,
    active: &Active,
    tables: &PagedTables,
    records: &[Record],
    held: usize,
) -> Result<Relaid, ImageError>
    requires size { IsTrue (is_store_size (length (D.life disk.old).seen)) }
    requires tables { LieInside (length (D.life disk.old).seen) tables.now.tables }
    ensures any_moment { Rests D.is_modelled (D.life disk.old) (store_of active.now) → StandApart D.is_modelled (D.life disk.old).seen (store_of active.now) tables.now.tables →
        LeavesOnly (D.life disk.old) (D.life disk.new) (Moment (D.life disk.old).seen (store_of active.now) (store_in tables.now) (entries_of records.now) held) }
    ensures done { IfOk result (λ r. Rests D.is_modelled (D.life disk.old) (store_of active.now) → StandApart D.is_modelled (D.life disk.old).seen (store_of active.now) tables.now.tables →
        StandsAnew D.is_modelled (D.life disk.new) (D.life disk.old).seen (store_of active.now) (store_in tables.now) (created_of tables.now.tables) (entries_of records.now) held r) }
    ensures goes_on { OnRefused result (Rests D.is_modelled (D.life disk.old) (store_of active.now) → GoesOn (D.life disk.new) (D.life disk.old).seen (store_of active.now)) }
    ensures laid { IfOk result (IsLaidAnew tables.now held (length (D.life disk.new).seen)) }
    ensures size { length (D.life disk.new).seen ≡ length (D.life disk.old).seen }
    ensures told { StandApart D.is_modelled (D.life disk.old).seen (store_of active.now) tables.now.tables
        → TellsExactly result (need_of (store_in tables.now) (entries_of records.now) held) (half_len (length (D.life disk.old).seen)) (Stays (D.life disk.old) (D.life disk.new)) }
    ensures cause { CountsImage result (D.life disk.old).faults (D.life disk.new).faults }
{
    check_room(alloc, disk, tables, records, held)?;
    write_half(alloc, disk, active, tables, records, held)
}

//! Whether there is room for a checkpoint.
ghost use Rattle.std.specs.Prelude.{◌≡◌, IsTrue, length};
ghost use Rattle.drda_disk.specs.Disk.{Stays};
ghost use Rattle.half_store.specs.Layout.{half_len, is_store_size};
ghost use Rattle.unit_journal.specs.Record.{entries_of};
ghost use Rattle.checkpoint_writer.specs.Errors.{CountsImage, DamagedWhere};
ghost use Rattle.store_check.specs.Room.{SaysRoom, need_of};
ghost use Rattle.paged_tables.specs.PagedTables.{store_in};
ghost use Rattle.paged_tables.specs.TablesByName.{AreOnPages, LieInside};

use crate::counting::{most_bytes, needed_bytes};
use checkpoint_writer::ImageError;
use drda_disk::{Disk, Full};
use half_store::half_bytes;
use paged_tables::PagedTables;
use std::alloc::Global;
use unit_journal::Record;

/// Whether a half has room for these tables, these records and so many bytes held back. `Full` comes exactly
/// where it has none, and tells what is needed and what there is. Nothing is written, and pages are read only
/// where what they can take at most has no room: then each is read once.
pub(crate) fn check_room<D: Disk>(
    alloc: Global,
    disk: &mut D,
    tables: &PagedTables,
    records: &[Record],
    held: usize,
) -> Result<(), ImageError>
    requires size { IsTrue (is_store_size (length (D.life disk.old).seen)) }
    requires tables { LieInside (length (D.life disk.old).seen) tables.now.tables }
    ensures full { IsTrue D.is_modelled → AreOnPages (D.life disk.old).seen tables.now.tables
        → SaysRoom result (need_of (store_in tables.now) (entries_of records.now) held) (half_len (length (D.life disk.old).seen)) }
    ensures damaged { IsTrue D.is_modelled → AreOnPages (D.life disk.old).seen tables.now.tables → DamagedWhere ⊥ result }
    ensures stays { Stays (D.life disk.old) (D.life disk.new) }
    ensures cause { CountsImage result (D.life disk.old).faults (D.life disk.new).faults }
{
    let room = half_bytes(disk.size());
    if most_bytes(alloc, tables.lend(), records, held)? <= room {
        return Ok(());
    }
    let need = needed_bytes(alloc, disk, tables.lend(), records, held)?;
    if need > room {
        return Err(ImageError::Full(Full { need, room }));
    }
    Ok(())
}

//! Writing the rows of a table that lie in memory.
ghost use Rattle.std.specs.Prelude.{◌≡◌, ◌+◌, ◌*◌, ◌≤◌, ◌++◌, ◌∷◌, ℕ, List, IsTrue, OnOk, IfOk, length};
ghost use Rattle.std.specs.List.{AllByRecursion};
ghost use Rattle.drda_disk.specs.Layout.{page_bytes};
ghost use Rattle.row_pages.specs.Laying.{IsShort, laid};
ghost use Rattle.key_map.specs.Merging.{InOrder};
ghost use Rattle.key_map.specs.Walk.{rows_left};
ghost use Rattle.half_store.specs.Writing.{from_of, half_bytes_of, next_of};
ghost use Rattle.table_map.specs.Table.{without_keys};
ghost use Rattle.checkpoint_writer.specs.Adding.{AddsPages, end_of_half};
ghost use Rattle.checkpoint_writer.specs.Errors.{CountsImage, DamagedWhere, TellsFull};
ghost use Rattle.checkpoint_writer.specs.Stored.{HaveKeys, IsImageOf};

use crate::ImageError;
use crate::merging::TableWriter;
use drda_disk::Disk;
use half_store::ImageWriter;
use key_map::Rows;
use std::alloc::Global;
use table_map::TablePages;

/// Writes all of these rows, which lie in memory in the order of their keys, into pages behind those
/// that the image has, so that a page ends only where the next row does not fit. No rows take no page.
/// Where the pages lie then is returned, with the key of each one's first row.
///
/// `Full` is told only where the half has no room for all of the pages and a gate behind them, and
/// `Damaged` only where one of the rows is too long for a page. After a fault some of the pages may
/// have been written. At any moment the active half stays what it is.
pub fn write_rows<D: Disk>(
    alloc: Global,
    rows: Rows<'_>,
    disk: &mut D,
    image: &mut ImageWriter,
) -> Result<TablePages, ImageError>
    requires inside { from_of image.old + half_bytes_of image.old ≤ length (D.life disk.old).seen }
    ensures adds { AddsPages D.is_modelled (D.life disk.old) (D.life disk.new) image.old image.new }
    ensures at { IfOk result (λ written. written.at ≡ next_of image.old) }
    ensures pages { IfOk result (λ written. next_of image.new ≡ written.at + page_bytes * length written.keys) }
    ensures count { IfOk result (λ written. length written.keys ≡ length (laid (without_keys (rows_left rows.entry)))) }
    ensures rows { (key_of : List ℕ → List ℕ) → IsTrue D.is_modelled → InOrder (rows_left rows.entry) → HaveKeys key_of (rows_left rows.entry)
        → IfOk result (λ written. IsImageOf key_of (rows_left rows.entry) written (D.life disk.new).seen) }
    ensures full { TellsFull result (end_of_half image.old) (next_of image.old + page_bytes * length (laid (without_keys (rows_left rows.entry)))) }
    ensures damaged { DamagedWhere (AllByRecursion IsShort (without_keys (rows_left rows.entry)) → ⊥) result }
    ensures cause { CountsImage result (D.life disk.old).faults (D.life disk.new).faults }
{
    row_pages::laws::one_laying();
    let at = image.finish_pages().at;
    let mut left = rows;
    let mut writer = TableWriter::new(alloc)?;
    while let Some((key, row)) = left.next() {
        writer.add_at(alloc, disk, image, key, row)?;
    }
    let TableWriter { rows, first_keys } = writer;
    rows.finish(disk, image)?;
    Ok(TablePages::new(at, first_keys))
}

//! The catalogue of an image: where each of its tables lies.
ghost use Rattle.std.specs.Prelude.{◌≡◌, ◌+◌, ◌*◌, ◌≤◌, ◌∷◌, ℕ, List, true, IsTrue, OnOk, length, map};
ghost use Rattle.row_pages.specs.Laying.{IsShort, laid, pages_with};
ghost use Rattle.row_values.specs.Schema.{is_name};
ghost use Rattle.std.specs.List.{AllByRecursion};
ghost use Rattle.drda_disk.specs.Layout.{page_bytes};
ghost use Rattle.half_store.specs.Writing.{from_of, half_bytes_of, next_of};
ghost use Rattle.checkpoint_writer.specs.Adding.{AddsPages, end_of_half};
ghost use Rattle.checkpoint_writer.specs.Catalogue.{Entry, HaveNames, entry_bytes, place_of, rows_of};
ghost use Rattle.checkpoint_writer.specs.Errors.{CountsImage, DamagedWhere, TellsFull};
ghost use Rattle.checkpoint_writer.specs.Laying.{StandAt};

use crate::entry::entry_row;
use crate::rows::RowWriter;
use crate::{ImageError, TablePlace};
use drda_disk::Disk;
use half_store::ImageWriter;
use row_pages::{PageCount, PageKind};
use row_values::Schema;
use std::alloc::{AllocError, Global};

/// Writes the catalogue of these tables into pages behind those that the image has: a row for each, in
/// their order. Their names are good ones.
///
/// `Full` is told only where the half has no room for all of the pages and a gate behind them, and
/// `Damaged` never. After a fault some of the pages may have been written. At any moment the active half stays what it is.
pub fn write_catalogue<D: Disk>(
    alloc: Global,
    disk: &mut D,
    image: &mut ImageWriter,
    tables: &[TablePlace<'_>],
) -> Result<(), ImageError>
    requires names { HaveNames (map place_of tables.now) }
    requires inside { from_of image.old + half_bytes_of image.old ≤ length (D.life disk.old).seen }
    ensures adds { AddsPages D.is_modelled (D.life disk.old) (D.life disk.new) image.old image.new }
    ensures stand { OnOk result (IsTrue D.is_modelled → StandAt PageKind.Catalogue (D.life disk.new).seen (next_of image.old) (laid (rows_of (map place_of tables.now)))) }
    ensures pages { OnOk result (next_of image.new ≡ next_of image.old + page_bytes * length (laid (rows_of (map place_of tables.now)))) }
    ensures short { OnOk result (AllByRecursion IsShort (rows_of (map place_of tables.now))) }
    ensures full { TellsFull result (end_of_half image.old) (next_of image.old + page_bytes * length (laid (rows_of (map place_of tables.now)))) }
    ensures damaged { DamagedWhere ⊥ result }
    ensures cause { CountsImage result (D.life disk.old).faults (D.life disk.new).faults }
{
    let mut rows = RowWriter::new(alloc, PageKind::Catalogue)?;
    let mut left = tables;
    while let [table, rest @ ..] = left {
        rows.add(alloc, disk, image, &entry_row(alloc, table)?)?;
        left = rest;
    }
    rows.finish(disk, image)?;
    Ok(())
}

/// Counts the row of one table more, of a good name, into the pages of a catalogue. The row is as long wherever the
/// table's pages will lie, so they need not be known yet.
pub fn count_entry(
    alloc: Global,
    count: &mut PageCount,
    name: &str,
    schema: &Schema,
) -> Result<(), AllocError>
    requires { is_name name.now ≡ true }
    ensures { OnOk result ((e : Entry) (rows : List (List ℕ)) → e.name ≡ name.now → e.schema ≡ schema.now → pages_with count.new rows ≡ pages_with count.old (entry_bytes e ∷ rows)) }
{
    let place = TablePlace {
        name,
        schema,
        first_page: 0,
        pages: 0,
    };
    count.push(&entry_row(alloc, &place)?);
    Ok(())
}

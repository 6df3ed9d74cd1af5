//! Writing tables one behind another.
ghost use Rattle.std.specs.Prelude.{◌≡◌, ◌+◌, ◌*◌, ◌≤◌, ◌++◌, ◌∷◌, ◌==◌, [], ℕ, List, OnOk, IfOk, IfErr, length, if◌then◌else◌};
ghost use Rattle.drda_disk.specs.Layout.{page_bytes};
ghost use Rattle.half_store.specs.Writing.{from_of, half_bytes_of, next_of};
ghost use Rattle.checkpoint_writer.specs.Adding.{AddsPages, end_of_half};
ghost use Rattle.checkpoint_writer.specs.Catalogue.{place_of};
ghost use Rattle.checkpoint_writer.specs.Errors.{CountsImage, DamagedWhere, TellsFull};
ghost use Rattle.checkpoint_writer.specs.declared.errors.ImageError.TheVariants.{NoMemory};
ghost use Rattle.store_check.specs.Laying.{IsGood};
ghost use Rattle.store_check.specs.Room.{pages_of_table, pages_of_tables};
ghost use Rattle.paged_tables.specs.Lending.{IsLent};
ghost use Rattle.paged_tables.specs.Stored.{Stored, table_in};
ghost use Rattle.paged_checkpoints.specs.Apart.{AreReadable, IsReadable};
ghost use Rattle.paged_checkpoints.specs.Laying.{IsUnder, LaysTable, all_shown, created_entry};
ghost use Rattle.paged_checkpoints.specs.Written.{AreListed, AreWritten, IsBegun, IsLast, TellsPages};

use checkpoint_writer::{ImageError, TablePlace, merge_into};
use drda_disk::Disk;
use half_store::ImageWriter;
use paged_tables::{TableRef, TablesLeft};
use std::alloc::Global;
use table_map::{SchemaKeys, TablePages};

/// A table that was laid into an image: its place in the catalogue, and where its pages lie.
#[derive(Drop)]
struct LaidTable<'a> {
    place: TablePlace<'a>,
    pages: TablePages,
}

/// Tables that were laid into an image: their places in its catalogue, and where their pages lie.
#[derive(Drop)]
pub(crate) struct LaidTables<'a> {
    pub(crate) places: Vec<TablePlace<'a>>,
    pub(crate) pages: Vec<TablePages>,
}

/// The number of the first one of so many pages; 0 where there is none.
fn first_page(pages: u32, first: u32) -> u32
    ensures { result ≡ (if pages == 0 then 0 else first) }
{
    if pages == 0 { 0 } else { first }
}

/// Writes all rows of a table, those of its pages with the changes since, into pages behind those that
/// the image has.
fn write_table<'a, D: Disk>(
    alloc: Global,
    disk: &mut D,
    image: &mut ImageWriter,
    table: TableRef<'a>,
) -> Result<LaidTable<'a>, ImageError>
    requires inside { from_of image.old + half_bytes_of image.old ≤ length (D.life disk.old).seen }
    requires table { table.rows.now.places.at + page_bytes * length table.rows.now.places.keys ≤ length (D.life disk.old).seen }
    ensures adds { AddsPages D.is_modelled (D.life disk.old) (D.life disk.new) image.old image.new }
    ensures under { (e : List ℕ × Stored) → IsLent e table.entry → OnOk result (IsUnder e) }
    ensures last { IfOk result (λ laid. IsLast image.old image.new table.entry.name.now laid) }
    ensures laid { (e : List ℕ × Stored) → IsLent e table.entry → IsGood (created_entry e) → IsReadable D.is_modelled (D.life disk.old).seen image.old e.1
        → IfOk result (λ laid. LaysTable (D.life disk.new).seen image.old image.new (created_entry e) (place_of laid.place) laid.pages) }
    ensures full { (e : List ℕ × Stored) → IsLent e table.entry → IsReadable D.is_modelled (D.life disk.old).seen image.old e.1
        → TellsFull result (end_of_half image.old) (next_of image.old + page_bytes * pages_of_table (table_in e.1)) }
    ensures damaged { (e : List ℕ × Stored) → IsLent e table.entry → IsGood (created_entry e) → IsReadable D.is_modelled (D.life disk.old).seen image.old e.1
        → DamagedWhere ⊥ result }
    ensures cause { CountsImage result (D.life disk.old).faults (D.life disk.new).faults }
{
    key_map::laws::rows_have_their_forms();
    let TableRef { name, schema, rows } = table;
    let _columns = schema.columns();
    let first = image.pages();
    let noted = merge_into(alloc, &SchemaKeys { schema }, rows, disk, image)?;
    let pages = image.pages() - first;
    let place = TablePlace {
        name,
        schema,
        first_page: first_page(pages, first),
        pages,
    };
    Ok(LaidTable {
        place,
        pages: noted.pages,
    })
}

/// Puts a table behind others.
fn push_table<'a>(tables: &mut LaidTables<'a>, table: LaidTable<'a>) -> Result<(), ImageError>
    ensures places { OnOk result (tables.new.places.items ≡ tables.old.places.items ++ table.entry.place ∷ []) }
    ensures pages { OnOk result (tables.new.pages.items ≡ tables.old.pages.items ++ table.entry.pages ∷ []) }
    ensures fault { IfErr result (λ e. e ≡ NoMemory) }
    ensures cause { (n : ℕ) → CountsImage result n n }
{
    if tables.places.push(table.place).is_err() {
        return Err(ImageError::NoMemory);
    }
    match tables.pages.push(table.pages) {
        Ok(()) => Ok(()),
        Err(_) => Err(ImageError::NoMemory),
    }
}

/// Writes all tables that are left to lend into pages of an image that has none.
pub(crate) fn write_tables<'a, D: Disk>(
    alloc: Global,
    disk: &mut D,
    image: &mut ImageWriter,
    tables: TablesLeft<'a>,
) -> Result<LaidTables<'a>, ImageError>
    requires { IsBegun (length (D.life disk.old).seen) image.old tables }
    ensures adds { AddsPages D.is_modelled (D.life disk.old) (D.life disk.new) image.old image.new }
    ensures listed { IfOk result (AreListed image.old image.new tables.entry) }
    ensures written { AreReadable D.is_modelled (D.life disk.old).seen image.old tables.entry → IfOk result (AreWritten (D.life disk.new).seen image.old image.new tables.entry) }
    ensures told { AreReadable D.is_modelled (D.life disk.old).seen image.old tables.entry → TellsPages result (end_of_half image.old) (next_of image.old + page_bytes * pages_of_tables (all_shown tables.entry)) }
    ensures cause { CountsImage result (D.life disk.old).faults (D.life disk.new).faults }
{
    let mut left = tables;
    let mut laid = LaidTables {
        places: Vec::new(alloc),
        pages: Vec::new(alloc),
    };
    while let Some(table) = left.next_table() {
        let written = write_table(alloc, disk, image, table)?;
        push_table(&mut laid, written)?;
    }
    Ok(laid)
}

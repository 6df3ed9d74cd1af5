//! The room that a checkpoint needs, counted before any of it is written.
ghost use Rattle.std.specs.Prelude.{◌≡◌, ◌+◌, ◌*◌, ◌≤◌, ◌∷◌, [], ℕ, List, true, IsTrue, IfOk, OnOk, length};
ghost use Rattle.drda_disk.specs.Disk.{Stays};
ghost use Rattle.drda_disk.specs.Layout.{page_bytes};
ghost use Rattle.row_pages.specs.Keeping.{CountsPageFault};
ghost use Rattle.row_pages.specs.Laying.{counted, pages_with};
ghost use Rattle.row_values.specs.Schema.{is_name};
ghost use Rattle.tables.specs.View.{is_store};
ghost use Rattle.table_map.specs.Damage.{DamagedWhere};
ghost use Rattle.unit_journal.specs.Record.{entries_of};
ghost use Rattle.checkpoint_writer.specs.Catalogue.{entry_bytes};
ghost use Rattle.store_check.specs.Laying.{IsGood};
ghost use Rattle.store_check.specs.Room.{entry_of_table, need_of, pages_of_table};
ghost use Rattle.paged_tables.specs.Lending.{IsLent};
ghost use Rattle.paged_tables.specs.Stored.{IsOnPages, Stored, table_in};
ghost use Rattle.paged_tables.specs.TablesByName.{AreOnPages, LieInside};
ghost use Rattle.paged_checkpoints.specs.Laying.{all_shown, created_entry};

use checkpoint_writer::count_entry;
use drda_disk::{Disk, PAGE_BYTES};
use paged_tables::{TableRef, TablesLeft};
use row_pages::{PageCount, PageFault};
use std::alloc::{AllocError, Global};
use table_map::SchemaKeys;
use unit_journal::{Record, laid_len};

/// The pages that were counted: those of tables, up to 2^64 - 1, and those of their catalogue.
#[derive(Drop)]
struct CountedPages {
    tables: usize,
    catalogue: PageCount,
}

/// Counts the pages of one table more, whose rows are those of its pages with the changes since, and its row of the
/// catalogue.
fn count_table<D: Disk>(
    alloc: Global,
    disk: &mut D,
    table: TableRef<'_>,
    pages: &mut CountedPages,
) -> Result<(), PageFault>
    requires inside { table.rows.now.places.at + page_bytes * length table.rows.now.places.keys ≤ length (D.life disk.old).seen }
    requires name { is_name table.name.now ≡ true }
    ensures tables { (e : List ℕ × Stored) → IsLent e table.entry → IsTrue D.is_modelled → IsOnPages (D.life disk.old).seen e.1
        → OnOk result (pages.new.tables ≡ counted (pages.old.tables + pages_of_table (table_in e.1))) }
    ensures catalogue { (e : List ℕ × Stored) (next : ℕ) (rows : List (List ℕ)) → IsLent e table.entry
        → OnOk result (pages_with pages.new.catalogue rows ≡ pages_with pages.old.catalogue (entry_bytes (entry_of_table next (created_entry e)) ∷ rows)) }
    ensures damaged { (e : List ℕ × Stored) → IsLent e table.entry → IsGood (created_entry e) → IsTrue D.is_modelled → IsOnPages (D.life disk.old).seen e.1
        → DamagedWhere ⊥ result }
    ensures stays { Stays (D.life disk.old) (D.life disk.new) }
    ensures cause { CountsPageFault result (D.life disk.old).faults (D.life disk.new).faults }
{
    key_map::laws::rows_have_their_forms();
    let TableRef { name, schema, rows } = table;
    let _columns = schema.columns();
    let count = rows.page_count(alloc, &SchemaKeys { schema }, disk)?;
    pages.tables = pages.tables.saturating_add(count);
    match count_entry(alloc, &mut pages.catalogue, name, schema) {
        Ok(()) => Ok(()),
        Err(AllocError) => Err(PageFault::NoMemory),
    }
}

/// Counts the pages that one table more takes at most, and its row of the catalogue. No page is read.
fn count_most(
    alloc: Global,
    table: TableRef<'_>,
    pages: &mut CountedPages,
) -> Result<(), AllocError>
    requires { is_name table.name.now ≡ true }
    ensures tables { (e : List ℕ × Stored) (file : List ℕ) → IsLent e table.entry → IsOnPages file e.1
        → OnOk result (counted (pages.old.tables + pages_of_table (table_in e.1)) ≤ pages.new.tables) }
    ensures catalogue { (e : List ℕ × Stored) (next : ℕ) (rows : List (List ℕ)) → IsLent e table.entry
        → OnOk result (pages_with pages.new.catalogue rows ≡ pages_with pages.old.catalogue (entry_bytes (entry_of_table next (created_entry e)) ∷ rows)) }
{
    key_map::laws::rows_have_their_forms();
    let TableRef { name, schema, rows } = table;
    let _columns = schema.columns();
    pages.tables = pages.tables.saturating_add(rows.most_pages());
    count_entry(alloc, &mut pages.catalogue, name, schema)?;
    Ok(())
}

/// The bytes of a half with the pages that were counted, so many bytes of records and so many held back, up to 2^64 - 1.
fn half_with(pages: &CountedPages, records: usize, held: usize) -> usize
    ensures { result ≡ counted (page_bytes * (1 + pages.now.tables + pages_with pages.now.catalogue []) + (records + held + 1)) }
{
    let pages = pages
        .tables
        .saturating_add(pages.catalogue.pages())
        .saturating_add(1);
    let behind = records.saturating_add(held).saturating_add(1);
    pages.saturating_mul(PAGE_BYTES).saturating_add(behind)
}

/// At most so many bytes a half takes with all tables that are left to lend, with these records and with so many bytes
/// held back, up to 2^64 - 1 (`TableMap::most_pages`). No page is read.
pub(crate) fn most_bytes(
    alloc: Global,
    tables: TablesLeft<'_>,
    records: &[Record],
    held: usize,
) -> Result<usize, AllocError>
    requires { is_store (all_shown tables) ≡ true }
    ensures { (file : List ℕ) → AreOnPages file tables.entry → IfOk result (λ most. counted (need_of (all_shown tables.entry) (entries_of records.now) held) ≤ most) }
{
    let mut left = tables;
    let mut pages = CountedPages {
        tables: 0,
        catalogue: PageCount::new(),
    };
    while let Some(table) = left.next_table() {
        count_most(alloc, table, &mut pages)?;
    }
    Ok(half_with(&pages, laid_len(records), held))
}

/// The bytes that a half takes with all tables that are left to lend, with these records and with so many bytes held back,
/// up to 2^64 - 1. Each page of the tables is read once, and nothing is written. `Damaged` comes only where a page of the
/// tables does not stand in the disk as it was written.
pub(crate) fn needed_bytes<D: Disk>(
    alloc: Global,
    disk: &mut D,
    tables: TablesLeft<'_>,
    records: &[Record],
    held: usize,
) -> Result<usize, PageFault>
    requires tables { LieInside (length (D.life disk.old).seen) tables }
    requires store { is_store (all_shown tables) ≡ true }
    ensures need { IsTrue D.is_modelled → AreOnPages (D.life disk.old).seen tables.entry → IfOk result (λ need. need ≡ counted (need_of (all_shown tables.entry) (entries_of records.now) held)) }
    ensures damaged { IsTrue D.is_modelled → AreOnPages (D.life disk.old).seen tables.entry → DamagedWhere ⊥ result }
    ensures stays { Stays (D.life disk.old) (D.life disk.new) }
    ensures cause { CountsPageFault result (D.life disk.old).faults (D.life disk.new).faults }
{
    let mut left = tables;
    let mut pages = CountedPages {
        tables: 0,
        catalogue: PageCount::new(),
    };
    while let Some(table) = left.next_table() {
        count_table(alloc, disk, table, &mut pages)?;
    }
    Ok(half_with(&pages, laid_len(records), held))
}

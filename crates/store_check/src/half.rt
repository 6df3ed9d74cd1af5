//! All that a half has.
ghost use Rattle.std.specs.Prelude.{◌≡◌, ◌+◌, ◌*◌, ◌^◌, ◌≤◌, ◌++◌, ◌∷◌, [], ℕ, List, true, IsTrue, IfErr, OnOk, IfOk, length, map};
ghost use Rattle.std.specs.List.{AllByRecursion};
ghost use Rattle.drda_disk.specs.Disk.{Stays};
ghost use Rattle.drda_disk.specs.Layout.{page_bytes};
ghost use Rattle.row_pages.specs.Laying.{rows_over};
ghost use Rattle.checkpoint_writer.specs.Catalogue.{entry_of};
ghost use Rattle.store_check.specs.Errors.{CountsCheck};
ghost use Rattle.store_check.specs.Whole.{AreRows, ChecksTable, IsWhole, places_in};
ghost use Rattle.store_check.specs.Listed.{are_listed};
ghost use Rattle.store_check.specs.Half.{ChecksHalf, LieWithin, NotesTable, catalogue_end, entry_in, page_at, pages_of};
ghost use Rattle.store_check.specs.Halving.{ChecksMeaning, ChecksRows, ListsHalf};
ghost use Rattle.store_check.specs.declared.errors.CheckError.TheVariants.{NoMemory};

use crate::form::first_damage;
use crate::keys::KeysOf;
use crate::{CheckError, KeysBySchema, check_catalogue, check_table};
use checkpoint_writer::StoredTable;
use drda_disk::{Disk, PAGE_BYTES};
use half_store::Active;
use row_pages::Pager;
use std::alloc::Global;
use table_map::NotedPages;

/// A table of a half that was checked, and where its pages lie, with the key of each one's first row. The
/// rows that they have are noted for clauses alone.
#[derive(Drop)]
pub struct CheckedTable {
    pub table: StoredTable,
    pub pages: NotedPages,
}

/// The offset of a half's first page.
pub(crate) fn pages_at(active: &Active) -> usize
    requires { page_bytes * active.now.pages ≤ active.now.region.at }
    ensures { result ≡ (pages_of active.now).at }
{
    active.region.at - PAGE_BYTES * active.pages as usize
}

/// The tables of a half's catalogue, which are its last pages.
fn listed_tables<D: Disk>(
    alloc: Global,
    pager: &mut Pager<D>,
    active: &Active,
) -> Result<Vec<StoredTable>, CheckError>
    requires pages { page_bytes * active.now.pages ≤ active.now.region.at }
    requires small { active.now.region.at ≤ 2 ^ 40 }
    requires inside { active.now.region.at ≤ length (D.life pager.old).seen }
    ensures told { IsTrue D.is_modelled → ListsHalf (D.life pager.old).seen (pages_of active.now) result }
    ensures last { OnOk result (catalogue_end (pages_of active.now) ≡ active.now.pages) }
    ensures listed { IfOk result (λ tables. are_listed active.now.first_catalogue (map entry_of tables.items) ≡ true) }
    ensures stays { Stays (D.life pager.old) (D.life pager.new) }
    ensures cause { CountsCheck result (D.life pager.old).faults (D.life pager.new).faults }
{
    let at = pages_at(active);
    let count = active.pages as usize;
    let first = active.first_catalogue as usize;
    let pages = active.catalogue_pages as usize;
    if first + pages != count {
        let at = at + PAGE_BYTES * count.min(first + pages);
        return Err(CheckError::Damaged { at });
    }
    check_catalogue(alloc, pager, at + PAGE_BYTES * first, pages, first)
}

/// Checks the pages of a table of a half whose first page lies at an offset.
fn check_stored<K: KeysBySchema, D: Disk>(
    alloc: Global,
    keys: &K,
    pager: &mut Pager<D>,
    at: usize,
    table: &StoredTable,
) -> Result<NotedPages, CheckError>
    requires small { at + page_bytes * (table.now.first_page + table.now.pages) ≤ 2 ^ 40 }
    requires inside { at + page_bytes * (table.now.first_page + table.now.pages) ≤ length (D.life pager.old).seen }
    ensures at { IfOk result (λ pages. pages.pages.at ≡ page_at at table.now.first_page) }
    ensures count { IfOk result (λ pages. length pages.pages.keys ≡ table.now.pages) }
    ensures told { IsTrue D.is_modelled → ChecksTable table.now.schema (K.key_of keys.now table.now.schema) (D.life pager.old).seen (page_at at table.now.first_page) table.now.pages (places_in result) }
    ensures rows { (pages : List (List (List ℕ))) → IsTrue D.is_modelled → IsWhole table.now.schema (K.key_of keys.now table.now.schema) (D.life pager.old).seen (page_at at table.now.first_page) table.now.pages pages
        → IfOk result (λ table. table.rows.listed.value ≡ rows_over pages) }
    ensures good { IfOk result (λ checked. AreRows table.now.schema (K.key_of keys.now table.now.schema) checked.rows.listed.value) }
    ensures stays { Stays (D.life pager.old) (D.life pager.new) }
    ensures cause { CountsCheck result (D.life pager.old).faults (D.life pager.new).faults }
{
    let schema = &table.schema;
    check_table(
        alloc,
        &KeysOf { keys, schema },
        schema,
        pager,
        at + PAGE_BYTES * table.first_page as usize,
        table.pages as usize,
    )
}

/// Puts a table behind others.
fn push_table(list: &mut Vec<CheckedTable>, table: CheckedTable) -> Result<(), CheckError>
    ensures items { OnOk result (list.new.items ≡ list.old.items ++ table ∷ []) }
    ensures cause { (n : ℕ) → CountsCheck result n n }
    ensures fault { IfErr result (λ e. e ≡ NoMemory) }
{
    match list.push(table) {
        Ok(()) => Ok(()),
        Err(_) => Err(CheckError::NoMemory),
    }
}

/// Checks the pages of tables, which lie from an offset on and in front of the catalogue's first page.
fn check_rows<K: KeysBySchema, D: Disk>(
    alloc: Global,
    keys: &K,
    pager: &mut Pager<D>,
    at: usize,
    first: usize,
    tables: Vec<StoredTable>,
) -> Result<Vec<CheckedTable>, CheckError>
    requires listed { are_listed first (map entry_of tables.items) ≡ true }
    requires small { at + page_bytes * first ≤ 2 ^ 40 }
    requires inside { at + page_bytes * first ≤ length (D.life pager.old).seen }
    ensures within { IfOk result (λ checked. LieWithin at (page_at at first) checked.items) }
    ensures good { IfOk result (λ checked. AllByRecursion (NotesTable (K.key_of keys.now)) checked.items) }
    ensures same { IfOk result (λ checked. map entry_in checked.items ≡ map entry_of tables.items) }
    ensures told { IsTrue D.is_modelled → ChecksRows (K.key_of keys.now) (D.life pager.old).seen at first (map entry_of tables.items) result }
    ensures stays { Stays (D.life pager.old) (D.life pager.new) }
    ensures cause { CountsCheck result (D.life pager.old).faults (D.life pager.new).faults }
{
    let mut checked = Vec::new(alloc);
    let mut next = 0;
    for table in tables {
        let pages = check_stored(alloc, keys, pager, at, &table)?;
        next += table.pages as usize;
        push_table(&mut checked, CheckedTable { table, pages })?;
    }
    if next == first {
        Ok(checked)
    } else {
        let at = at + PAGE_BYTES * next;
        Err(CheckError::Damaged { at })
    }
}

/// Checks what all pages of the active half of a store say. `Damaged` is told where the catalogue does not
/// end with the half, else at the catalogue's first bad page, else at the first bad one of the pages in
/// front of it: of a table, or the one behind the last table's.
fn check_meaning<K: KeysBySchema, D: Disk>(
    alloc: Global,
    keys: &K,
    pager: &mut Pager<D>,
    active: &Active,
) -> Result<Vec<CheckedTable>, CheckError>
    requires pages { page_bytes * active.now.pages ≤ active.now.region.at }
    requires small { active.now.region.at ≤ 2 ^ 40 }
    requires inside { active.now.region.at ≤ length (D.life pager.old).seen }
    ensures within { IfOk result (λ checked. LieWithin (pages_of active.now).at active.now.region.at checked.items) }
    ensures good { IfOk result (λ checked. AllByRecursion (NotesTable (K.key_of keys.now)) checked.items) }
    ensures listed { IfOk result (λ checked. are_listed active.now.first_catalogue (map entry_in checked.items) ≡ true) }
    ensures told { IsTrue D.is_modelled → ChecksMeaning (K.key_of keys.now) (D.life pager.old).seen (pages_of active.now) result }
    ensures stays { Stays (D.life pager.old) (D.life pager.new) }
    ensures cause { CountsCheck result (D.life pager.old).faults (D.life pager.new).faults }
{
    let tables = listed_tables(alloc, pager, active)?;
    let at = pages_at(active);
    let first = active.first_catalogue as usize;
    check_rows(alloc, keys, pager, at, first, tables)
}

/// Checks all pages of the active half of a store: its last ones are those of a catalogue
/// (`check_catalogue`), and those in front of it are the pages of the catalogue's tables
/// (`check_table`), each by the keys of its schema. The tables are returned in their order, with their
/// rows noted. Whatever the device, the names of the tables rise, and what is noted of each are rows of
/// its schema whose keys rise.
///
/// `Damaged` comes exactly where the half is not so, and tells where its first bad page lies. That is the
/// first one, by its number, that is no page, has no rows, is not of its place's kind or lies behind the
/// catalogue. Where there is none it is the catalogue's first page that is bad by what it says; else the
/// first such one of the pages in front of it: of a table, or the one behind the last table's. Pages are
/// read once where no damage is found, and once more where some is. Nothing is written.
pub fn check_half<K: KeysBySchema, D: Disk>(
    alloc: Global,
    keys: &K,
    pager: &mut Pager<D>,
    active: &Active,
) -> Result<Vec<CheckedTable>, CheckError>
    requires pages { page_bytes * active.now.pages ≤ active.now.region.at }
    requires small { active.now.region.at ≤ 2 ^ 40 }
    requires inside { active.now.region.at ≤ length (D.life pager.old).seen }
    ensures within { IfOk result (λ checked. LieWithin (pages_of active.now).at active.now.region.at checked.items) }
    ensures good { IfOk result (λ checked. AllByRecursion (NotesTable (K.key_of keys.now)) checked.items) }
    ensures listed { IfOk result (λ checked. are_listed active.now.first_catalogue (map entry_in checked.items) ≡ true) }
    ensures told { IsTrue D.is_modelled → ChecksHalf (K.key_of keys.now) (D.life pager.old).seen (pages_of active.now) result }
    ensures stays { Stays (D.life pager.old) (D.life pager.new) }
    ensures cause { CountsCheck result (D.life pager.old).faults (D.life pager.new).faults }
{
    match check_meaning(alloc, keys, pager, active) {
        Ok(checked) => Ok(checked),
        Err(CheckError::Damaged { at }) => Err(first_damage(alloc, pager, active, at)),
        Err(CheckError::NoMemory) => Err(CheckError::NoMemory),
        Err(CheckError::DeviceFailed) => Err(CheckError::DeviceFailed),
    }
}

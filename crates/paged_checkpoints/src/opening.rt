//! Opening a checkpoint.
ghost use Rattle.std.specs.Prelude.{◌≡◌, ◌⊎◌, ◌+◌, ◌*◌, ◌^◌, ◌≤◌, ◌++◌, ◌∷◌, [], ℕ, List, true, IsTrue, IfOk, OnOk, length, map};
ghost use Rattle.std.specs.List.{AllByRecursion};
ghost use Rattle.drda_disk.specs.Disk.{Stays};
ghost use Rattle.drda_disk.specs.Layout.{page_bytes};
ghost use Rattle.row_values.specs.Schema.{is_name};
ghost use Rattle.tables.specs.View.{is_store};
ghost use Rattle.store_check.specs.Checkpoint.{forms};
ghost use Rattle.store_check.specs.Errors.{CountsCheck};
ghost use Rattle.store_check.specs.Half.{LiesBelow, NotesTable, entry_in, pages_of};
ghost use Rattle.store_check.specs.Listed.{names_rise};
ghost use Rattle.store_check.specs.Reading.{DamagedOnly};
ghost use Rattle.paged_tables.specs.PagedTables.{store_in};
ghost use Rattle.paged_tables.specs.TablesByName.{AddsPages, AreOnPages, ComesLast, LieInside, LieOutside};
ghost use Rattle.paged_checkpoints.specs.Opening.{OpensCheckpoint, StandsIn, StandsOutside, name_in, noted_table, opened_of};

use checkpoint_writer::StoredTable;
use drda_disk::{Disk, PAGE_BYTES};
use half_store::Active;
use paged_tables::PagedTables;
use row_pages::Pager;
use row_values::is_name;
use std::alloc::{AllocError, Global};
use store_check::{CheckError, CheckedTable, RowForms, check_half};

/// Puts a table of a half behind those that are there. Damaged, at this offset, where it has no name.
fn add_table(
    alloc: Global,
    at: usize,
    checked: CheckedTable,
    tables: &mut PagedTables,
) -> Result<(), CheckError>
    requires good { NotesTable forms checked }
    requires last { ComesLast (name_in checked) (store_in tables.old) }
    ensures added { OnOk result (store_in tables.new ≡ store_in tables.old ++ noted_table checked ∷ []) }
    ensures pages { OnOk result (AddsPages tables.old.tables (opened_of checked) tables.new.tables) }
    ensures damaged { is_name (name_in checked) ≡ true → DamagedOnly ⊥ result }
    ensures cause { (n : ℕ) → CountsCheck result n n }
{
    paged_tables::laws::rows_stand_at_their_forms();
    let CheckedTable { table, pages } = checked;
    let StoredTable {
        name,
        schema,
        first_page: _,
        pages: _,
    } = table;
    if !is_name(name.as_bytes()) {
        return Err(CheckError::Damaged { at });
    }
    let _columns = schema.columns();
    match tables.add(alloc, name, schema, pages) {
        Ok(()) => Ok(()),
        Err(AllocError) => Err(CheckError::NoMemory),
    }
}

/// The tables of a half that was checked, over their pages. Damage is told at this offset.
fn add_tables(
    alloc: Global,
    at: usize,
    checked: Vec<CheckedTable>,
) -> Result<PagedTables, CheckError>
    requires good { AllByRecursion (NotesTable forms) checked.items }
    requires rise { names_rise (map entry_in checked.items) ≡ true }
    ensures tables { IfOk result (λ tables. store_in tables ≡ map noted_table checked.items) }
    ensures stand { IfOk result (λ tables. (file : List ℕ) → AllByRecursion (StandsIn file) checked.items → AreOnPages file tables.tables) }
    ensures inside { IfOk result (λ tables. (size : ℕ) → AllByRecursion (LiesBelow size) checked.items → LieInside size tables.tables) }
    ensures apart { IfOk result (λ tables. (from end : ℕ) → AllByRecursion (StandsOutside from end) checked.items → LieOutside from end tables.tables) }
    ensures damaged { is_store (map noted_table checked.items) ≡ true → DamagedOnly ⊥ result }
    ensures cause { (n : ℕ) → CountsCheck result n n }
{
    let mut tables = PagedTables::new(alloc);
    for table in checked {
        add_table(alloc, at, table, &mut tables)?;
    }
    Ok(tables)
}

/// The tables of a store's last checkpoint over the pages of its active half: all pages are checked, and
/// of each table its schema, the places of its pages and the key of each one's first row are kept in
/// memory, and no row.
///
/// `Damaged` comes exactly where the half is not whole, at its first bad page (as `check_half` tells).
/// Of a disk that gives back what was written nothing else is damaged. Nothing is written.
pub fn open_checkpoint<D: Disk>(
    alloc: Global,
    pager: &mut Pager<D>,
    active: &Active,
) -> Result<PagedTables, CheckError>
    requires pages { page_bytes * active.now.pages ≤ active.now.region.at }
    requires small { active.now.region.at ≤ 2 ^ 40 }
    requires inside { active.now.region.at ≤ length (D.life pager.old).seen }
    ensures told { IsTrue D.is_modelled → OpensCheckpoint (D.life pager.old).seen (pages_of active.now) result }
    ensures store { IfOk result (λ tables. is_store (store_in tables) ≡ true) }
    // The pages of all tables end in front of the half's journal, and so inside of the disk. They are the half's, and so
    // they lie outside of what ends in front of its pages or begins behind them.
    ensures inside { IfOk result (λ tables. (size : ℕ) → active.now.region.at ≤ size → LieInside size tables.tables) }
    ensures apart { IfOk result (λ tables. (from end : ℕ) → (active.now.region.at ≤ from) ⊎ (end + page_bytes * active.now.pages ≤ active.now.region.at) → LieOutside from end tables.tables) }
    ensures stays { Stays (D.life pager.old) (D.life pager.new) }
    ensures cause { CountsCheck result (D.life pager.old).faults (D.life pager.new).faults }
{
    store_check::laws::checkpoints_are_known();
    store_check::laws::whole_is_stored();
    let tables = check_half(alloc, &RowForms, pager, active)?;
    let at = active.region.at - PAGE_BYTES * active.pages as usize;
    add_tables(alloc, at, tables)
}

//! The committed tables.

ghost use Rattle.std.specs.Prelude.{◌≡◌, ◌++◌, ◌∷◌, [], ℕ, List, IfOk, IsTrue, OnErr, OnOk, length, map, option_map, true};
ghost use Rattle.std.specs.Arc.{arc_value};
ghost use Rattle.std.specs.String.{string_bytes};
ghost use Rattle.drda_disk.specs.Disk.{Stays};
ghost use Rattle.row_pages.specs.Keeping.{CountsPageFault};
ghost use Rattle.row_values.specs.Schema.{is_name};
ghost use Rattle.table_map.specs.Damage.{DamagedWhere};
ghost use Rattle.table_map.specs.Keyed.{copied};
ghost use Rattle.tables.specs.Tables.{row_of, rows_of, schema_of};
ghost use Rattle.tables.specs.View.{is_store};
ghost use Rattle.paged_tables.specs.Judged.{may_be_row, may_be_rows};
ghost use Rattle.paged_tables.specs.Stored.{AreRowsOf, IsOnPages, LiesInside, LiesOutside, opened, table_in};
ghost use Rattle.tables.specs.Applied.{apply_all};
ghost use Rattle.tables.specs.ChangeView.{change_of};

use crate::lending::TablesLeft;
use crate::steps::{Step, apply_all, release_all, reserve_all};
use crate::stored_table::JudgedRows;
use crate::tables_by_name::TablesByName;
use drda_disk::Disk;
use row_pages::{PageFault, Pager};
use row_values::Schema;
use std::alloc::{AllocError, Global};
use std::sync::Arc;
use table_map::{JudgedRow, NotedPages, TablePages};
use tables::{Change, Rows};

/// The committed tables, with rows in the order of their keys: those of their pages, with the changes
/// since. Room for changes is made first; the changes themselves then take no memory and can't fail.
#[derive(Drop)]
pub struct PagedTables {
    pub(crate) tables: TablesByName,
    steps: Vec<Step>,
}

impl PagedTables {
    ghost use Rattle.paged_tables.specs.PagedTables.{IsReserved, store_in};
    ghost use Rattle.paged_tables.specs.Steps.{HoldsNone};
    ghost use Rattle.paged_tables.specs.TablesByName.{AddsPages, AreLaid, AreOnPages, ComesLast, LieInside, LieOutside, PagesStay, created_of, relaid};

    /// No tables. Takes no memory.
    pub fn new(alloc: Global) -> PagedTables
        ensures store { store_in result ≡ [] }
        ensures tables { result.tables ≡ [] }
    {
        PagedTables {
            tables: TablesByName::new(alloc),
            steps: Vec::new(alloc),
        }
    }

    /// How many tables there are. No page is read.
    pub fn count(&self) -> usize
        ensures count { result ≡ length (store_in self.now) }
        ensures good { is_store (store_in self.now) ≡ true }
    {
        self.tables.count()
    }

    /// The schema of the table of this name, shared, where there is one. No page is read.
    pub fn schema(&self, name: &str) -> Result<Option<Arc<Schema, Global>>, AllocError>
        ensures found { IfOk result (λ schema. option_map arc_value schema ≡ schema_of (store_in self.now) name.now) }
        ensures good { is_store (store_in self.now) ≡ true }
    {
        match self.tables.created(name) {
            Some(table) => Ok(Some(table.schema()?)),
            None => Ok(None),
        }
    }

    /// The row of this key in the table of a name, and whether it is known, whatever the device, that it may
    /// be that: a row of the table's schema at the key. A key that was changed is looked up in the changes
    /// alone; else one page is looked at, at most. Without a table, and for bytes that are no key of it,
    /// there is no row, and nothing is read.
    pub fn row<D: Disk>(
        &self,
        alloc: Global,
        pager: &mut Pager<D>,
        table: &str,
        key: &[u8],
    ) -> Result<JudgedRow, PageFault>
        requires { LieInside (length (D.life pager.old).seen) self.now.tables }
        ensures found { IsTrue D.is_modelled → AreOnPages (D.life pager.old).seen self.now.tables → IfOk result (λ found. copied found.row ≡ row_of (store_in self.now) table.now key.now) }
        ensures judged { IfOk result (λ found. IsTrue found.is_judged → may_be_row (schema_of (store_in self.now) table.now) (copied found.row) key.now ≡ true) }
        ensures whole { IsTrue D.is_modelled → AreOnPages (D.life pager.old).seen self.now.tables → DamagedWhere ⊥ result }
        ensures stays { Stays (D.life pager.old) (D.life pager.new) }
        ensures cause { CountsPageFault result (D.life pager.old).faults (D.life pager.new).faults }
    {
        match self.tables.created(table) {
            Some(table) => table.get(alloc, pager, key),
            None => Ok(JudgedRow {
                row: None,
                is_judged: true,
            }),
        }
    }

    /// All rows of the table of a name, in the order of their keys, in new memory. Each of its pages is
    /// looked at once. Without a table there are none, and nothing is read.
    pub fn rows<D: Disk>(
        &self,
        alloc: Global,
        pager: &mut Pager<D>,
        table: &str,
    ) -> Result<Rows, PageFault>
        requires { LieInside (length (D.life pager.old).seen) self.now.tables }
        ensures rows { IsTrue D.is_modelled → AreOnPages (D.life pager.old).seen self.now.tables → IfOk result (λ rows. rows ≡ rows_of (store_in self.now) table.now) }
        ensures whole { IsTrue D.is_modelled → AreOnPages (D.life pager.old).seen self.now.tables → DamagedWhere ⊥ result }
        ensures stays { Stays (D.life pager.old) (D.life pager.new) }
        ensures cause { CountsPageFault result (D.life pager.old).faults (D.life pager.new).faults }
    {
        match self.judged_rows(alloc, pager, table) {
            Ok(
                JudgedRows {
                    rows,
                    are_judged: _,
                },
            ) => Ok(rows),
            Err(fault) => Err(fault),
        }
    }

    /// The same rows, and whether it is known, whatever the device, that they may be those of the table: rows
    /// of its schema whose keys rise, and none without a table. It is known once each page of the table was
    /// judged and lies where the key of its first row says; a page that is kept is judged once.
    pub fn judged_rows<D: Disk>(
        &self,
        alloc: Global,
        pager: &mut Pager<D>,
        table: &str,
    ) -> Result<JudgedRows, PageFault>
        requires { LieInside (length (D.life pager.old).seen) self.now.tables }
        ensures rows { IsTrue D.is_modelled → AreOnPages (D.life pager.old).seen self.now.tables → IfOk result (λ judged. judged.rows ≡ rows_of (store_in self.now) table.now) }
        ensures judged { IfOk result (λ judged. IsTrue judged.are_judged → may_be_rows (schema_of (store_in self.now) table.now) judged.rows ≡ true) }
        ensures whole { IsTrue D.is_modelled → AreOnPages (D.life pager.old).seen self.now.tables → DamagedWhere ⊥ result }
        ensures stays { Stays (D.life pager.old) (D.life pager.new) }
        ensures cause { CountsPageFault result (D.life pager.old).faults (D.life pager.new).faults }
    {
        match self.tables.created(table) {
            Some(table) => table.scan(alloc, pager),
            None => Ok(JudgedRows {
                rows: Rows::new(alloc),
                are_judged: true,
            }),
        }
    }

    /// The tables where they lie, one after another in the order of their names. Room that is reserved is
    /// not told. Takes no memory, and no page is read.
    pub fn lend(&self) -> TablesLeft<'_>
        ensures tables { result ≡ created_of self.now.tables }
        ensures pages { PagesStay self.now.tables result }
        ensures good { is_store (store_in self.now) ≡ true }
    {
        self.tables.lend()
    }

    /// A table behind those that are there, with the rows that its pages have. Room that was reserved is
    /// given up. Without memory the tables stay. No page is read.
    pub fn add(
        &mut self,
        alloc: Global,
        name: String,
        schema: Schema,
        pages: NotedPages,
    ) -> Result<(), AllocError>
        requires name { is_name (string_bytes name) ≡ true }
        requires last { ComesLast (string_bytes name) (store_in self.old) }
        requires rows { AreRowsOf schema pages.rows.listed.value }
        ensures added { OnOk result (store_in self.new ≡ store_in self.old ++ (string_bytes name, table_in (opened schema pages.pages pages.rows.listed.value)) ∷ []) }
        ensures kept { OnErr result (store_in self.new ≡ store_in self.old) }
        ensures pages { AddsPages self.old.tables (opened schema pages.pages pages.rows.listed.value) self.new.tables }
    {
        self.release();
        self.tables.add(alloc, name, schema, pages)
    }

    /// A checkpoint has laid all rows of each table anew: each table, in their order, has these pages
    /// now, and no changes since. Room that was reserved is given up. Takes no memory, and no page is read.
    pub fn relaid(&mut self, alloc: Global, pages: Vec<TablePages>)
        requires { length pages.items ≡ length (store_in self.old) }
        ensures tables { store_in self.new ≡ store_in self.old }
        ensures pages { self.new.tables ≡ relaid pages.items self.old.tables }
        ensures stand { (file : List ℕ) → AreLaid (IsOnPages file) pages.items (created_of self.old.tables) → AreOnPages file self.new.tables }
        ensures inside { (size : ℕ) → AreLaid (LiesInside size) pages.items (created_of self.old.tables) → LieInside size self.new.tables }
        ensures apart { (from end : ℕ) → AreLaid (LiesOutside from end) pages.items (created_of self.old.tables) → LieOutside from end self.new.tables }
    {
        self.tables.relay(alloc, pages);
        self.steps.clear();
    }

    /// Makes room for all of these changes, made in their order: the one call here that takes memory
    /// and keeps it. It gives up the room of an earlier reservation. Whether or not there is memory,
    /// the tables stay. No page is read.
    pub fn reserve(&mut self, alloc: Global, changes: &[Change]) -> Result<(), AllocError>
        ensures tables { store_in self.new ≡ store_in self.old }
        ensures pages { PagesStay self.old.tables self.new.tables }
        ensures room { OnOk result (IsReserved (map change_of changes.now) self.new) }
    {
        self.release();
        reserve_all(&mut self.tables, &mut self.steps, alloc, changes)
    }

    /// Makes the changes, for which there is room, in their order, and so uses all of it.
    /// A table that is there already is not created again; into no table nothing is put, and neither is
    /// what is no row of the table. Rows are moved out of the changes. Takes no memory; no page is read.
    pub fn apply_reserved(&mut self, alloc: Global, changes: Vec<Change>)
        requires { IsReserved (map change_of changes.items) self.old }
        ensures tables { store_in self.new ≡ apply_all (map change_of changes.items) (store_in self.old) }
        ensures pages { PagesStay self.old.tables self.new.tables }
    {
        apply_all(&mut self.tables, alloc, self.steps.as_slice(), changes);
        // No room is left: each row that was put, each mark of one that was taken out and each table that was
        // created is in its own.
        self.steps.clear();
    }

    /// Gives up the room that is reserved and not used. The tables stay. No page is read.
    pub fn release(&mut self)
        ensures tables { store_in self.new ≡ store_in self.old }
        ensures pages { PagesStay self.old.tables self.new.tables }
        ensures none { HoldsNone self.new.tables }
        ensures steps { self.new.steps.items ≡ [] }
    {
        release_all(&mut self.tables, self.steps.as_slice());
        self.tables.keep_created();
        self.steps.clear();
    }
}

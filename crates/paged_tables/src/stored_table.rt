//! A table over its pages.

ghost use Rattle.std.specs.Prelude.{◌≡◌, ◌<◌, ◌+◌, ◌*◌, ◌≤◌, ℕ, List, [], IfOk, IsTrue, IfSome, None, OnOk, Some, bytes_eq, false, length, option_map, true};
ghost use Rattle.std.specs.Arc.{arc_value};
ghost use Rattle.std.specs.Map.{lookup, values_of};
ghost use Rattle.drda_disk.specs.Disk.{Stays};
ghost use Rattle.key_map.specs.Merging.{row_at};
ghost use Rattle.key_map.specs.RowForm.{row_form};
ghost use Rattle.key_map.specs.Slots.{HasRoom};
ghost use Rattle.row_pages.specs.Judging.{do_rise};
ghost use Rattle.row_pages.specs.Keeping.{CountsPageFault};
ghost use Rattle.row_values.specs.Key.{is_key};
ghost use Rattle.row_values.specs.Row.{is_row};
ghost use Rattle.row_values.specs.Schema.{is_schema};
ghost use Rattle.table_map.specs.Damage.{DamagedWhere};
ghost use Rattle.table_map.specs.Keyed.{copied, keyed_rows};
ghost use Rattle.table_map.specs.Table.{without_keys};
ghost use Rattle.tables.specs.Tables.{put_row, remove_row};
ghost use Rattle.paged_tables.specs.Judged.{may_be_row};
ghost use Rattle.paged_tables.specs.Stored.{AreRowsOf, FormsKey, FormsRow, HasRoomFor, IsFormOf, IsOnPages, IsRowAt, IsStored, KeepsPages, LiesInside, created_table, form_in, laid_anew, opened, rows_in, shown, table_in};

use drda_disk::Disk;
use key_map::{row_form, sort_form};
use row_pages::{PageFault, Pager};
use row_values::{RowRef, Schema, is_key};
use std::alloc::{AllocError, Global};
use std::marker::Model;
use std::sync::Arc;
use table_map::{JudgedRow, NotedPages, NotedRows, SchemaKeys, TableMap, TablePages};
use tables::Rows;

/// Rows of a table, in the order of their keys.
#[derive(Drop)]
pub struct JudgedRows {
    pub rows: Rows,
    /// Whether it is known, whatever the device, that they are rows of the table's schema in that order.
    pub are_judged: bool,
}

/// A table: its schema, and its rows by the sort forms of their keys, those of its pages with the
/// changes since. A table may be held ready before it is created; then it has no rows, and it is not
/// shown. The rows that the pages have are noted for clauses alone.
#[derive(Drop)]
pub struct StoredTable {
    schema: Arc<Schema, Global>,
    is_created: bool,
    rows: TableMap,
    base: NotedRows,
}

impl Model for StoredTable {
    ghost use Rattle.std.specs.Arc.{arc_value};
    ghost use Rattle.key_map.specs.RowForm.{row_form};
    ghost use Rattle.table_map.specs.Keyed.{keyed_rows};
    ghost use Rattle.paged_tables.specs.Stored.{IsStored, Stored};

    ghost Value = { Stored };

    ghost view = { λ t. record { schema = arc_value t.schema; is_created = t.is_created; places = t.rows.places; base = keyed_rows (row_form (arc_value t.schema)) t.base.listed.value; changes = t.rows.overlay } };

    ghost invariant = { λ t. IsStored (record { schema = arc_value t.schema; is_created = t.is_created; places = t.rows.places; base = keyed_rows (row_form (arc_value t.schema)) t.base.listed.value; changes = t.rows.overlay }) };
}

impl StoredTable {
    /// A table without pages and rows, held ready. The rows take no memory.
    pub fn new(alloc: Global, schema: Arc<Schema, Global>) -> StoredTable
        ensures { result ≡ record { schema = arc_value schema; is_created = false; places = record { at = 0; keys = [] }; base = []; changes = [] } }
    {
        StoredTable {
            schema,
            is_created: false,
            rows: TableMap::new(alloc, TablePages::new(0, Vec::new(alloc))),
            base: NotedRows::none(),
        }
    }

    /// A table that is created, with the rows that its pages have.
    pub fn of_pages(
        alloc: Global,
        schema: Schema,
        pages: NotedPages,
    ) -> Result<StoredTable, AllocError>
        requires { AreRowsOf schema pages.rows.listed.value }
        ensures table { IfOk result (λ table. table ≡ opened schema pages.pages pages.rows.listed.value) }
        ensures good { is_schema schema ≡ true }
    {
        let _columns = schema.columns();
        let schema = Arc::new(alloc, schema)?;
        Ok(StoredTable {
            schema,
            is_created: true,
            rows: TableMap::new(alloc, pages.pages),
            base: pages.rows,
        })
    }

    /// Whether it is created.
    pub fn is_created(&self) -> bool
        ensures { result ≡ self.now.is_created }
    {
        self.is_created
    }

    /// The schema, shared.
    pub fn schema(&self) -> Result<Arc<Schema, Global>, AllocError>
        ensures { IfOk result (λ schema. arc_value schema ≡ self.now.schema) }
    {
        Arc::try_clone(&self.schema)
    }

    /// The schema.
    pub(crate) fn schema_ref(&self) -> &Schema
        ensures { result.now ≡ self.now.schema }
    {
        &self.schema
    }

    /// Where the pages lie, and the changes since.
    pub(crate) fn map(&self) -> &TableMap
        ensures map { result.now ≡ record { places = self.now.places; overlay = self.now.changes } }
        ensures stored { IsStored self.now }
    {
        &self.rows
    }

    /// The row of this key, and whether it is known to be that, whatever the device. Bytes that are no key
    /// of the schema have none, and nothing is read for them.
    pub fn get<D: Disk>(
        &self,
        alloc: Global,
        pager: &mut Pager<D>,
        key: &[u8],
    ) -> Result<JudgedRow, PageFault>
        requires { LiesInside (length (D.life pager.old).seen) self.now }
        ensures found { IsTrue D.is_modelled → IsOnPages (D.life pager.old).seen self.now → IfOk result (λ found. copied found.row ≡ lookup (bytes_eq key.now) (table_in self.now).rows) }
        ensures judged { IfOk result (λ found. IsTrue found.is_judged → may_be_row (Some self.now.schema) (copied found.row) key.now ≡ true) }
        ensures whole { IsTrue D.is_modelled → IsOnPages (D.life pager.old).seen self.now → DamagedWhere ⊥ result }
        ensures stays { Stays (D.life pager.old) (D.life pager.new) }
        ensures cause { CountsPageFault result (D.life pager.old).faults (D.life pager.new).faults }
    {
        match form_of_key(alloc, &self.schema, key) {
            Ok(Some(form)) => self.row_at(alloc, pager, form.as_slice()),
            Ok(None) => Ok(JudgedRow {
                row: None,
                is_judged: true,
            }),
            Err(_) => Err(PageFault::NoMemory),
        }
    }

    // The row at a form.
    fn row_at<D: Disk>(
        &self,
        alloc: Global,
        pager: &mut Pager<D>,
        form: &[u8],
    ) -> Result<JudgedRow, PageFault>
        requires { LiesInside (length (D.life pager.old).seen) self.now }
        ensures found { IsTrue D.is_modelled → IsOnPages (D.life pager.old).seen self.now → IfOk result (λ found. copied found.row ≡ row_at form.now (rows_in self.now)) }
        ensures judged { IfOk result (λ found. IsTrue found.is_judged → IfSome found.row (λ row. IsRowAt self.now.schema row.items form.now)) }
        ensures whole { IsTrue D.is_modelled → IsOnPages (D.life pager.old).seen self.now → DamagedWhere ⊥ result }
        ensures stays { Stays (D.life pager.old) (D.life pager.new) }
        ensures cause { CountsPageFault result (D.life pager.old).faults (D.life pager.new).faults }
    {
        table_map::laws::stored_tables_are_whole();
        crate::laws::rows_stand_at_their_forms();
        let schema: &Schema = &self.schema;
        let _columns = schema.columns();
        let keys = SchemaKeys { schema };
        self.rows.get(alloc, &keys, pager, schema, form)
    }

    /// All rows, in the order of their keys, and whether it is known, whatever the device, that they are
    /// rows of the schema in that order. Each page is looked at once, and judged where it was not before.
    pub fn scan<D: Disk>(
        &self,
        alloc: Global,
        pager: &mut Pager<D>,
    ) -> Result<JudgedRows, PageFault>
        requires { LiesInside (length (D.life pager.old).seen) self.now }
        ensures rows { IsTrue D.is_modelled → IsOnPages (D.life pager.old).seen self.now → IfOk result (λ judged. judged.rows ≡ values_of (table_in self.now).rows) }
        ensures judged { IfOk result (λ judged. IsTrue judged.are_judged → do_rise self.now.schema judged.rows ≡ true) }
        ensures whole { IsTrue D.is_modelled → IsOnPages (D.life pager.old).seen self.now → DamagedWhere ⊥ result }
        ensures stays { Stays (D.life pager.old) (D.life pager.new) }
        ensures cause { CountsPageFault result (D.life pager.old).faults (D.life pager.new).faults }
    {
        table_map::laws::stored_tables_are_whole();
        crate::laws::rows_stand_at_their_forms();
        let schema: &Schema = &self.schema;
        let _columns = schema.columns();
        let keys = SchemaKeys { schema };
        let mut rows = Rows::new(alloc);
        match self
            .rows
            .scan_judged(alloc, &keys, pager, Some(&self.schema), &mut rows)
        {
            Ok(are_judged) => Ok(JudgedRows { rows, are_judged }),
            Err(fault) => Err(fault),
        }
    }

    /// Makes room for this row, where it is one of the schema, and gives the form of its key. Whether
    /// or not there is memory, all rows and all room stay.
    pub fn reserve(&mut self, alloc: Global, row: &[u8]) -> Result<Option<Vec<u8>>, AllocError>
        ensures shown { shown self.new ≡ shown self.old }
        ensures pages { KeepsPages self.old self.new }
        ensures room { (q : List ℕ) → HasRoom q self.old.changes → HasRoom q self.new.changes }
        ensures form { IfOk result (λ form. FormsRow self.old.schema row.now (form_in form)) }
        ensures made { IfOk result (λ form. HasRoomFor self.new.changes (form_in form)) }
    {
        match form_of_row(alloc, &self.schema, row)? {
            Some(form) => {
                self.rows.reserve(alloc, form.as_slice())?;
                Ok(Some(form))
            }
            None => Ok(None),
        }
    }

    /// Makes room for the mark that the row of this key was taken out, where it is a key of the schema, and
    /// gives its form. Whether or not there is memory, all rows and all room stay.
    pub fn reserve_key(&mut self, alloc: Global, key: &[u8]) -> Result<Option<Vec<u8>>, AllocError>
        ensures shown { shown self.new ≡ shown self.old }
        ensures pages { KeepsPages self.old self.new }
        ensures room { (q : List ℕ) → HasRoom q self.old.changes → HasRoom q self.new.changes }
        ensures form { IfOk result (λ form. FormsKey self.old.schema key.now (form_in form)) }
        ensures made { IfOk result (λ form. HasRoomFor self.new.changes (form_in form)) }
    {
        match form_of_key(alloc, &self.schema, key)? {
            Some(form) => {
                self.rows.reserve(alloc, form.as_slice())?;
                Ok(Some(form))
            }
            None => Ok(None),
        }
    }

    /// Puts a row at the form of its key, which has room. Without a form it is no row of the schema, and
    /// nothing changes; nor does a table that is not created.
    pub fn put(&mut self, form: &Option<Vec<u8>>, row: Vec<u8>)
        requires row { self.old.is_created ≡ true → FormsRow self.old.schema row.items (form_in form.now) }
        requires room { self.old.is_created ≡ true → HasRoomFor self.old.changes (form_in form.now) }
        ensures shown { shown self.new ≡ option_map (put_row row.items) (shown self.old) }
        ensures pages { KeepsPages self.old self.new }
        ensures room { (q : List ℕ) → HasRoom q self.old.changes → HasRoom q self.new.changes }
    {
        if let Some(form) = form {
            self.put_at(form.as_slice(), row);
        }
    }

    /// Takes out the row of the key that has this form, where there is one. Without a form it is no key
    /// of the schema, and nothing changes; nor does a table that is not created.
    pub fn remove(&mut self, alloc: Global, form: &Option<Vec<u8>>)
        requires { self.old.is_created ≡ true → HasRoomFor self.old.changes (form_in form.now) }
        ensures shown { (key : List ℕ) → FormsKey self.old.schema key (form_in form.now) → shown self.new ≡ option_map (remove_row key) (shown self.old) }
        ensures hidden { self.old.is_created ≡ false → shown self.new ≡ None }
        ensures pages { KeepsPages self.old self.new }
        ensures room { (q : List ℕ) → HasRoom q self.old.changes → HasRoom q self.new.changes }
    {
        if let Some(form) = form {
            self.remove_at(alloc, form.as_slice());
        } else {
            // Read, so that it is known that every row stands at a key.
            let _ = &self.rows;
        }
    }

    // Puts a row at the form of its key, where the table is created.
    fn put_at(&mut self, form: &[u8], row: Vec<u8>)
        requires row { self.old.is_created ≡ true → IsRowAt self.old.schema row.items form.now }
        requires room { self.old.is_created ≡ true → HasRoom form.now self.old.changes }
        ensures shown { shown self.new ≡ option_map (put_row row.items) (shown self.old) }
        ensures pages { KeepsPages self.old self.new }
        ensures room { (q : List ℕ) → HasRoom q self.old.changes → HasRoom q self.new.changes }
    {
        if self.is_created {
            // The schema has a column, and so the row has a byte.
            let _columns = self.schema.columns();
            self.rows.put_reserved(form, row);
        }
    }

    // Takes out the row whose key has this form, where there is one and the table is created.
    fn remove_at(&mut self, alloc: Global, form: &[u8])
        requires { self.old.is_created ≡ true → HasRoom form.now self.old.changes }
        ensures shown { (key : List ℕ) → IsFormOf self.old.schema key form.now → shown self.new ≡ option_map (remove_row key) (shown self.old) }
        ensures hidden { self.old.is_created ≡ false → shown self.new ≡ None }
        ensures pages { KeepsPages self.old self.new }
        ensures room { (q : List ℕ) → HasRoom q self.old.changes → HasRoom q self.new.changes }
    {
        if self.is_created {
            self.rows.remove_reserved(alloc, form);
        }
    }

    /// Gives up the room at a form without a change. A row or a mark that is there stays.
    pub fn release(&mut self, form: &[u8])
        ensures shown { shown self.new ≡ shown self.old }
        ensures pages { KeepsPages self.old self.new }
        ensures created { self.new.is_created ≡ self.old.is_created }
    {
        self.rows.release(form);
    }

    /// Creates the table that was held ready. One that is created stays as it is.
    pub fn create(&mut self)
        ensures shown { shown self.new ≡ Some (created_table self.old) }
        ensures pages { KeepsPages self.old self.new }
        ensures room { (q : List ℕ) → HasRoom q self.old.changes → HasRoom q self.new.changes }
    {
        self.is_created = true;
    }

    /// All its rows stand on these pages now, and there are no changes since. All room is given up.
    pub fn relay(&mut self, alloc: Global, pages: TablePages)
        ensures { self.new ≡ laid_anew pages self.old }
    {
        key_map::laws::rows_have_their_forms();
        let schema: &Schema = &self.schema;
        let _columns = schema.columns();
        self.base.listed.set(&(schema, &self.rows));
        self.rows = TableMap::new(alloc, pages);
    }
}

// The form of a key, where it is one of the schema.
fn form_of_key(alloc: Global, schema: &Schema, key: &[u8]) -> Result<Option<Vec<u8>>, AllocError>
    ensures { IfOk result (λ form. FormsKey schema.now key.now (form_in form)) }
{
    if !is_key(schema, key) {
        return Ok(None);
    }
    Ok(Some(form_of_good(alloc, schema, key)?))
}

// The form of a row's key, where it is one of the schema.
fn form_of_row(alloc: Global, schema: &Schema, row: &[u8]) -> Result<Option<Vec<u8>>, AllocError>
    ensures { IfOk result (λ form. FormsRow schema.now row.now (form_in form)) }
{
    let _columns = schema.columns();
    key_map::laws::rows_have_their_forms();
    row_values::laws::rows_have_values_and_keys();
    let Ok(_parsed) = RowRef::parse(schema, row) else {
        return Ok(None);
    };
    Ok(Some(row_form(alloc, schema, row)?))
}

// The form of a key of the schema.
fn form_of_good(alloc: Global, schema: &Schema, key: &[u8]) -> Result<Vec<u8>, AllocError>
    requires { is_key schema.now key.now ≡ true }
    ensures { IfOk result (λ form. IsFormOf schema.now key.now form.items) }
{
    sort_form(alloc, schema, key)
}

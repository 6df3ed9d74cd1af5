//! What is done to one table of the tree.

ghost use Rattle.std.specs.Prelude.{◌≡◌, ◌++◌, ◌∷◌, [], ℕ, List, None, OnErr, OnOk, Some, IfOk, bytes_eq, filter, option_copied, true};
ghost use Rattle.row_values.specs.Schema.{Schema};
ghost use Rattle.tables.specs.Change.{create as create_change, put as put_change, remove as remove_change};
ghost use Rattle.tables.specs.Tables.{apply, schema_of};
ghost use Rattle.paged_tables.specs.Stored.{FormsKey, FormsRow, HasRoomFor, form_in};
ghost use Rattle.paged_tables.specs.TablesByName.{ComesLast, Grows, IsReady, is_created, IsInOrder, PagesStay, RelaysNext, created_of, relaid, named, schema_after, schema_at, slots_at, store_of, tables_in};

use crate::stored_table::StoredTable;
use row_values::Schema;
use std::alloc::{AllocError, Global};
use std::collections::BTreeMap;
use std::sync::Arc;
use std::vec::IntoIter;
use table_map::TablePages;

/// Holds a table of this name and schema ready, unless there is a table of the name.
pub(crate) fn hold_ready(
    tables: &mut BTreeMap<Vec<u8>, StoredTable>,
    alloc: Global,
    name: &[u8],
    schema: &Schema,
) -> Result<(), AllocError>
    requires { IsInOrder tables.old }
    ensures store { store_of (tables_in tables.new.entries) ≡ store_of (tables_in tables.old.entries) }
    ensures grows { Grows (tables_in tables.old.entries) (tables_in tables.new.entries) }
    ensures schemas { OnOk result ((q : List ℕ) → schema_at (tables_in tables.new.entries) q ≡ schema_after (create_change name.now schema.now) (tables_in tables.old.entries) q) }
    ensures ordered { IsInOrder tables.new }
{
    if tables.contains_key(name) {
        return Ok(());
    }
    let copy = Vec::from_slice(alloc, name)?;
    let schema = Arc::new(alloc, schema.copy(alloc)?)?;
    tables.insert(copy, StoredTable::new(alloc, schema))?;
    Ok(())
}

/// Makes room for a row of the table of a name, and gives the form of its key.
pub(crate) fn reserve(
    tables: &mut BTreeMap<Vec<u8>, StoredTable>,
    alloc: Global,
    name: &[u8],
    row: &[u8],
) -> Result<Option<Vec<u8>>, AllocError>
    ensures store { store_of (tables_in tables.new.entries) ≡ store_of (tables_in tables.old.entries) }
    ensures grows { Grows (tables_in tables.old.entries) (tables_in tables.new.entries) }
    ensures schemas { (q : List ℕ) → schema_at (tables_in tables.new.entries) q ≡ schema_at (tables_in tables.old.entries) q }
    ensures form { IfOk result (λ form. (schema : Schema) → schema_at (tables_in tables.old.entries) name.now ≡ Some schema → FormsRow schema row.now (form_in form)) }
    ensures room { IfOk result (λ form. (schema : Schema) → schema_at (tables_in tables.old.entries) name.now ≡ Some schema → HasRoomFor (slots_at (tables_in tables.new.entries) name.now) (form_in form)) }
    ensures ordered { IsInOrder tables.new }
{
    match tables.get_mut(name) {
        Some(table) => table.reserve(alloc, row),
        None => Ok(None),
    }
}

/// Makes room for the mark that a row of the table of a name was taken out, and gives the form of its key.
pub(crate) fn reserve_key(
    tables: &mut BTreeMap<Vec<u8>, StoredTable>,
    alloc: Global,
    name: &[u8],
    key: &[u8],
) -> Result<Option<Vec<u8>>, AllocError>
    ensures store { store_of (tables_in tables.new.entries) ≡ store_of (tables_in tables.old.entries) }
    ensures grows { Grows (tables_in tables.old.entries) (tables_in tables.new.entries) }
    ensures schemas { (q : List ℕ) → schema_at (tables_in tables.new.entries) q ≡ schema_at (tables_in tables.old.entries) q }
    ensures form { IfOk result (λ form. (schema : Schema) → schema_at (tables_in tables.old.entries) name.now ≡ Some schema → FormsKey schema key.now (form_in form)) }
    ensures room { IfOk result (λ form. (schema : Schema) → schema_at (tables_in tables.old.entries) name.now ≡ Some schema → HasRoomFor (slots_at (tables_in tables.new.entries) name.now) (form_in form)) }
    ensures ordered { IsInOrder tables.new }
{
    match tables.get_mut(name) {
        Some(table) => table.reserve_key(alloc, key),
        None => Ok(None),
    }
}

/// Creates the table of a name, which is held ready, unless it is created.
pub(crate) fn create(tables: &mut BTreeMap<Vec<u8>, StoredTable>, name: &[u8])
    requires { IsInOrder tables.old }
    ensures store { (schema : Schema) → IsReady (create_change name.now schema) None (store_of (tables_in tables.old.entries)) (tables_in tables.old.entries) → store_of (tables_in tables.new.entries) ≡ apply (create_change name.now schema) (store_of (tables_in tables.old.entries)) }
    ensures grows { Grows (tables_in tables.old.entries) (tables_in tables.new.entries) }
    ensures ordered { IsInOrder tables.new }
{
    if let Some(table) = tables.get_mut(name) {
        table.create();
    }
}

/// Puts a row into the table of a name, at the form of its key.
pub(crate) fn put(
    tables: &mut BTreeMap<Vec<u8>, StoredTable>,
    name: &[u8],
    form: &Option<Vec<u8>>,
    row: Vec<u8>,
)
    requires ordered { IsInOrder tables.old }
    requires ready { IsReady (put_change name.now row.items) (form_in form.now) (store_of (tables_in tables.old.entries)) (tables_in tables.old.entries) }
    ensures store { store_of (tables_in tables.new.entries) ≡ apply (put_change name.now row.items) (store_of (tables_in tables.old.entries)) }
    ensures grows { Grows (tables_in tables.old.entries) (tables_in tables.new.entries) }
    ensures ordered { IsInOrder tables.new }
{
    if let Some(table) = tables.get_mut(name) {
        table.put(form, row);
    }
}

/// Takes the row whose key has this form out of the table of a name.
pub(crate) fn remove(
    tables: &mut BTreeMap<Vec<u8>, StoredTable>,
    alloc: Global,
    name: &[u8],
    form: &Option<Vec<u8>>,
)
    requires ordered { IsInOrder tables.old }
    requires ready { (schema : Schema) → schema_of (store_of (tables_in tables.old.entries)) name.now ≡ Some schema → HasRoomFor (slots_at (tables_in tables.old.entries) name.now) (form_in form.now) }
    ensures store { (key : List ℕ) → IsReady (remove_change name.now key) (form_in form.now) (store_of (tables_in tables.old.entries)) (tables_in tables.old.entries) → store_of (tables_in tables.new.entries) ≡ apply (remove_change name.now key) (store_of (tables_in tables.old.entries)) }
    ensures grows { Grows (tables_in tables.old.entries) (tables_in tables.new.entries) }
    ensures ordered { IsInOrder tables.new }
{
    if let Some(table) = tables.get_mut(name) {
        table.remove(alloc, form);
    }
}

/// Gives up the room at a form, where there is no change, in the table of a name.
pub(crate) fn release(tables: &mut BTreeMap<Vec<u8>, StoredTable>, name: &[u8], form: &[u8])
    ensures store { store_of (tables_in tables.new.entries) ≡ store_of (tables_in tables.old.entries) }
    ensures pages { PagesStay (tables_in tables.old.entries) (tables_in tables.new.entries) }
    ensures ordered { IsInOrder tables.new }
{
    if let Some(table) = tables.get_mut(name) {
        table.release(form);
    }
}

/// Takes out the tables that are held ready and not created.
pub(crate) fn keep_created(tables: &mut BTreeMap<Vec<u8>, StoredTable>)
    ensures kept { tables_in tables.new.entries ≡ filter is_created (tables_in tables.old.entries) }
    ensures ordered { IsInOrder tables.new }
{
    tables.retain(|_, table| table.is_created());
}

/// A table behind the others: the rows of pages. The tables that are held ready are given up.
pub(crate) fn add(
    tables: &mut BTreeMap<Vec<u8>, StoredTable>,
    name: Vec<u8>,
    table: StoredTable,
) -> Result<(), AllocError>
    requires { ComesLast name.items (store_of (tables_in tables.old.entries)) }
    ensures added { OnOk result (tables_in tables.new.entries ≡ created_of (tables_in tables.old.entries) ++ (name.items, table) ∷ []) }
    ensures kept { OnErr result (tables_in tables.new.entries ≡ created_of (tables_in tables.old.entries)) }
    ensures ordered { IsInOrder tables.new }
{
    keep_created(tables);
    tables.insert(name, table)?;
    Ok(())
}

// The next of the pages that are left go to a table that is created. Whether it is.
fn relay_next(table: &mut StoredTable, alloc: Global, left: &mut IntoIter<TablePages>) -> bool
    ensures { RelaysNext left.old.rest.items table.old result table.new left.new.rest.items }
{
    if !table.is_created() {
        return false;
    }
    if let Some(pages) = left.next() {
        table.relay(alloc, pages);
    }
    true
}

/// All tables that are created have their rows on these pages, one table's behind another's. Those that are
/// held ready are given up.
pub(crate) fn relay(
    tables: &mut BTreeMap<Vec<u8>, StoredTable>,
    alloc: Global,
    pages: Vec<TablePages>,
)
    ensures laid { tables_in tables.new.entries ≡ relaid pages.items (tables_in tables.old.entries) }
    ensures ordered { IsInOrder tables.new }
{
    let mut left = pages.into_iter();
    tables.retain(|_, table| relay_next(table, alloc, &mut left));
}

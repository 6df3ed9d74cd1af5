//! Tables in memory.

ghost use Rattle.std.specs.Prelude.{◌≡◌, ◌<◌, ◌≤◌, IfOk, IfSome, OnErr, OnOk, length, map, option_map, position, true, []};
ghost use Rattle.std.specs.List.{list_any};
ghost use Rattle.std.specs.String.{string_bytes};
ghost use Rattle.std.specs.Arc.{arc_value};
ghost use Rattle.tables.specs.ChangeView.{change_of};
ghost use Rattle.tables.specs.Change.{create as create_change, put as put_change, remove as remove_change};
ghost use Rattle.tables.specs.Plain.{is_named, store_of, tables_before};
ghost use Rattle.tables.specs.Tables.{apply, row_of, rows_of, schema_of};
ghost use Rattle.tables.specs.View.{is_store};

use crate::action::Action;
use crate::change::Change;
use crate::plain_table::PlainTable;
use crate::rows::Rows;
use crate::table_view::TableView;
use row_values::Schema;
use std::alloc::{AllocError, Global};
use std::marker::Model;
use std::sync::Arc;
use thiserror::Error;

/// Tables in memory, as plain lists of rows, to which changes are applied. Tables and rows are sought
/// one by one from the front.
#[derive(Debug, Drop)]
pub struct PlainView {
    tables: Vec<PlainTable>,
}

impl Model for PlainView {
    ghost use Rattle.std.specs.Prelude.{◌≡◌, true};
    ghost use Rattle.tables.specs.Tables.{Store};
    ghost use Rattle.tables.specs.View.{is_store};
    ghost use Rattle.tables.specs.Plain.{store_of};

    ghost Value = { Store };

    ghost view = { λ v. store_of v.tables.items };

    ghost invariant = { λ v. is_store (store_of v.tables.items) ≡ true };
}

impl PlainView {
    /// No tables.
    pub fn new(alloc: Global) -> PlainView
        ensures { result ≡ [] }
    {
        PlainView {
            tables: Vec::new(alloc),
        }
    }

    /// What the change makes of the tables. A table that is there already is not created again; into
    /// no table nothing is put, and neither is what is no row of the table. On want of memory nothing
    /// has changed.
    pub fn apply(&mut self, alloc: Global, change: Change) -> Result<(), AllocError>
        ensures applied { OnOk result (self.new ≡ apply (change_of change) self.old) }
        ensures kept { OnErr result (self.new ≡ self.old) }
    {
        let action = change.action;
        match action {
            Action::CreateTable { table, schema } => create(&mut self.tables, alloc, table, schema),
            Action::Put { table, row } => put(&mut self.tables, alloc, table.as_str(), row),
            Action::Remove { table, key } => {
                remove(&mut self.tables, table.as_str(), key.as_slice());
                Ok(())
            }
        }
    }
}

/// Why tables in memory don't answer.
#[derive(Clone, Copy, Debug, PartialEq, Eq, Error)]
pub enum PlainFault {
    #[error("out of memory")]
    NoMemory,
    #[error("damaged")]
    Damaged,
}

impl From<AllocError> for PlainFault {
    ghost use Rattle.tables.specs.declared.plain_view.PlainFault.TheVariants.{NoMemory};

    ghost from_gives = { λ _ e. e ≡ NoMemory };

    fn from(_: AllocError) -> PlainFault {
        PlainFault::NoMemory
    }
}

impl TableView for PlainView {
    ghost use Rattle.std.specs.Prelude.{Bool, false, true};
    ghost use Rattle.tables.specs.PlainFault.{is_damage, no_damage};

    type Fault = PlainFault;

    ghost store = { λ s. s };

    ghost is_faithful = { true };

    ghost tells_damage = { is_damage };

    fn schema(
        &mut self,
        alloc: Global,
        table: &str,
    ) -> Result<Option<Arc<Schema, Global>>, PlainFault> {
        Ok(shared_schema(self.tables.as_slice(), table)?)
    }

    fn tables(&mut self) -> Result<usize, PlainFault> {
        Ok(self.tables.len())
    }

    fn get(
        &mut self,
        alloc: Global,
        table: &str,
        key: &[u8],
    ) -> Result<Option<Vec<u8>>, PlainFault> {
        Ok(copied_row(self.tables.as_slice(), alloc, table, key)?)
    }

    fn scan(&mut self, alloc: Global, table: &str) -> Result<Rows, PlainFault> {
        Ok(copied_rows(self.tables.as_slice(), alloc, table)?)
    }

    fn is_trusted(&self) -> bool {
        true
    }

    fn damaged(&self) -> PlainFault {
        PlainFault::Damaged
    }

    ghost memory_is_no_damage = { no_damage };
}

// The schema of the table of a name, where there is one.
fn shared_schema(
    tables: &[PlainTable],
    name: &str,
) -> Result<Option<Arc<Schema, Global>>, AllocError>
    ensures { IfOk result (λ schema. option_map arc_value schema ≡ schema_of (store_of tables.now) name.now) }
{
    match place_of(tables, name) {
        Some(i) => Ok(Some(Arc::try_clone(&tables[i].schema)?)),
        None => Ok(None),
    }
}

// The row of a key in the table of a name, where it has one.
fn copied_row(
    tables: &[PlainTable],
    alloc: Global,
    name: &str,
    key: &[u8],
) -> Result<Option<Vec<u8>>, AllocError>
    ensures { IfOk result (λ row. option_map (λ bytes. bytes.items) row ≡ row_of (store_of tables.now) name.now key.now) }
{
    match place_of(tables, name) {
        Some(i) => tables[i].get(alloc, key),
        None => Ok(None),
    }
}

// The rows of the table of a name, where there is one.
fn copied_rows(tables: &[PlainTable], alloc: Global, name: &str) -> Result<Rows, AllocError>
    ensures { IfOk result (λ rows. rows ≡ rows_of (store_of tables.now) name.now) }
{
    match place_of(tables, name) {
        Some(i) => tables[i].scan(alloc),
        None => Ok(Rows::new(alloc)),
    }
}

// A new table without rows, unless there is one of its name. On want of memory nothing has changed.
fn create(
    tables: &mut Vec<PlainTable>,
    alloc: Global,
    name: String,
    schema: Schema,
) -> Result<(), AllocError>
    ensures applied { OnOk result (store_of tables.new.items ≡ apply (create_change (string_bytes name) schema) (store_of tables.old.items)) }
    ensures kept { OnErr result (store_of tables.new.items ≡ store_of tables.old.items) }
{
    if is_known(tables.as_slice(), name.as_str()) {
        return Ok(());
    }
    let place = place_for(tables.as_slice(), name.as_str());
    let schema = Arc::new(alloc, schema)?;
    tables.insert(
        place,
        PlainTable {
            name,
            schema,
            rows: Vec::new(alloc),
        },
    )?;
    Ok(())
}

// Puts a row into the table of a name, where there is one and it is a row of it. On want of memory
// nothing has changed.
fn put(
    tables: &mut Vec<PlainTable>,
    alloc: Global,
    name: &str,
    row: Vec<u8>,
) -> Result<(), AllocError>
    requires { is_store (store_of tables.old.items) ≡ true }
    ensures applied { OnOk result (store_of tables.new.items ≡ apply (put_change name.now row.items) (store_of tables.old.items)) }
    ensures kept { OnErr result (store_of tables.new.items ≡ store_of tables.old.items) }
{
    match place_of(tables.as_slice(), name) {
        Some(i) => tables[i].put(alloc, row),
        None => Ok(()),
    }
}

// Takes the row of a key out of the table of a name, where there is one.
fn remove(tables: &mut Vec<PlainTable>, name: &str, key: &[u8])
    ensures { store_of tables.new.items ≡ apply (remove_change name.now key.now) (store_of tables.old.items) }
{
    if let Some(i) = place_of(tables.as_slice(), name) {
        tables[i].remove(key);
    }
}

// Whether there is a table of this name.
fn is_known(tables: &[PlainTable], name: &str) -> bool
    ensures { result ≡ list_any (is_named name.now) tables.now }
{
    tables
        .iter()
        .any(|table| name.as_bytes() == table.name.as_bytes())
}

// Where the table of a name stands.
fn place_of(tables: &[PlainTable], name: &str) -> Option<usize>
    ensures place { result ≡ position (is_named name.now) tables.now }
    ensures within { IfSome result (λ i. i < length tables.now) }
{
    tables
        .iter()
        .position(|table| name.as_bytes() == table.name.as_bytes())
}

// How many tables stand before the place of a name.
fn place_for(tables: &[PlainTable], name: &str) -> usize
    ensures place { result ≡ tables_before name.now tables.now }
    ensures within { result ≤ length tables.now }
{
    tables
        .iter()
        .take_while(|table| name.as_bytes().cmp(table.name.as_bytes()).is_gt())
        .count()
}

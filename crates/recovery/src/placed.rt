//! Whether a change has a place in a store.

ghost use Rattle.std.specs.Prelude.{◌≡◌, IfErr, IfOk, length, option_map};
ghost use Rattle.std.specs.Arc.{arc_value};
ghost use Rattle.tables.specs.Change.{create as create_change, put as put_change, remove as remove_change};
ghost use Rattle.tables.specs.ChangeView.{change_of};
ghost use Rattle.row_values.specs.declared.row.ReadError.TheVariants.{NoMemory};
ghost use Rattle.tables.specs.Tables.{schema_of};
ghost use Rattle.paged_tables.specs.PagedTables.{store_in};
ghost use Rattle.core_model.specs.Units.{apply_all};
ghost use Rattle.recovery.specs.Durable.{has_place};
ghost use Rattle.recovery.specs.Replay.{Judges};

use crate::schema_view::SchemaView;
use paged_tables::PagedTables;
use row_values::{ReadError, RowRef, Schema, is_key};
use std::alloc::Global;
use std::sync::Arc;
use tables::{Action, Change};
use unit_changes::{UnitChanges, schema_under, tables_under};

/// The most tables of a store.
const MAX_TABLES: usize = 1_000;

/// The schema of the table of a change that has a place behind the changes before it; where it has
/// none the journal is damaged.
pub(crate) fn placed_schema(
    store: &PagedTables,
    before: &UnitChanges,
    alloc: Global,
    change: &Change,
) -> Result<Arc<Schema, Global>, ReadError>
    ensures { Judges result (has_place (change_of change.now) (apply_all before.now (store_in store.now))) }
{
    match &change.action {
        Action::CreateTable { table, schema } => {
            placed_creation(store, before, alloc, table.as_str(), schema)
        }
        Action::Put { table, row } => {
            placed_row(store, before, alloc, table.as_str(), row.as_slice())
        }
        Action::Remove { table, key } => {
            placed_key(store, before, alloc, table.as_str(), key.as_slice())
        }
    }
}

// A table is created.
fn placed_creation(
    store: &PagedTables,
    before: &UnitChanges,
    alloc: Global,
    table: &str,
    schema: &Schema,
) -> Result<Arc<Schema, Global>, ReadError>
    ensures { Judges result (has_place (create_change table.now schema.now) (apply_all before.now (store_in store.now))) }
{
    if known_schema(store, before, alloc, table)?.is_some() {
        return Err(ReadError::Damaged);
    }
    if count(store, before, alloc)? >= MAX_TABLES {
        return Err(ReadError::Damaged);
    }
    let schema = schema.copy(alloc)?;
    Ok(Arc::new(alloc, schema)?)
}

// A row is put.
fn placed_row(
    store: &PagedTables,
    before: &UnitChanges,
    alloc: Global,
    table: &str,
    row: &[u8],
) -> Result<Arc<Schema, Global>, ReadError>
    ensures { Judges result (has_place (put_change table.now row.now) (apply_all before.now (store_in store.now))) }
{
    let Some(schema) = known_schema(store, before, alloc, table)? else {
        return Err(ReadError::Damaged);
    };
    if RowRef::parse(&schema, row).is_err() {
        return Err(ReadError::Damaged);
    }
    Ok(schema)
}

// The row of a key is taken out.
fn placed_key(
    store: &PagedTables,
    before: &UnitChanges,
    alloc: Global,
    table: &str,
    key: &[u8],
) -> Result<Arc<Schema, Global>, ReadError>
    ensures { Judges result (has_place (remove_change table.now key.now) (apply_all before.now (store_in store.now))) }
{
    let Some(schema) = known_schema(store, before, alloc, table)? else {
        return Err(ReadError::Damaged);
    };
    if !is_key(&schema, key) {
        return Err(ReadError::Damaged);
    }
    Ok(schema)
}

// The schema of the table of a name.
fn known_schema(
    store: &PagedTables,
    before: &UnitChanges,
    alloc: Global,
    table: &str,
) -> Result<Option<Arc<Schema, Global>>, ReadError>
    ensures found { IfOk result (λ schema. option_map arc_value schema ≡ schema_of (apply_all before.now (store_in store.now)) table.now) }
    ensures memory { IfErr result (λ error. error ≡ NoMemory) }
{
    match schema_under(&mut SchemaView { tables: store }, before, alloc, table) {
        Ok(schema) => Ok(schema),
        Err(_) => Err(ReadError::NoMemory),
    }
}

// How many tables there are.
fn count(store: &PagedTables, before: &UnitChanges, alloc: Global) -> Result<usize, ReadError>
    ensures count { IfOk result (λ n. n ≡ length (apply_all before.now (store_in store.now))) }
    ensures memory { IfErr result (λ error. error ≡ NoMemory) }
{
    match tables_under(&mut SchemaView { tables: store }, before, alloc) {
        Ok(tables) => Ok(tables),
        Err(_) => Err(ReadError::NoMemory),
    }
}

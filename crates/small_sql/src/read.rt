//! Reads the rows of a table that count.

ghost use Rattle.std.specs.Prelude.{◌≡◌, ◌∷◌, [], ◌++◌, IfErr, IfOk, IsTrue, OnOk, Some, false, filter, if◌then◌else◌, is_ok, true};
ghost use Rattle.std.specs.Arc.{arc_value};
ghost use Rattle.std.specs.List.{list_all};
ghost use Rattle.row_values.specs.Row.{is_row, values_in};
ghost use Rattle.tables.specs.Tables.{schema_of};
ghost use Rattle.tables.specs.View.{is_store};
ghost use Rattle.sql_semantics.specs.Frame.{rows_covered};
ghost use Rattle.sql_predicates.specs.Test.{passes};
ghost use Rattle.small_sql.specs.Reading.{DamagedBy, rows_given};
ghost use Rattle.small_sql.specs.Scope.{scope_of};
ghost use Rattle.small_sql.specs.Task.{matching};

use crate::scope::Scope;
use row_values::{Damaged, ReadError, RowRef, Schema};
use sql_predicates::Filter;
use std::alloc::{AllocError, Global};
use std::sync::Arc;
use tables::{RowList, Rows, TableView};

/// The rows that a view gave.
#[derive(Drop)]
enum Given {
    None,
    One(Vec<u8>),
    Many(Rows),
}

// Whether a row matches. Bytes that are no row of the schema are damaged; a row of a view that is
// trusted is not judged.
fn matches(schema: &Schema, row: &[u8], filter: &Filter, is_trusted: bool) -> Result<bool, Damaged>
    requires { is_trusted ≡ true → is_row schema.now row.now ≡ true }
    ensures matches { IfOk result (λ b. b ≡ passes filter.now (values_in schema.now row.now)) }
    ensures judged { is_ok result ≡ is_row schema.now row.now }
{
    let row = if is_trusted {
        RowRef::of_row(schema, row)
    } else {
        RowRef::parse(schema, row)?
    };
    Ok(filter.matches(&row))
}

// Adds the row where it matches. Bytes that are no row of the schema are damaged.
fn add_counted(
    list: &mut RowList,
    row: &[u8],
    wanted: &Filter,
    is_trusted: bool,
) -> Result<(), ReadError>
    requires { is_trusted ≡ true → is_row list.old.schema row.now ≡ true }
    ensures added { OnOk result (list.new ≡ (if passes wanted.now (values_in list.old.schema row.now) then record list.old { rows = list.old.rows ++ row.now ∷ [] } else list.old)) }
    ensures damaged { DamagedBy list.old.schema (row.now ∷ []) result }
{
    match matches(list.schema(), row, wanted, is_trusted) {
        Ok(true) => list.push(row)?,
        Ok(false) => {}
        Err(Damaged) => return Err(ReadError::Damaged),
    }
    Ok(())
}

// The one row, where it counts, in the list that takes it over.
fn counted_of_one(
    alloc: Global,
    list: RowList,
    row: Vec<u8>,
    wanted: &Filter,
    is_trusted: bool,
) -> Result<RowList, ReadError>
    requires fresh { list.rows ≡ [] }
    requires trusted { is_trusted ≡ true → is_row list.schema row.items ≡ true }
    ensures found { IfOk result (λ found. found ≡ record list { rows = filter (λ row. passes wanted.now (values_in list.schema row)) (row.items ∷ []) }) }
    ensures damaged { DamagedBy list.schema (row.items ∷ []) result }
{
    match matches(list.schema(), row.as_slice(), wanted, is_trusted) {
        Ok(true) => Ok(list.with_rows(Rows::one(alloc, row)?)),
        Ok(false) => Ok(list),
        Err(Damaged) => Err(ReadError::Damaged),
    }
}

// The rows that count of many.
fn counted_of_many(
    list: RowList,
    rows: &Rows,
    wanted: &Filter,
    is_trusted: bool,
) -> Result<RowList, ReadError>
    requires fresh { list.rows ≡ [] }
    requires trusted { is_trusted ≡ true → list_all (is_row list.schema) rows.now ≡ true }
    ensures found { IfOk result (λ found. found ≡ record list { rows = filter (λ row. passes wanted.now (values_in list.schema row)) rows.now }) }
    ensures damaged { DamagedBy list.schema rows.now result }
{
    let mut list = list;
    for i in 0..rows.len() {
        add_counted(&mut list, rows.row(i), wanted, is_trusted)?;
    }
    Ok(list)
}

// The rows that count. All rows of a view that is trusted, where there is no WHERE, are handed on as they are.
fn counted(
    alloc: Global,
    list: RowList,
    given: Given,
    wanted: &Filter,
    is_trusted: bool,
) -> Result<RowList, ReadError>
    requires fresh { list.rows ≡ [] }
    requires trusted { is_trusted ≡ true → list_all (is_row list.schema) (rows_given given) ≡ true }
    ensures found { IfOk result (λ found. found ≡ record list { rows = filter (λ row. passes wanted.now (values_in list.schema row)) (rows_given given) }) }
    ensures damaged { DamagedBy list.schema (rows_given given) result }
{
    match given {
        Given::None => Ok(list),
        Given::One(row) => counted_of_one(alloc, list, row, wanted, is_trusted),
        Given::Many(rows) => {
            if is_trusted && wanted.takes_all() {
                return Ok(list.with_rows(rows));
            }
            counted_of_many(list, &rows, wanted, is_trusted)
        }
    }
}

/// The fault of want of memory, which tells no damage.
pub(crate) fn no_memory<V: TableView>() -> V::Fault
    ensures { V.tells_damage result ≡ false }
{
    V::Fault::from(AllocError)
}

// The rows in a scope of a table.
fn looked_up<V: TableView>(
    alloc: Global,
    view: &mut V,
    table: &str,
    scope: &Scope,
) -> Result<Given, V::Fault>
    ensures rows { IfOk result (λ given. IsTrue V.is_faithful → rows_given given ≡ rows_covered (scope_of scope.now) table.now (V.store view.old)) }
    ensures fault { IfErr result (λ fault. IsTrue V.is_faithful → V.tells_damage fault ≡ false) }
    ensures store { V.store view.new ≡ V.store view.old }
{
    match scope {
        Scope::Names => Ok(Given::None),
        Scope::All => Ok(Given::Many(view.scan(alloc, table)?)),
        Scope::One(key) => match view.get(alloc, table, key.bytes.as_slice())? {
            Some(row) => Ok(Given::One(row)),
            None => Ok(Given::None),
        },
    }
}

/// The rows in a scope of a table that match, in a list of its schema that has none yet. Bytes that are
/// no row of the schema are damaged.
pub(crate) fn rows_found<V: TableView>(
    alloc: Global,
    view: &mut V,
    table: &str,
    scope: &Scope,
    wanted: &Filter,
    list: RowList,
) -> Result<RowList, V::Fault>
    requires fresh { list.rows ≡ [] }
    requires schema { IsTrue V.is_faithful → schema_of (V.store view.old) table.now ≡ Some list.schema }
    requires good { IsTrue V.is_faithful → is_store (V.store view.old) ≡ true }
    ensures rows { IfOk result (λ found. IsTrue V.is_faithful → found ≡ record list { rows = matching wanted.now list.schema (rows_covered (scope_of scope.now) table.now (V.store view.old)) }) }
    ensures fault { IfErr result (λ fault. IsTrue V.is_faithful → V.tells_damage fault ≡ false) }
    ensures store { V.store view.new ≡ V.store view.old }
{
    tables::laws::stores_hold_tables();
    let given = looked_up(alloc, view, table, scope)?;
    match counted(alloc, list, given, wanted, view.is_trusted()) {
        Ok(found) => Ok(found),
        Err(ReadError::Damaged) => Err(view.damaged()),
        Err(ReadError::NoMemory) => Err(no_memory::<V>()),
    }
}

/// The rows in a scope of a table that match, with no columns asked for.
pub(crate) fn rows_matched<V: TableView>(
    alloc: Global,
    view: &mut V,
    table: &str,
    schema: &Arc<Schema, Global>,
    scope: &Scope,
    wanted: &Filter,
) -> Result<RowList, V::Fault>
    requires schema { IsTrue V.is_faithful → schema_of (V.store view.old) table.now ≡ Some (arc_value schema.now) }
    requires good { IsTrue V.is_faithful → is_store (V.store view.old) ≡ true }
    ensures rows { IfOk result (λ found. IsTrue V.is_faithful → found ≡ record { schema = arc_value schema.now; selected = []; rows = matching wanted.now (arc_value schema.now) (rows_covered (scope_of scope.now) table.now (V.store view.old)) }) }
    ensures fault { IfErr result (λ fault. IsTrue V.is_faithful → V.tells_damage fault ≡ false) }
    ensures store { V.store view.new ≡ V.store view.old }
{
    let Ok(schema) = Arc::try_clone(schema) else {
        return Err(no_memory::<V>());
    };
    let list = RowList::new(alloc, schema, Vec::new(alloc));
    rows_found(alloc, view, table, scope, wanted, list)
}

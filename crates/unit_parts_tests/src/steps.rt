//! Tables, rows and changes that the tests share.

use row_values::{Column, Kind, Schema, Value, are_key, are_row, encode_key, encode_row, is_name};
use std::alloc::Global;
use std::sync::Arc;
use std::test::Fail;
use tables::{Change, PlainView, Rows, TableView};
use unit_changes::{UnitChanges, UnitView, row_under, schema_under, tables_under};

/// `K INTEGER NOT NULL, N INTEGER`, with `K` as the key.
pub(crate) fn schema(alloc: Global) -> Result<Schema, Fail> {
    let mut columns = Vec::new(alloc);
    for (name, is_nullable) in [("K", false), ("N", true)] {
        columns.push(Column {
            name: String::from_str(alloc, name)?,
            kind: Kind::Integer,
            is_nullable,
            length: 0,
        })?;
    }
    let key: [u8; 1] = [0];
    Ok(Schema::new(columns, key.to_vec(alloc)?)?)
}

/// What a step of a test does to a table.
#[derive(Clone, Copy, Debug)]
pub(crate) enum Step {
    Create(&'static str),
    Put(&'static str, i64, i64),
    Remove(&'static str, i64),
}

pub(crate) fn key(alloc: Global, schema: &Schema, k: i64) -> Result<Vec<u8>, Fail> {
    let values = [Value::Number(k)];
    if !are_key(schema, &values) {
        return Err(Fail::from("the value is no key"));
    }
    Ok(encode_key(alloc, schema, &values)?)
}

fn row(alloc: Global, schema: &Schema, k: i64, n: i64) -> Result<Vec<u8>, Fail> {
    let values = [Value::Number(k), Value::Number(n)];
    if !are_row(schema, &values) {
        return Err(Fail::from("the values don't fit"));
    }
    Ok(encode_row(alloc, schema, &values)?)
}

/// The change that the step is.
pub(crate) fn change(alloc: Global, step: Step) -> Result<Change, Fail> {
    let schema = schema(alloc)?;
    match step {
        Step::Create(name) => {
            let name = String::from_str(alloc, name)?;
            if !is_name(name.as_bytes()) {
                return Err(Fail::from("no name"));
            }
            Ok(Change::create(name, schema))
        }
        Step::Put(name, k, n) => put(alloc, name, row(alloc, &schema, k, n)?),
        Step::Remove(name, k) => remove(alloc, name, key(alloc, &schema, k)?),
    }
}

fn put(alloc: Global, name: &str, row: Vec<u8>) -> Result<Change, Fail> {
    let name = String::from_str(alloc, name)?;
    if !is_name(name.as_bytes()) || row.len() > 4_000 {
        return Err(Fail::from("no change"));
    }
    Ok(Change::put(name, row))
}

fn remove(alloc: Global, name: &str, key: Vec<u8>) -> Result<Change, Fail> {
    let name = String::from_str(alloc, name)?;
    if !is_name(name.as_bytes()) || key.len() > 8_012 {
        return Err(Fail::from("no change"));
    }
    Ok(Change::remove(name, key))
}

/// Adds the step to the unit.
pub(crate) fn add(alloc: Global, unit: &mut UnitChanges, step: Step) -> Result<(), Fail> {
    let shared = Arc::new(alloc, schema(alloc)?)?;
    let mut changes = Vec::new(alloc);
    changes.push(change(alloc, step)?)?;
    Ok(unit.add(alloc, &shared, changes)?)
}

/// Tables in memory to which the steps were applied.
pub(crate) fn plain(alloc: Global, steps: &[Step]) -> Result<PlainView, Fail> {
    let mut view = PlainView::new(alloc);
    for step in steps {
        view.apply(alloc, change(alloc, *step)?)?;
    }
    Ok(view)
}

/// Whether the base shows behind the unit what the other view has of table `name` and key `k`, and as
/// many tables.
pub(crate) fn shows_same(
    alloc: Global,
    base: &mut PlainView,
    unit: &UnitChanges,
    other: &mut PlainView,
    name: &str,
    k: i64,
) -> Result<bool, Fail> {
    let key = key(alloc, &schema(alloc)?, k)?;
    let row = row_under(base, unit, alloc, name, key.as_slice())?;
    let want = other.get(alloc, name, key.as_slice())?;
    if row.as_deref() != want.as_deref() {
        return Ok(false);
    }
    has_same_tables(alloc, base, unit, other, name)
}

fn has_same_tables(
    alloc: Global,
    base: &mut PlainView,
    unit: &UnitChanges,
    other: &mut PlainView,
    name: &str,
) -> Result<bool, Fail> {
    let known = schema_under(base, unit, alloc, name)?.is_some();
    let wanted = other.schema(alloc, name)?.is_some();
    let tables = tables_under(base, unit, alloc)?;
    Ok(known == wanted && tables == other.tables()?)
}

/// Whether the view of the unit lists the rows of table `name` that the other view lists, in their
/// order.
pub(crate) fn lists_same(
    alloc: Global,
    base: &mut PlainView,
    unit: &UnitChanges,
    other: &mut PlainView,
    name: &str,
) -> Result<bool, Fail> {
    let mut view = UnitView {
        base,
        changes: unit,
        alloc,
    };
    let rows = view.scan(alloc, name)?;
    let wanted = other.scan(alloc, name)?;
    Ok(are_same(&rows, &wanted))
}

fn are_same(rows: &Rows, wanted: &Rows) -> bool {
    if rows.len() != wanted.len() {
        return false;
    }
    for i in 0..rows.len() {
        if rows.row(i) != wanted.row(i) {
            return false;
        }
    }
    true
}

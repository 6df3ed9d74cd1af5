//! Changes as lines spell them.

use row_values::{Schema, Value, are_key, are_row, encode_key, encode_row, is_name};
use std::alloc::Global;
use tables::{Change, Rows};
use test_rows::{cells_of, values_of};

fn encoded(alloc: Global, schema: &Schema, values: &[Value<'_>]) -> Option<Vec<u8>> {
    if !are_row(schema, values) {
        return None;
    }
    encode_row(alloc, schema, values).ok()
}

// The row that these words spell. None where it is none of the schema's.
fn row_of(alloc: Global, schema: &Schema, words: &[&str]) -> Option<Vec<u8>> {
    let cells = cells_of(alloc, words)?;
    let values = values_of(alloc, &cells)?;
    encoded(alloc, schema, &values)
}

/// The key that these words spell. None where it is none of the schema's.
pub fn key_of(alloc: Global, schema: &Schema, words: &[&str]) -> Option<Vec<u8>> {
    let cells = cells_of(alloc, words)?;
    let values = values_of(alloc, &cells)?;
    if !are_key(schema, &values) {
        return None;
    }
    encode_key(alloc, schema, &values).ok()
}

fn put(alloc: Global, schema: &Schema, table: String, words: &[&str]) -> Option<Change> {
    let row = row_of(alloc, schema, words)?;
    if !is_name(table.as_str().as_bytes()) || row.len() > 4_000 {
        return None;
    }
    Some(Change::put(table, row))
}

fn remove(alloc: Global, schema: &Schema, table: String, words: &[&str]) -> Option<Change> {
    let key = key_of(alloc, schema, words)?;
    if !is_name(table.as_str().as_bytes()) || key.len() > 8_012 {
        return None;
    }
    Some(Change::remove(table, key))
}

fn create(alloc: Global, schema: &Schema, table: String) -> Option<Change> {
    if !is_name(table.as_str().as_bytes()) {
        return None;
    }
    Some(Change::create(table, schema.copy(alloc).ok()?))
}

/// The change that these words spell: `create`, or `put` of a row's values, or `remove` of a key's.
pub fn change_of(
    alloc: Global,
    schema: &Schema,
    verb: &str,
    name: &str,
    words: &[&str],
) -> Option<Change> {
    let table = String::from_str(alloc, name).ok()?;
    match verb {
        "create" => create(alloc, schema, table),
        "put" => put(alloc, schema, table, words),
        "remove" => remove(alloc, schema, table, words),
        _ => None,
    }
}

// The parts of a word that commas part.
fn parts_of<'a>(alloc: Global, word: &'a str) -> Option<Vec<&'a str>> {
    let mut parts = Vec::new(alloc);
    for part in word.split(",") {
        parts.push(part).ok()?;
    }
    Some(parts)
}

fn push_row(alloc: Global, schema: &Schema, word: &str, rows: &mut Rows) -> Option<()> {
    let parts = parts_of(alloc, word)?;
    let row = row_of(alloc, schema, &parts)?;
    rows.push(&row).ok()
}

/// The rows that these words spell, each by its values with commas between. None where one is none of the schema's.
pub fn rows_of(alloc: Global, schema: &Schema, words: &[&str]) -> Option<Rows> {
    let mut rows = Rows::new(alloc);
    for word in words {
        push_row(alloc, schema, word, &mut rows)?;
    }
    Some(rows)
}

//! The bytes of rows and keys, what is read from them, and their order.

use row_values::{
    Column, Misfit, RowError, RowRef, Schema, Value, are_key, are_row, compare_keys, encode_key,
    encode_row, is_key,
};
use std::alloc::Global;
use std::cmp::Ordering;
use test_bytes::bytes_of;
use test_rows::{cells_of, say, tell, values_of};

// Whether the values of a row are these, one after another and each from its column.
fn has_values(row: RowRef<'_>, values: &[Value<'_>]) -> bool {
    let mut i = 0_usize;
    let mut all = row.schema().columns().len() == values.len();
    for value in row.values() {
        let is_there = i < row.schema().columns().len() && row.column(i) == value;
        all = all && is_there && values.get(i) == Some(&value);
        i = i.wrapping_add(1);
    }
    all && i == values.len()
}

// Whether these bytes are a row that has these values.
fn reads_back(schema: &Schema, bytes: &[u8], values: &[Value<'_>]) -> bool {
    match RowRef::parse(schema, bytes) {
        Ok(row) => has_values(row, values),
        Err(_) => false,
    }
}

fn tell_row(alloc: Global, schema: &Schema, values: &[Value<'_>], out: &mut Vec<u8>) -> Option<()> {
    if !are_row(schema, values) {
        return say(out, "no row");
    }
    match encode_row(alloc, schema, values) {
        Ok(bytes) if reads_back(schema, &bytes, values) => tell(alloc, out, "row", &bytes),
        Ok(_) => say(out, "another row"),
        Err(RowError::TooLong) => say(out, "a row that is too long"),
        Err(RowError::NoMemory) => None,
    }
}

fn tell_key_of(
    alloc: Global,
    schema: &Schema,
    values: &[Value<'_>],
    out: &mut Vec<u8>,
) -> Option<()> {
    if !are_key(schema, values) {
        return say(out, "no key");
    }
    let key = encode_key(alloc, schema, values).ok()?;
    if !is_key(schema, &key) {
        return say(out, "another key");
    }
    tell(alloc, out, "key", &key)
}

/// What the values are as a row, which is read again, and what they are as a key.
pub fn tell_values(
    alloc: Global,
    schema: &Schema,
    words: &[&str],
    out: &mut Vec<u8>,
) -> Option<()> {
    let cells = cells_of(alloc, words)?;
    let values = values_of(alloc, &cells)?;
    tell_row(alloc, schema, &values, out)?;
    tell_key_of(alloc, schema, &values, out)
}

fn misfit(column: &Column, value: &Value<'_>) -> &'static str {
    match column.admit(value) {
        Ok(()) => "fits",
        Err(Misfit::WrongClass) => "is of a wrong class",
        Err(Misfit::IsNull) => "is NULL",
        Err(Misfit::OutOfRange) => "is out of range",
        Err(Misfit::TooLong) => "is too long",
    }
}

/// What each column of the schema says of each value.
pub fn tell_admitted(
    alloc: Global,
    schema: &Schema,
    words: &[&str],
    out: &mut Vec<u8>,
) -> Option<()> {
    let cells = cells_of(alloc, words)?;
    let values = values_of(alloc, &cells)?;
    for column in schema.columns() {
        for value in &values {
            say(out, misfit(column, value))?;
        }
    }
    Some(())
}

/// Whether these bytes are a row, how many bytes, columns and key columns it shows, and its key.
pub fn tell_bytes(alloc: Global, schema: &Schema, words: &[&str], out: &mut Vec<u8>) -> Option<()> {
    let bytes = bytes_of(alloc, words).ok()?;
    let Ok(row) = RowRef::parse(schema, &bytes) else {
        return say(out, "no row");
    };
    tell(alloc, out, "a row:", row.bytes())?;
    tell_columns(alloc, row, out)?;
    tell(alloc, out, "its key", &row.key(alloc).ok()?)
}

fn tell_columns(alloc: Global, row: RowRef<'_>, out: &mut Vec<u8>) -> Option<()> {
    let columns = row.schema().columns().len();
    let told = format!(in alloc; "of {columns} columns, the key:").ok()?;
    tell(alloc, out, &told, row.schema().key())
}

/// Whether these bytes are a key.
pub fn tell_key(alloc: Global, schema: &Schema, words: &[&str], out: &mut Vec<u8>) -> Option<()> {
    let bytes = bytes_of(alloc, words).ok()?;
    say(
        out,
        if is_key(schema, &bytes) {
            "a key"
        } else {
            "no key"
        },
    )
}

/// The bytes of the key of these values; None where they are no key.
pub fn key_of(alloc: Global, schema: &Schema, words: &[&str]) -> Option<Vec<u8>> {
    let cells = cells_of(alloc, words)?;
    let values = values_of(alloc, &cells)?;
    if !are_key(schema, &values) {
        return None;
    }
    encode_key(alloc, schema, &values).ok()
}

/// The bytes of the row of these values; None where they are none.
pub fn row_of(alloc: Global, schema: &Schema, words: &[&str]) -> Option<Vec<u8>> {
    let cells = cells_of(alloc, words)?;
    let values = values_of(alloc, &cells)?;
    if !are_row(schema, &values) {
        return None;
    }
    encode_row(alloc, schema, &values).ok()
}

/// How many of these bytes' fronts are keys, but for the whole.
pub fn tell_parts(alloc: Global, schema: &Schema, words: &[&str], out: &mut Vec<u8>) -> Option<()> {
    let bytes = bytes_of(alloc, words).ok()?;
    let mut keys = 0_usize;
    for length in 0..bytes.len() {
        if is_key(schema, &bytes[..length]) {
            keys = keys.wrapping_add(1);
        }
    }
    let parts = bytes.len();
    say(
        out,
        &format!(in alloc; "{keys} keys among {parts} parts").ok()?,
    )
}

// How two keys stand.
fn order(schema: &Schema, a: &[u8], b: &[u8]) -> u8 {
    if !is_key(schema, a) || !is_key(schema, b) {
        return b'?';
    }
    match compare_keys(schema, a, b) {
        Ordering::Less => b'<',
        Ordering::Equal => b'=',
        Ordering::Greater => b'>',
    }
}

/// How each key stands to each other one, a line for each.
pub fn tell_order(schema: &Schema, keys: &[Vec<u8>], out: &mut Vec<u8>) -> Option<()> {
    for first in keys {
        out.extend_from_slice(b"  ").ok()?;
        for second in keys {
            out.push(order(schema, first, second)).ok()?;
        }
        out.push(b'\n').ok()?;
    }
    Some(())
}

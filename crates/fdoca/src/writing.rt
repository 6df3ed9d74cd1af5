//! Answers: the description of their rows, and the rows.

ghost use Rattle.std.specs.Prelude.{◌≡◌, ◌<◌, ◌≤◌, ◌+◌, ◌++◌, ◌∷◌, ℕ, List, OnErr, OnOk, drop, is_some, length, map, nat_lt, take, true, vec_capacity, vec_len};
ghost use Rattle.std.specs.List.{list_all, slice_get};
ghost use Rattle.row_values.specs.Value.{Value};
ghost use Rattle.row_values.specs.Column.{column_of, fits};
ghost use Rattle.row_values.specs.Schema.{picked};
ghost use Rattle.row_values.specs.Row.{all_fit, row_bytes, value_bytes, values_in};
ghost use Rattle.row_values.specs.RowView.{row_in, schema_in};
ghost use Rattle.fdoca.specs.Writing.{answer_descriptor, answer_row, content_size, field_bytes, length_for, sent_value, type_number, value_size};

use row_values::{Column, Kind, RowRef, Schema};
use std::alloc::AllocError;

/// Stands before a value in a row.
const PRESENT: u8 = 0x00;

/// Whether each place, from 0, is one of a column of the schema.
pub fn are_places(schema: &Schema, places: &[u8]) -> bool
    ensures { result ≡ list_all (λ place. is_some (slice_get schema.now.columns place)) places.now }
{
    let count = schema.columns().len();
    all_below(count, places)
}

fn all_below(count: usize, places: &[u8]) -> bool
    ensures { result ≡ list_all (λ place. nat_lt place count) places.now }
{
    places.iter().all(|place| usize::from(*place) < count)
}

/// Appends the description of rows of these columns of a schema, given by their places from 0 (the
/// data of a QRYDSC). Where memory is refused nothing is appended, and that does not happen where the
/// list has room for the description.
pub fn write_descriptor(out: &mut Vec<u8>, schema: &Schema, places: &[u8]) -> Result<(), AllocError>
    requires few { length places.now ≤ 84 }
    requires within { list_all (λ place. is_some (slice_get schema.now.columns place)) places.now ≡ true }
    ensures ok { OnOk result (out.new.items ≡ out.old.items ++ answer_descriptor (picked schema.now.columns places.now)) }
    ensures err { OnErr result (out.new.items ≡ out.old.items) }
    ensures full { OnErr result (vec_capacity out.old < vec_len out.old + length (answer_descriptor (picked schema.now.columns places.now))) }
    ensures capacity { vec_capacity out.old ≤ vec_capacity out.new }
{
    let start = out.len();
    let columns = schema.columns();
    let pushed = push_descriptor(out, columns, places);
    if pushed.is_err() {
        out.truncate(start);
    }
    pushed
}

fn push_descriptor(out: &mut Vec<u8>, columns: &[Column], places: &[u8]) -> Result<(), AllocError>
    requires few { length places.now ≤ 84 }
    requires within { list_all (λ place. nat_lt place (length columns.now)) places.now ≡ true }
    ensures ok { OnOk result (out.new.items ≡ out.old.items ++ answer_descriptor (picked (map column_of columns.now) places.now)) }
    ensures kept { take (vec_len out.old) out.new.items ≡ out.old.items }
    ensures full { OnErr result (vec_capacity out.old < vec_len out.old + length (answer_descriptor (picked (map column_of columns.now) places.now))) }
    ensures capacity { vec_capacity out.old ≤ vec_capacity out.new }
{
    out.extend_from_slice(&[(3 + 3 * places.len()) as u8, 0x76, 0xD0])?;
    for i in 0..places.len() {
        let place = usize::from(places[i]);
        out.extend_from_slice(&field_bytes(&columns[place]))?;
    }
    out.extend_from_slice(&ANSWER_CLOSING)
}

/// The triplets that end the description of an answer.
const ANSWER_CLOSING: [u8; 15] = [
    0x09, 0x71, 0xE0, 0x54, 0x00, 0x01, 0xD0, 0x00, 0x01, 0x06, 0x71, 0xF0, 0xE0, 0x00, 0x00,
];

fn field_bytes(column: &Column) -> [u8; 3]
    ensures { result ≡ field_bytes (column_of column.now) }
{
    let number = type_number(column.kind);
    let [high, low] = length_for(column.kind, column.length).to_be_bytes();
    if column.is_nullable {
        [number + 1, high, low]
    } else {
        [number, high, low]
    }
}

fn type_number(kind: Kind) -> u8
    ensures exact { result ≡ type_number kind }
    ensures small { result ≤ 0x3E }
{
    match kind {
        Kind::SmallInt => 0x04,
        Kind::Integer => 0x02,
        Kind::BigInt => 0x16,
        Kind::VarChar => 0x3E,
        Kind::VarBinary => 0x28,
    }
}

fn length_for(kind: Kind, limit: u16) -> u16
    ensures { result ≡ length_for kind limit }
{
    match kind {
        Kind::SmallInt => 2,
        Kind::Integer => 4,
        Kind::BigInt => 8,
        Kind::VarChar | Kind::VarBinary => limit,
    }
}

/// Appends a row of an answer: of the row's columns those at these places, from 0 (a row in the data
/// of a QRYDTA). Their bytes are copied as they lie. Where memory is refused nothing is appended, and
/// that does not happen where the list has room for the row.
pub fn write_row(out: &mut Vec<u8>, row: &RowRef<'_>, places: &[u8]) -> Result<(), AllocError>
    requires { list_all (λ place. is_some (slice_get (schema_in row.now).columns place)) places.now ≡ true }
    ensures ok { OnOk result (out.new.items ≡ out.old.items ++ answer_row (picked (schema_in row.now).columns places.now) (picked (values_in (schema_in row.now) (row_in row.now)) places.now)) }
    ensures err { OnErr result (out.new.items ≡ out.old.items) }
    ensures full { OnErr result (vec_capacity out.old < vec_len out.old + length (answer_row (picked (schema_in row.now).columns places.now) (picked (values_in (schema_in row.now) (row_in row.now)) places.now))) }
    ensures capacity { vec_capacity out.old ≤ vec_capacity out.new }
{
    let start = out.len();
    let columns = row.schema().columns();
    let pushed = push_row(out, columns, row.bytes(), places);
    if pushed.is_err() {
        out.truncate(start);
    }
    pushed
}

fn push_row(
    out: &mut Vec<u8>,
    columns: &[Column],
    row: &[u8],
    places: &[u8],
) -> Result<(), AllocError>
    requires within { list_all (λ place. nat_lt place (length columns.now)) places.now ≡ true }
    ensures ok { OnOk result ((values : List Value) → all_fit (map column_of columns.now) values ≡ true → row.now ≡ row_bytes (map column_of columns.now) values → out.new.items ≡ out.old.items ++ answer_row (picked (map column_of columns.now) places.now) (picked values places.now)) }
    ensures kept { take (vec_len out.old) out.new.items ≡ out.old.items }
    ensures full { OnErr result ((values : List Value) → all_fit (map column_of columns.now) values ≡ true → row.now ≡ row_bytes (map column_of columns.now) values → vec_capacity out.old < vec_len out.old + length (answer_row (picked (map column_of columns.now) places.now) (picked values places.now))) }
    ensures capacity { vec_capacity out.old ≤ vec_capacity out.new }
{
    out.extend_from_slice(&[0xFF, PRESENT])?;
    let mut next = 0;
    let mut rest = row;
    for i in 0..places.len() {
        let place = usize::from(places[i]);
        let column = &columns[place];
        let (value, behind) = split_value(column, from_place(columns, row, next, rest, place));
        out.extend_from_slice(sent_of(column, value))?;
        next = place + 1;
        rest = behind;
    }
    Ok(())
}

/// The row's bytes from the value at a place on, where the rest begins with the value at another.
pub(crate) fn from_place<'a>(
    columns: &[Column],
    row: &'a [u8],
    next: usize,
    rest: &'a [u8],
    place: usize,
) -> &'a [u8]
    requires within { place ≤ length columns.now }
    ensures there { (values : List Value) → all_fit (map column_of columns.now) values ≡ true → row.now ≡ row_bytes (map column_of columns.now) values → rest.now ≡ row_bytes (drop next (map column_of columns.now)) (drop next values) → result.now ≡ row_bytes (drop place (map column_of columns.now)) (drop place values) }
    ensures shorter { length rest.now ≤ length row.now → length result.now ≤ length row.now }
{
    if place < next {
        skip_values(columns, 0, place, row)
    } else {
        skip_values(columns, next, place, rest)
    }
}

/// What stands behind the values of the columns from one place to another, in bytes that begin with
/// the value at the first.
fn skip_values<'a>(columns: &[Column], from: usize, to: usize, bytes: &'a [u8]) -> &'a [u8]
    requires before { from ≤ to }
    requires within { to ≤ length columns.now }
    ensures there { (values : List Value) → all_fit (map column_of columns.now) values ≡ true → bytes.now ≡ row_bytes (drop from (map column_of columns.now)) (drop from values) → result.now ≡ row_bytes (drop to (map column_of columns.now)) (drop to values) }
    ensures shorter { length result.now ≤ length bytes.now }
{
    let mut rest = bytes;
    for j in from..to {
        rest = split_value(&columns[j], rest).1;
    }
    rest
}

/// The bytes of the column's value in front, and what follows.
pub(crate) fn split_value<'a>(column: &Column, bytes: &'a [u8]) -> (&'a [u8], &'a [u8])
    ensures cut { (value : Value) (rest : List ℕ) → fits (column_of column.now) value ≡ true → bytes.now ≡ value_bytes column.now.kind value ++ rest → (result.0.now ≡ value_bytes column.now.kind value) × (result.1.now ≡ rest) }
    ensures shorter { length result.0.now ≤ length bytes.now }
    ensures left { length result.1.now ≤ length bytes.now }
{
    let declared = u32::from(column.length);
    prove!(declared < 65_536);
    let size = value_size(column.kind, bytes);
    if size > bytes.len() {
        return (bytes, bytes);
    }
    bytes.split_at(size)
}

fn value_size(kind: Kind, bytes: &[u8]) -> usize
    ensures { result ≡ value_size kind bytes.now }
{
    match bytes {
        [] => 0,
        [PRESENT, content @ ..] => 1 + content_size(kind, content),
        _ => 1,
    }
}

fn content_size(kind: Kind, bytes: &[u8]) -> usize
    ensures exact { result ≡ content_size kind bytes.now }
    ensures small { result ≤ 65537 }
{
    match kind {
        Kind::SmallInt => 2,
        Kind::Integer => 4,
        Kind::BigInt => 8,
        Kind::VarChar | Kind::VarBinary => match bytes {
            [high, low, ..] => 2 + usize::from(u16::from_be_bytes([*high, *low])),
            _ => 0,
        },
    }
}

/// What of a value's bytes is sent: its mark only where the column takes NULL.
pub(crate) fn sent_of<'a>(column: &Column, value: &'a [u8]) -> &'a [u8]
    ensures sent { (v : Value) → fits (column_of column.now) v ≡ true → value.now ≡ value_bytes column.now.kind v → result.now ≡ sent_value column.now.is_nullable column.now.kind v }
    ensures shorter { length result.now ≤ length value.now }
{
    match value {
        [_, content @ ..] if !column.is_nullable => content,
        _ => value,
    }
}

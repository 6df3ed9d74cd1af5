//! Rows.

ghost use Rattle.std.specs.Prelude.{◌≡◌, ◌≤◌, ◌<◌, ◌++◌, ◌↔◌, IfOk, IsOk, IsTrue, MatchOption, OnOk, Some, Ok, drop, is_some, length, map, slice_get, true};
ghost use Rattle.row_values.specs.Value.{value_of};
ghost use Rattle.row_values.specs.Column.{column_of};
ghost use Rattle.row_values.specs.Row.{Encodes, all_fit, is_row, place_of, row_bytes, value_bytes, values_at, values_in, values_of};

use crate::column::Column;
use crate::encoding::{put_value, split_value, value_length};
use crate::schema::Schema;
use crate::value::Value;
use std::alloc::{AllocError, AllocFailed, Global};
use thiserror::Error;

/// The most bytes of a row.
pub const MAX_ROW_BYTES: usize = 4_000;

/// Why values have no row.
#[derive(Clone, Copy, Debug, PartialEq, Eq, Error)]
pub enum RowError {
    #[error("the row is longer than 4,000 bytes")]
    TooLong,
    #[error("no memory")]
    NoMemory,
}

impl From<AllocError> for RowError {
    ghost use Rattle.row_values.specs.declared.row.RowError.TheVariants.{NoMemory};

    ghost from_gives = { λ _ e. e ≡ NoMemory };

    fn from(_: AllocError) -> RowError {
        RowError::NoMemory
    }
}

/// These bytes have another form than they should.
#[derive(Clone, Copy, Debug, PartialEq, Eq, Error)]
#[error("damaged")]
pub struct Damaged;

/// Why bytes are not read, where reading takes memory.
#[derive(Clone, Copy, Debug, PartialEq, Eq, Error)]
pub enum ReadError {
    #[error("damaged")]
    Damaged,
    #[error("no memory")]
    NoMemory,
}

impl From<AllocError> for ReadError {
    ghost use Rattle.row_values.specs.declared.row.ReadError.TheVariants.{NoMemory};

    ghost from_gives = { λ _ e. e ≡ NoMemory };

    fn from(_: AllocError) -> ReadError {
        ReadError::NoMemory
    }
}

impl<T: Drop> From<AllocFailed<T>> for ReadError {
    ghost use Rattle.row_values.specs.declared.row.ReadError.TheVariants.{NoMemory};

    ghost from_gives = { λ _ e. e ≡ NoMemory };

    fn from(_: AllocFailed<T>) -> ReadError {
        ReadError::NoMemory
    }
}

/// Whether there is one value per column, and each fits.
pub fn are_row(schema: &Schema, values: &[Value<'_>]) -> bool
    ensures { result ≡ all_fit schema.now.columns (map value_of values.now) }
{
    let columns = schema.columns();
    if columns.len() != values.len() {
        return false;
    }
    for i in 0..columns.len() {
        if columns[i].admit(&values[i]).is_err() {
            return false;
        }
    }
    true
}

/// The bytes of a row of these values, one per column. It is refused as too long where it has more
/// than 4,000 bytes.
pub fn encode_row(alloc: Global, schema: &Schema, values: &[Value<'_>]) -> Result<Vec<u8>, RowError>
    requires { IsTrue (all_fit schema.now.columns (map value_of values.now)) }
    ensures { Encodes (row_bytes schema.now.columns (map value_of values.now)) result }
{
    let columns = schema.columns();
    let Some(length) = row_length(columns, values) else {
        return Err(RowError::TooLong);
    };
    let mut row = Vec::with_capacity(alloc, length)?;
    put_values(&mut row, columns, values)?;
    Ok(row)
}

// How many bytes the row has, where they are at most 4,000.
fn row_length(columns: &[Column], values: &[Value<'_>]) -> Option<usize>
    requires { IsTrue (all_fit (map column_of columns.now) (map value_of values.now)) }
    ensures { MatchOption result (4000 < length (row_bytes (map column_of columns.now) (map value_of values.now))) (λ n. (n ≡ length (row_bytes (map column_of columns.now) (map value_of values.now))) × (n ≤ 4000)) }
{
    let mut length = 0;
    for i in 0..values.len() {
        length += value_length(&columns[i], &values[i]);
        if length > MAX_ROW_BYTES {
            return None;
        }
    }
    Some(length)
}

fn put_values(out: &mut Vec<u8>, columns: &[Column], values: &[Value<'_>]) -> Result<(), AllocError>
    requires { IsTrue (all_fit (map column_of columns.now) (map value_of values.now)) }
    ensures { OnOk result (out.new.items ≡ out.old.items ++ row_bytes (map column_of columns.now) (map value_of values.now)) }
{
    for i in 0..values.len() {
        put_value(out, &columns[i], &values[i])?;
    }
    Ok(())
}

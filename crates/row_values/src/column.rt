//! Columns, and which values fit them.

ghost use Rattle.std.specs.Prelude.{◌≡◌, IfOk, is_ok};
ghost use Rattle.std.specs.List.{list_all};
ghost use Rattle.std.specs.Result.{result_err};
ghost use Rattle.row_values.specs.Value.{value_of, number as number_value, text as text_value, binary as binary_value};
ghost use Rattle.row_values.specs.Column.{column_of, fits, misfit_of, within};
ghost use Rattle.row_values.specs.Schema.{goes_on_name, is_capital, is_column, is_limit, is_name};

use crate::schema::{MAX_COLUMN_LENGTH, MAX_NAME_BYTES};
use crate::value::Value;
use std::alloc::{AllocError, Global};

/// The SQL type of a column.
#[derive(Clone, Copy, Debug, PartialEq, Eq)]
pub enum Kind {
    SmallInt,
    Integer,
    BigInt,
    VarChar,
    VarBinary,
}

/// Why a value doesn't fit a column.
#[derive(Clone, Copy, Debug, PartialEq, Eq)]
pub enum Misfit {
    /// The value is of another class than the column's.
    WrongClass,
    /// The value is NULL, and the column takes no NULL.
    IsNull,
    /// The number isn't in the range of the column's type.
    OutOfRange,
    /// The text or the bytes are longer than the column's length.
    TooLong,
}

/// A column of a table.
#[derive(Debug, Drop, PartialEq, Eq)]
pub struct Column {
    /// In capitals, 1 to 30 bytes: a letter, then letters, digits and `_`.
    pub name: String,
    pub kind: Kind,
    pub is_nullable: bool,
    /// The most bytes of a text or of bytes, 1 to 2,000; 0 for numbers.
    pub length: u16,
}

impl Column {
    /// Whether the value fits the column, and else the first reason why not: its class, NULL, its
    /// range, its length. NULL is of every class.
    #[inline(always)]
    pub fn admit(&self, value: &Value<'_>) -> Result<(), Misfit>
        ensures reason { result_err result ≡ misfit_of (column_of self.now) (value_of value.now) }
        ensures fits { is_ok result ≡ fits (column_of self.now) (value_of value.now) }
    {
        match value {
            Value::Null => check(self.is_nullable, Misfit::IsNull),
            Value::Number(number) => self.admit_number(*number),
            Value::Text(text) => self.admit_text(text.as_bytes()),
            Value::Bytes(bytes) => self.admit_bytes(bytes),
        }
    }

    /// Whether the column's name is in capitals, 1 to 30 bytes, a letter and then letters, digits
    /// and `_`, and its length one that its type has.
    pub(crate) fn is_valid(&self) -> bool
        ensures { result ≡ is_column (column_of self.now) }
    {
        is_name(self.name.as_bytes()) && is_length(self.kind, self.length)
    }

    /// A copy of the column.
    pub fn copy(&self, alloc: Global) -> Result<Column, AllocError>
        ensures { IfOk result (λ column. column_of column ≡ column_of self.now) }
    {
        Ok(Column {
            name: String::from_str(alloc, self.name.as_str())?,
            kind: self.kind,
            is_nullable: self.is_nullable,
            length: self.length,
        })
    }

    #[inline(always)]
    fn admit_number(&self, number: i64) -> Result<(), Misfit>
        ensures { result_err result ≡ misfit_of (column_of self.now) (number_value number) }
    {
        match self.kind {
            Kind::SmallInt => check(-32_768 <= number && number <= 32_767, Misfit::OutOfRange),
            Kind::Integer => check(
                -2_147_483_648 <= number && number <= 2_147_483_647,
                Misfit::OutOfRange,
            ),
            Kind::BigInt => Ok(()),
            Kind::VarChar | Kind::VarBinary => Err(Misfit::WrongClass),
        }
    }

    #[inline(always)]
    fn admit_text(&self, text: &[u8]) -> Result<(), Misfit>
        ensures { result_err result ≡ misfit_of (column_of self.now) (text_value text.now) }
    {
        match self.kind {
            Kind::VarChar => check(text.len() <= usize::from(self.length), Misfit::TooLong),
            _ => Err(Misfit::WrongClass),
        }
    }

    #[inline(always)]
    fn admit_bytes(&self, bytes: &[u8]) -> Result<(), Misfit>
        ensures { result_err result ≡ misfit_of (column_of self.now) (binary_value bytes.now) }
    {
        match self.kind {
            Kind::VarBinary => check(bytes.len() <= usize::from(self.length), Misfit::TooLong),
            _ => Err(Misfit::WrongClass),
        }
    }
}

// The misfit where the test fails.
#[inline(always)]
fn check(test: bool, misfit: Misfit) -> Result<(), Misfit>
    ensures { result_err result ≡ within test misfit }
{
    if test { Ok(()) } else { Err(misfit) }
}

/// Whether the bytes are a name: in capitals, 1 to 30 bytes, a letter and then letters, digits and
/// `_`.
pub fn is_name(bytes: &[u8]) -> bool
    ensures { result ≡ is_name bytes.now }
{
    match bytes {
        [] => false,
        [first, rest @ ..] => is_capital(*first) && all_go_on(rest) && rest.len() < MAX_NAME_BYTES,
    }
}

fn all_go_on(bytes: &[u8]) -> bool
    ensures { result ≡ list_all goes_on_name bytes.now }
{
    bytes.iter().all(|byte| goes_on_name(*byte))
}

fn is_capital(byte: u8) -> bool
    ensures { result ≡ is_capital byte }
{
    b'A' <= byte && byte <= b'Z'
}

fn goes_on_name(byte: u8) -> bool
    ensures { result ≡ goes_on_name byte }
{
    is_capital(byte) || (b'0' <= byte && byte <= b'9') || byte == b'_'
}

fn is_length(kind: Kind, length: u16) -> bool
    ensures { result ≡ is_limit kind length }
{
    match kind {
        Kind::SmallInt | Kind::Integer | Kind::BigInt => length == 0,
        Kind::VarChar | Kind::VarBinary => 0 < length && length <= MAX_COLUMN_LENGTH,
    }
}

//! The bytes of a value.

ghost use Rattle.std.specs.Prelude.{◌≡◌, ◌++◌, ◌^◌, ◌<◌, IfSome, IsSome, IsTrue, None, OnErr, OnOk, is_some, length, map, option_map};
ghost use Rattle.row_values.specs.Value.{value_of, number as number_value};
ghost use Rattle.row_values.specs.Column.{column_of, fits, misfit_in};
ghost use Rattle.row_values.specs.Bytes.{Keeps};
ghost use Rattle.row_values.specs.Row.{content_at, content_bytes, counted, counted_at, typed_value_at, front_of, StandsFrom, utf8_in, value_at, value_bytes, values_at};

use crate::column::{Column, Kind};
use crate::value::Value;
use byteorder::{BigEndian, ByteOrder};
use std::alloc::AllocError;

/// The mark in front of a value.
pub(crate) const PRESENT: u8 = 0;

/// The mark in place of a NULL.
const ABSENT: u8 = 0xFF;

/// Appends the bytes of a value that fits the column.
pub(crate) fn put_value(
    out: &mut Vec<u8>,
    column: &Column,
    value: &Value<'_>,
) -> Result<(), AllocError>
    requires { IsTrue (fits (column_of column.now) (value_of value.now)) }
    ensures { OnOk result (out.new.items ≡ out.old.items ++ value_bytes column.now.kind (value_of value.now)) }
{
    match *value {
        Value::Null => out.push(ABSENT)?,
        Value::Number(number) => {
            out.push(PRESENT)?;
            put_number(out, column.kind, number)?;
        }
        Value::Text(text) => {
            prove!(text.len() <= usize::from(column.length));
            out.push(PRESENT)?;
            put_counted(out, text.as_bytes())?;
        }
        Value::Bytes(bytes) => {
            prove!(bytes.len() <= usize::from(column.length));
            out.push(PRESENT)?;
            put_counted(out, bytes)?;
        }
    }
    Ok(())
}

fn put_number(out: &mut Vec<u8>, kind: Kind, number: i64) -> Result<(), AllocError>
    requires { misfit_in kind 0 (number_value number) ≡ None }
    ensures { OnOk result (out.new.items ≡ out.old.items ++ content_bytes kind (number_value number)) }
{
    match kind {
        Kind::SmallInt => {
            let mut bytes = [0; 2];
            BigEndian::write_i16(&mut bytes, number as i16);
            out.extend_from_slice(&bytes)
        }
        Kind::Integer => {
            let mut bytes = [0; 4];
            BigEndian::write_i32(&mut bytes, number as i32);
            out.extend_from_slice(&bytes)
        }
        Kind::BigInt => {
            let mut bytes = [0; 8];
            BigEndian::write_i64(&mut bytes, number);
            out.extend_from_slice(&bytes)
        }
        Kind::VarChar | Kind::VarBinary => Ok(()),
    }
}

/// Appends a text or bytes behind their length, or some of that.
pub fn put_counted(out: &mut Vec<u8>, bytes: &[u8]) -> Result<(), AllocError>
    requires { length bytes.now < 2 ^ 16 }
    ensures ok { OnOk result (out.new.items ≡ out.old.items ++ counted bytes.now) }
    ensures err { OnErr result (Keeps out.old.items out.new.items) }
{
    let mut count = [0; 2];
    BigEndian::write_u16(&mut count, bytes.len() as u16);
    out.extend_from_slice(&count)?;
    out.extend_from_slice(bytes)
}

/// How many bytes a value that fits the column has.
pub(crate) fn value_length(column: &Column, value: &Value<'_>) -> usize
    requires { IsTrue (fits (column_of column.now) (value_of value.now)) }
    ensures exact { result ≡ length (value_bytes column.now.kind (value_of value.now)) }
    ensures short { result < 2 ^ 17 }
{
    match *value {
        Value::Null => 1,
        Value::Number(_) => match column.kind {
            Kind::SmallInt => 3,
            Kind::Integer => 5,
            _ => 9,
        },
        Value::Text(text) => {
            prove!(text.len() <= usize::from(column.length));
            3 + text.len()
        }
        Value::Bytes(bytes) => {
            prove!(bytes.len() <= usize::from(column.length));
            3 + bytes.len()
        }
    }
}

/// Whether the bytes are those of values that fit the columns, one per column.
pub(crate) fn has_values(columns: &[Column], bytes: &[u8]) -> bool
    ensures { result ≡ is_some (values_at (map column_of columns.now) bytes.now) }
{
    let mut rest = bytes;
    for column in columns {
        match split_value(column, rest) {
            Some((_, after)) => rest = after,
            None => return false,
        }
    }
    rest.is_empty()
}

/// A value that fits the column, in front of the bytes, with what follows it.
#[inline(always)]
#[tactic(auto, unfolding(crate::specs::Row::value_at))]
pub(crate) fn split_value<'a>(column: &Column, bytes: &'a [u8]) -> Option<(Value<'a>, &'a [u8])>
    ensures { option_map (λ x. (value_of x.0, x.1.now)) result ≡ value_at (column_of column.now) bytes.now }
{
    let (value, rest) = split_any(column.kind, bytes)?;
    if column.admit(&value).is_err() {
        return None;
    }
    Some((value, rest))
}

/// A value of a type, with what follows.
#[inline(always)]
pub(crate) fn split_any(kind: Kind, bytes: &[u8]) -> Option<(Value<'_>, &[u8])>
    ensures { option_map (λ x. (value_of x.0, x.1.now)) result ≡ typed_value_at kind bytes.now }
{
    let [mark, rest @ ..] = bytes else {
        return None;
    };
    match *mark {
        ABSENT => Some((Value::Null, rest)),
        PRESENT => split_content(kind, rest),
        _ => None,
    }
}

// The bytes of a value of a type behind its mark, with what follows.
#[inline(always)]
fn split_content(kind: Kind, bytes: &[u8]) -> Option<(Value<'_>, &[u8])>
    ensures { option_map (λ x. (value_of x.0, x.1.now)) result ≡ content_at kind bytes.now }
{
    match kind {
        Kind::SmallInt => {
            let (number, rest) = split_front(bytes, 2)?;
            Some((Value::Number(i64::from(BigEndian::read_i16(number))), rest))
        }
        Kind::Integer => {
            let (number, rest) = split_front(bytes, 4)?;
            Some((Value::Number(i64::from(BigEndian::read_i32(number))), rest))
        }
        Kind::BigInt => {
            let (number, rest) = split_front(bytes, 8)?;
            Some((Value::Number(BigEndian::read_i64(number)), rest))
        }
        Kind::VarChar => {
            let (text, rest) = split_counted(bytes)?;
            Some((Value::Text(text_of(text)?), rest))
        }
        Kind::VarBinary => {
            let (content, rest) = split_counted(bytes)?;
            Some((Value::Bytes(content), rest))
        }
    }
}

/// The first bytes, with what follows.
#[inline(always)]
#[tactic(auto, unfolding(crate::specs::Row::front_of))]
pub(crate) fn split_front(bytes: &[u8], count: usize) -> Option<(&[u8], &[u8])>
    ensures parts { option_map (λ x. (x.0.now, x.1.now)) result ≡ front_of count bytes.now }
    ensures len { IfSome result (λ x. length x.0.now ≡ count) }
{
    if bytes.len() < count {
        return None;
    }
    Some(bytes.split_at(count))
}

/// The bytes behind a length of two bytes in front, with what follows.
#[inline(always)]
pub fn split_counted(bytes: &[u8]) -> Option<(&[u8], &[u8])>
    ensures { option_map (λ x. (x.0.now, x.1.now)) result ≡ counted_at bytes.now }
{
    let (count, rest) = split_front(bytes, 2)?;
    split_front(rest, usize::from(BigEndian::read_u16(count)))
}

/// The text of these bytes, where they are UTF-8.
pub(crate) fn text_of(bytes: &[u8]) -> Option<&str>
    ensures { option_map (λ text. text.now) result ≡ utf8_in bytes.now }
{
    str::from_utf8(bytes).ok()
}

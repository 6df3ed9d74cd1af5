//! Values of a row where they lie.

ghost use Rattle.std.specs.Prelude.{◌≡◌, IfSome, length, map, option_map};
ghost use Rattle.std.specs.List.{slice_get};
ghost use Rattle.row_values.specs.Column.{column_of};
ghost use Rattle.row_values.specs.Row.{counted_at, front_of};
ghost use Rattle.key_map.specs.Fields.{value_in};
ghost use Rattle.key_map.specs.RowForm.{content_read, value_read, values_read};

use byteorder::{BigEndian, ByteOrder};
use row_values::{Column, Kind, split_counted};

/// The mark in front of a value.
const PRESENT: u8 = 0;

/// The mark in place of a NULL.
const ABSENT: u8 = 0xFF;

/// A value where it lies. A text is not known to be UTF-8.
#[derive(Clone, Copy)]
pub(crate) enum Field<'a> {
    Null,
    Number(i64),
    Text(&'a [u8]),
    Bytes(&'a [u8]),
}

/// The first bytes, with what follows.
#[tactic(auto, unfolding(row_values::specs::Row::front_of))]
fn split_front(bytes: &[u8], count: usize) -> Option<(&[u8], &[u8])>
    ensures parts { option_map (λ x. (x.0.now, x.1.now)) result ≡ front_of count bytes.now }
    ensures len { IfSome result (λ x. length x.0.now ≡ count) }
{
    if bytes.len() < count {
        return None;
    }
    Some(bytes.split_at(count))
}

/// A value of a type behind its mark, with what follows it.
fn split_content(kind: Kind, bytes: &[u8]) -> Option<(Field<'_>, &[u8])>
    ensures { option_map (λ x. (value_in x.0, x.1.now)) result ≡ content_read kind bytes.now }
{
    match kind {
        Kind::SmallInt => {
            let (number, rest) = split_front(bytes, 2)?;
            Some((Field::Number(i64::from(BigEndian::read_i16(number))), rest))
        }
        Kind::Integer => {
            let (number, rest) = split_front(bytes, 4)?;
            Some((Field::Number(i64::from(BigEndian::read_i32(number))), rest))
        }
        Kind::BigInt => {
            let (number, rest) = split_front(bytes, 8)?;
            Some((Field::Number(BigEndian::read_i64(number)), rest))
        }
        Kind::VarChar => {
            let (text, rest) = split_counted(bytes)?;
            Some((Field::Text(text), rest))
        }
        Kind::VarBinary => {
            let (content, rest) = split_counted(bytes)?;
            Some((Field::Bytes(content), rest))
        }
    }
}

/// A value of a type, with what follows it.
fn split_value(kind: Kind, bytes: &[u8]) -> Option<(Field<'_>, &[u8])>
    ensures { option_map (λ x. (value_in x.0, x.1.now)) result ≡ value_read kind bytes.now }
{
    let [mark, rest @ ..] = bytes else {
        return None;
    };
    match *mark {
        ABSENT => Some((Field::Null, rest)),
        PRESENT => split_content(kind, rest),
        _ => None,
    }
}

/// The value of the column at a place, counted from 0, if it can be read.
pub(crate) fn field_at<'a>(columns: &[Column], row: &'a [u8], place: usize) -> Option<Field<'a>>
    ensures { option_map value_in result ≡ slice_get (values_read (map column_of columns.now) row.now) place }
{
    let [first, others @ ..] = columns else {
        return None;
    };
    let (field, rest) = split_value(first.kind, row)?;
    if place == 0 {
        return Some(field);
    }
    field_at(others, rest, place - 1)
}

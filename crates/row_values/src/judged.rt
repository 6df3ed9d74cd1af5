//! The values of bytes that were judged: nothing is judged again.

ghost use Rattle.std.specs.Prelude.{◌≡◌, ◌<◌, IsSome, Some, length, map, option_map};
ghost use Rattle.row_values.specs.Value.{value_of};
ghost use Rattle.row_values.specs.Column.{column_of};
ghost use Rattle.row_values.specs.Row.{StandsFrom, typed_value_at, value_at, values_at};

use crate::column::{Column, Kind};
use crate::encoding::{PRESENT, split_any, split_counted};
use crate::value::Value;

/// The value in front of bytes of which it is known that one of the column stands there, with what
/// follows it.
#[inline(always)]
pub(crate) fn take_value<'a>(column: &Column, bytes: &'a [u8]) -> (Value<'a>, &'a [u8])
    requires { IsSome (value_at (column_of column.now) bytes.now) }
    ensures { Some (value_of result.0, result.1.now) ≡ value_at (column_of column.now) bytes.now }
{
    take_typed(column.kind, bytes).unwrap()
}

/// The bytes from the value of column `i` on.
#[inline(always)]
pub(crate) fn from_column<'a>(columns: &[Column], bytes: &'a [u8], i: usize) -> &'a [u8]
    requires values { IsSome (values_at (map column_of columns.now) bytes.now) }
    requires inside { i < length columns.now }
    ensures { StandsFrom (map column_of columns.now) bytes.now i result.now }
{
    let mut rest = bytes;
    for j in 0..i {
        rest = take_value(&columns[j], rest).1;
    }
    rest
}

// A value of a type, of which it is known that it stands there, with what follows.
#[inline(always)]
fn take_typed(kind: Kind, bytes: &[u8]) -> Option<(Value<'_>, &[u8])>
    requires { IsSome (typed_value_at kind bytes.now) }
    ensures { option_map (λ x. (value_of x.0, x.1.now)) result ≡ typed_value_at kind bytes.now }
{
    let [mark, content @ ..] = bytes else {
        return None;
    };
    if *mark != PRESENT {
        return split_any(kind, bytes);
    }
    match kind {
        Kind::VarChar => {
            let (text, rest) = split_counted(content)?;
            let text = unsafe { str::from_utf8_unchecked(text) };
            Some((Value::Text(text), rest))
        }
        _ => split_any(kind, bytes),
    }
}

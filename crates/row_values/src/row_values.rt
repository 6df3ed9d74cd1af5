//! The values of a row, one after another.

ghost use Rattle.std.specs.Iterator.{YieldsFirstBy, item_count};
ghost use Rattle.std.specs.Prelude.{IsSome, map};
ghost use Rattle.row_values.specs.Value.{value_of};
ghost use Rattle.row_values.specs.Column.{column_of};
ghost use Rattle.row_values.specs.Row.{values_at};

use crate::column::Column;
use crate::judged::take_value;
use crate::value::Value;

/// The values of a row, one for each column, in the order of CREATE TABLE. Texts and bytes are lent
/// from the row. Nothing of the row is judged again.
#[derive(Clone, Copy, Debug)]
pub struct RowValues<'a> {
    columns: &'a [Column],
    rest: &'a [u8],
    ghost judged: { IsSome (values_at (map column_of columns.now) rest.now) },
}

impl<'a> RowValues<'a> {
    ghost use Rattle.std.specs.Prelude.{◌≡◌};
    ghost use Rattle.row_values.specs.RowValues.{values_left};
    ghost use Rattle.row_values.specs.Row.{values_or_none};

    /// The values of bytes that have one per column.
    pub(crate) fn new(columns: &'a [Column], bytes: &'a [u8]) -> RowValues<'a>
        requires { IsSome (values_at (map column_of columns.now) bytes.now) }
        ensures { values_left result ≡ values_or_none (map column_of columns.now) bytes.now }
    {
        RowValues {
            columns,
            rest: bytes,
        }
    }
}

impl<'a> Iterator for RowValues<'a> {
    ghost use Rattle.row_values.specs.RowValues.{values_left};

    type Item = Value<'a>;

    ghost next_gives = { YieldsFirstBy value_of values_left };

    ghost remaining = { item_count values_left };

    fn next(&mut self) -> Option<Value<'a>> {
        let (column, columns) = self.columns.split_first()?;
        let (value, rest) = take_value(column, self.rest);
        self.columns = columns;
        self.rest = rest;
        Some(value)
    }
}

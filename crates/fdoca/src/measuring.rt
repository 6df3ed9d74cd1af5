//! How long a row of an answer is.

ghost use Rattle.std.specs.Prelude.{◌≡◌, ◌≤◌, List, is_some, length, map, nat_lt, true};
ghost use Rattle.std.specs.List.{list_all, slice_get};
ghost use Rattle.row_values.specs.Value.{Value};
ghost use Rattle.row_values.specs.Column.{column_of};
ghost use Rattle.row_values.specs.Schema.{picked};
ghost use Rattle.row_values.specs.Row.{all_fit, row_bytes, values_in};
ghost use Rattle.row_values.specs.RowView.{row_in, schema_in};
ghost use Rattle.fdoca.specs.Writing.{answer_row};

use crate::writing::{from_place, sent_of, split_value};
use row_values::{Column, RowRef};

/// How many bytes `write_row` appends for a row: its columns are walked once, where the places rise.
pub fn row_length(row: &RowRef<'_>, places: &[u8]) -> usize
    requires few { length places.now ≤ 84 }
    requires within { list_all (λ place. is_some (slice_get (schema_in row.now).columns place)) places.now ≡ true }
    ensures { result ≡ length (answer_row (picked (schema_in row.now).columns places.now) (picked (values_in (schema_in row.now) (row_in row.now)) places.now)) }
{
    let columns = row.schema().columns();
    sent_length(columns, row.bytes(), places)
}

fn sent_length(columns: &[Column], row: &[u8], places: &[u8]) -> usize
    requires few { length places.now ≤ 84 }
    requires short { length row.now ≤ 4000 }
    requires within { list_all (λ place. nat_lt place (length columns.now)) places.now ≡ true }
    ensures { (values : List Value) → all_fit (map column_of columns.now) values ≡ true → row.now ≡ row_bytes (map column_of columns.now) values → result ≡ length (answer_row (picked (map column_of columns.now) places.now) (picked values places.now)) }
{
    let mut length = 2;
    let mut next = 0;
    let mut rest = row;
    for i in 0..places.len() {
        let place = usize::from(places[i]);
        let column = &columns[place];
        let (value, behind) = split_value(column, from_place(columns, row, next, rest, place));
        length += sent_of(column, value).len();
        next = place + 1;
        rest = behind;
    }
    length
}

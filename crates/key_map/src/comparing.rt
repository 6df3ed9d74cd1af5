//! A form beside the form of a row.

ghost use Rattle.std.specs.Prelude.{◌≡◌, map};
ghost use Rattle.std.specs.List.{slice_get};
ghost use Rattle.row_values.specs.Column.{column_of};
ghost use Rattle.key_map.specs.Slots.{by_bytes};
ghost use Rattle.key_map.specs.Fronts.{Compares, form_if};
ghost use Rattle.key_map.specs.RowForm.{row_form, values_read};

use crate::field::field_at;
use crate::front::{Front, value};
use row_values::{Column, Schema};
use std::cmp::Ordering;

/// Beside the value of the column at a place, where it can be read.
fn column<'f>(form: &'f [u8], columns: &[Column], row: &[u8], place: usize) -> Front<'f>
    ensures { Compares form.now (form_if (slice_get (values_read (map column_of columns.now) row.now) place)) result }
{
    match field_at(columns, row, place) {
        Some(field) => value(form, field),
        None => Front::Same(form),
    }
}

/// Beside the values of all key columns.
fn key<'f>(schema: &Schema, form: &'f [u8], row: &[u8]) -> Front<'f>
    ensures { Compares form.now (row_form schema.now row.now) result }
{
    let columns = schema.columns();
    let mut rest = form;
    for place in schema.key() {
        match column(rest, columns, row, usize::from(*place)) {
            Front::Same(after) => rest = after,
            Front::Before => return Front::Before,
            Front::Behind => return Front::Behind,
        }
    }
    Front::Same(rest)
}

/// How a form stands to that of a row of the schema, byte by byte. Only the columns up to the last
/// of the key are read, where they lie, and none is judged. Takes no memory.
pub fn compare(schema: &Schema, form: &[u8], row: &[u8]) -> Ordering
    ensures { result ≡ by_bytes form.now (row_form schema.now row.now) }
{
    match key(schema, form, row) {
        Front::Before => Ordering::Less,
        Front::Behind => Ordering::Greater,
        Front::Same([]) => Ordering::Equal,
        Front::Same(_) => Ordering::Greater,
    }
}

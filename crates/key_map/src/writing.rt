//! The form of a row, written out.

ghost use Rattle.std.specs.Prelude.{◌≡◌, ◌++◌, IfOk, OnOk, map};
ghost use Rattle.std.specs.List.{slice_get};
ghost use Rattle.row_values.specs.Column.{column_of};
ghost use Rattle.key_map.specs.SortForm.{value_form};
ghost use Rattle.key_map.specs.Fields.{value_in};
ghost use Rattle.key_map.specs.Fronts.{form_if};
ghost use Rattle.key_map.specs.RowForm.{row_form, values_read};

use crate::field::{Field, field_at};
use crate::form::{counted_up, put_text};
use crate::front::class;
use row_values::{Column, Schema};
use std::alloc::{AllocError, Global};

/// Room for a form of one number, or of a short text and a number.
const USUAL_BYTES: usize = 40;

fn put_field(form: &mut Vec<u8>, field: Field<'_>) -> Result<(), AllocError>
    ensures { OnOk result (form.new.items ≡ form.old.items ++ value_form (value_in field.entry)) }
{
    form.push(class(field))?;
    match field {
        Field::Null => Ok(()),
        Field::Number(number) => form.extend_from_slice(&counted_up(number).to_be_bytes()),
        Field::Text(content) => put_text(form, content),
        Field::Bytes(content) => put_text(form, content),
    }
}

fn put_column(
    form: &mut Vec<u8>,
    columns: &[Column],
    row: &[u8],
    place: usize,
) -> Result<(), AllocError>
    ensures { OnOk result (form.new.items ≡ form.old.items ++ form_if (slice_get (values_read (map column_of columns.now) row.now) place)) }
{
    match field_at(columns, row, place) {
        Some(field) => put_field(form, field),
        None => Ok(()),
    }
}

/// Writes the form of a row of the schema behind what a list has: that of its key, where the bytes are
/// a row. Where memory is refused, some of it may stand there.
pub fn put_row_form(form: &mut Vec<u8>, schema: &Schema, row: &[u8]) -> Result<(), AllocError>
    ensures { OnOk result (form.new.items ≡ form.old.items ++ row_form schema.now row.now) }
{
    let columns = schema.columns();
    for place in schema.key() {
        put_column(form, columns, row, usize::from(*place))?;
    }
    Ok(())
}

/// The form of a row of the schema, in new memory, as `put_row_form` writes it.
pub fn row_form(alloc: Global, schema: &Schema, row: &[u8]) -> Result<Vec<u8>, AllocError>
    ensures { IfOk result (λ form. form.items ≡ row_form schema.now row.now) }
{
    let mut form = Vec::with_capacity(alloc, USUAL_BYTES)?;
    put_row_form(&mut form, schema, row)?;
    Ok(form)
}

//! The statements that make a table and its rows.

ghost use Rattle.std.specs.Prelude.{◌≡◌, ◌++◌, ◌∷◌, OnOk, map};
ghost use Rattle.std.specs.List.{flat_map};
ghost use Rattle.row_values.specs.Column.{column_of};
ghost use Rattle.row_values.specs.Row.{values_in};
ghost use Rattle.row_values.specs.RowValues.{values_left};
ghost use Rattle.row_values.specs.RowView.{row_in, schema_in};
ghost use Rattle.row_values.specs.Schema.{key_columns};
ghost use Rattle.sql_spelling.specs.Text.{column_text, create_text, insert_text, separated, value_text};

use crate::column::put_column;
use crate::value::put_value;
use row_values::{Column, RowRef, RowValues, Schema};
use std::alloc::AllocError;

/// What stands between the items of a list.
const BETWEEN: &[u8] = b", ";

/// Appends the columns of a table.
fn put_columns(out: &mut Vec<u8>, columns: &[Column]) -> Result<(), AllocError>
    ensures { OnOk result (out.new.items ≡ out.old.items ++ separated column_text (map column_of columns.now)) }
{
    let [first, rest @ ..] = columns else {
        return Ok(());
    };
    put_column(out, first)?;
    put_further_columns(out, rest)
}

/// Appends further columns, each behind a comma.
fn put_further_columns(out: &mut Vec<u8>, mut columns: &[Column]) -> Result<(), AllocError>
    ensures { OnOk result (out.new.items ≡ out.old.items ++ flat_map (λ c. 44 ∷ 32 ∷ column_text c) (map column_of columns.entry.now)) }
{
    while let [column, rest @ ..] = columns {
        out.extend_from_slice(BETWEEN)?;
        put_column(out, column)?;
        columns = rest;
    }
    Ok(())
}

/// Appends the names of the key's columns.
fn put_key(out: &mut Vec<u8>, schema: &Schema) -> Result<(), AllocError>
    ensures { OnOk result (out.new.items ≡ out.old.items ++ separated (λ c. c.name) (key_columns schema.now)) }
{
    let count = schema.key().len();
    out.extend_from_slice(schema.key_column(0).name.as_bytes())?;
    for i in 1..count {
        out.extend_from_slice(BETWEEN)?;
        out.extend_from_slice(schema.key_column(i).name.as_bytes())?;
    }
    Ok(())
}

/// Appends the CREATE TABLE that makes a table, or some of it where memory is wanting.
#[tactic(auto, unfolding(crate::specs::Text::create_text))]
pub fn put_create(out: &mut Vec<u8>, name: &str, schema: &Schema) -> Result<(), AllocError>
    ensures { OnOk result (out.new.items ≡ out.old.items ++ create_text name.now schema.now) }
{
    out.extend_from_slice(b"CREATE TABLE ")?;
    out.extend_from_slice(name.as_bytes())?;
    out.extend_from_slice(b" (")?;
    put_columns(out, schema.columns())?;
    out.extend_from_slice(b", PRIMARY KEY (")?;
    put_key(out, schema)?;
    out.extend_from_slice(b"))")?;
    Ok(())
}

/// Appends the values of a row.
fn put_values(out: &mut Vec<u8>, mut values: RowValues<'_>) -> Result<(), AllocError>
    ensures { OnOk result (out.new.items ≡ out.old.items ++ separated value_text (values_left values.entry)) }
{
    let Some(first) = values.next() else {
        return Ok(());
    };
    put_value(out, &first)?;
    for value in values {
        out.extend_from_slice(BETWEEN)?;
        put_value(out, &value)?;
    }
    Ok(())
}

/// Appends the INSERT of a row, or some of it where memory is wanting.
#[tactic(auto, unfolding(crate::specs::Text::insert_text))]
pub fn put_insert(out: &mut Vec<u8>, name: &str, row: &RowRef<'_>) -> Result<(), AllocError>
    ensures { OnOk result (out.new.items ≡ out.old.items ++ insert_text name.now (values_in (schema_in row.now) (row_in row.now))) }
{
    out.extend_from_slice(b"INSERT INTO ")?;
    out.extend_from_slice(name.as_bytes())?;
    out.extend_from_slice(b" VALUES (")?;
    put_values(out, row.values())?;
    out.extend_from_slice(b")")?;
    Ok(())
}

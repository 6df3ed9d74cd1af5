//! What names stand for.

ghost use Rattle.std.specs.Prelude.{◌≡◌, IfOk, map};
ghost use Rattle.std.specs.List.{position};
ghost use Rattle.std.specs.String.{string_bytes};
ghost use Rattle.row_values.specs.Column.{column_of};
ghost use Rattle.sql_text.specs.Checks.{same_name};
ghost use Rattle.sql_semantics.specs.Values.{column_place, name_of};

use row_values::Column;
use std::alloc::{AllocError, Global};

/// The most bytes of a table's name.
const MAX_TABLE_NAME_BYTES: usize = 255;

/// The place of the column of this name, in whatever case it is spelled.
pub fn column_place(columns: &[Column], name: &[u8]) -> Option<usize>
    ensures { result ≡ column_place (map column_of columns.now) name.now }
{
    first_named(columns, name)
}

fn first_named(columns: &[Column], name: &[u8]) -> Option<usize>
    ensures { result ≡ position (λ column. same_name (column_of column).name name.now) columns.now }
{
    columns.iter().position(|column| is_named(column, name))
}

fn is_named(column: &Column, name: &[u8]) -> bool
    ensures { result ≡ same_name (column_of column.now).name name.now }
{
    column.name.as_bytes().eq_ignore_ascii_case(name)
}

/// A name in capitals. What is no UTF-8, or longer than 255 bytes, stands in no parsed text, and
/// gives the empty name, which no table has.
#[tactic(auto, unfolding(sql_semantics::specs::Values::name_of))]
pub fn table_name(alloc: Global, name: &[u8]) -> Result<String, AllocError>
    ensures { IfOk result (λ table. string_bytes table ≡ name_of name.now) }
{
    let capitals = name.to_ascii_uppercase(alloc)?;
    if capitals.len() > MAX_TABLE_NAME_BYTES {
        return Ok(String::new(alloc));
    }
    match String::from_utf8(capitals) {
        Ok(table) => Ok(table),
        Err(_error) => Ok(String::new(alloc)),
    }
}

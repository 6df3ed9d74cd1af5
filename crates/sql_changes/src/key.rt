//! The key that an INSERT claims.

ghost use Rattle.std.specs.Prelude.{◌≡◌, ◌≤◌, IfOk, IfSome, length, map, option_map};
ghost use Rattle.row_values.specs.Value.{value_of};
ghost use Rattle.sql_semantics.specs.Insert as insert;
ghost use Rattle.sql_semantics.specs.Values.{literal_value};

use crate::given::GivenRow;
use core_calls::StatementError;
use row_values::{Schema, Value};
use sql_text::{Columns, Literal};
use std::alloc::{AllocError, Global};

/// The key of the row that an INSERT gives, where its names and the number of its values pass, and
/// the values of the key's columns fit them. It has at most 8,012 bytes.
#[tactic(auto, unfolding(sql_semantics::specs::Insert::given_key))]
pub fn given_key(
    alloc: Global,
    schema: &Schema,
    columns: &Columns<'_>,
    values: &[Literal<'_>],
    params: &[Value<'_>],
) -> Result<Option<Vec<u8>>, AllocError>
    ensures key { IfOk result (λ key. option_map (λ k. k.items) key ≡ insert.given_key schema.now columns.now (map (literal_value (map value_of params.now)) values.now)) }
    ensures short { IfOk result (λ key. IfSome key (λ k. length k.items ≤ 8012)) }
{
    match GivenRow::bind(alloc, schema, columns, values, params) {
        Ok(row) => row.key(alloc, schema),
        Err(StatementError::Fault(_fault)) => Ok(None),
        Err(StatementError::NoMemory) => Err(AllocError),
    }
}

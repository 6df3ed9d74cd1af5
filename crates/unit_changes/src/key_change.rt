//! What a change says of a key.

ghost use Rattle.std.specs.Prelude.{◌≡◌, ◌∷◌, [], IfOk, OnOk, map, true};
ghost use Rattle.std.specs.List.{AllByRecursion, flat_map};
ghost use Rattle.row_values.specs.Schema.{is_schema};
ghost use Rattle.tables.specs.ChangeView.{change_of};
ghost use Rattle.tables.specs.Change.{put as put_change, remove as remove_change};
ghost use Rattle.unit_changes.specs.KeyChanges.{said_in, step_of};
ghost use Rattle.unit_changes.specs.UnitTable.{SaysKeys, said_by};

use crate::bytes::see_bytes;
use key_map::{row_form, sort_form};
use row_values::{RowRef, Schema, is_key};
use std::alloc::{AllocError, Global};
use tables::{Action, Change};

/// What a change says of a key.
#[derive(Debug, Drop)]
pub(crate) struct KeyChange {
    /// The key's sort form.
    pub form: Vec<u8>,
    /// The row that is put there; no bytes, where the row there is removed.
    pub row: Vec<u8>,
}

/// What the changes say of keys, in their order. Neither the creation of a table says anything, nor
/// bytes that are no row or no key of the schema.
pub(crate) fn key_changes(
    alloc: Global,
    schema: &Schema,
    changes: &[Change],
) -> Result<Vec<KeyChange>, AllocError>
    ensures said { IfOk result (λ steps. map step_of steps.items ≡ flat_map (said_by schema.now) (map change_of changes.now)) }
    ensures bytes { OnOk result (AllByRecursion (SaysKeys schema.now) (map change_of changes.now)) }
{
    let mut steps = Vec::new(alloc);
    let mut left = changes;
    while let [change, rest @ ..] = left {
        if let Some(step) = key_change(alloc, schema, change)? {
            steps.push(step)?;
        }
        left = rest;
    }
    Ok(steps)
}

/// What the change says of a key, if it says anything.
pub(crate) fn key_change(
    alloc: Global,
    schema: &Schema,
    change: &Change,
) -> Result<Option<KeyChange>, AllocError>
    ensures said { IfOk result (λ step. said_in step ≡ said_by schema.now (change_of change.now)) }
    ensures bytes { OnOk result (SaysKeys schema.now (change_of change.now)) }
{
    match &change.action {
        Action::CreateTable { .. } => Ok(None),
        Action::Put { table, row } => put_of(alloc, schema, table.as_str(), row.as_slice()),
        Action::Remove { table, key } => remove_of(alloc, schema, table.as_str(), key.as_slice()),
    }
}

fn put_of(
    alloc: Global,
    schema: &Schema,
    table: &str,
    row: &[u8],
) -> Result<Option<KeyChange>, AllocError>
    ensures said { IfOk result (λ step. said_in step ≡ said_by schema.now (put_change table.now row.now)) }
    ensures bytes { OnOk result (SaysKeys schema.now (put_change table.now row.now)) }
{
    let _columns = schema.columns();
    key_map::laws::rows_have_their_forms();
    row_values::laws::rows_have_values_and_keys();
    let Ok(_parsed) = RowRef::parse(schema, row) else {
        return Ok(None);
    };
    let form = row_form(alloc, schema, row)?;
    let row = Vec::from_slice(alloc, row)?;
    Ok(Some(KeyChange { form, row }))
}

fn remove_of(
    alloc: Global,
    schema: &Schema,
    table: &str,
    key: &[u8],
) -> Result<Option<KeyChange>, AllocError>
    ensures said { IfOk result (λ step. said_in step ≡ said_by schema.now (remove_change table.now key.now)) }
    ensures bytes { OnOk result (SaysKeys schema.now (remove_change table.now key.now)) }
{
    see_bytes(key);
    if !is_key(schema, key) {
        return Ok(None);
    }
    let form = sort_form(alloc, schema, key)?;
    let row = Vec::new(alloc);
    Ok(Some(KeyChange { form, row }))
}

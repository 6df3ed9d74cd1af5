//! All rows of a table behind a unit's changes.

ghost use Rattle.std.specs.Prelude.{◌≡◌, ◌++◌, IfOk, List, OnOk, map, ℕ};
ghost use Rattle.std.specs.Map.{values_of};
ghost use Rattle.row_values.specs.Key.{row_key};
ghost use Rattle.key_map.specs.SortForm.{sort_form};
ghost use Rattle.key_map.specs.Merging.{InOrder, keyed};
ghost use Rattle.key_map.specs.Overlay.{changes_of, said};
ghost use Rattle.unit_changes.specs.UnitTable.{IsKey};
ghost use Rattle.unit_changes.specs.TableRows.{HaveRowKeys, by_forms, formed_of, in_turn, rows_before, rows_from, without_first};

use crate::bytes::see_bytes;
use key_map::{Overlay, sort_form};
use row_values::{RowRef, Schema};
use std::alloc::{AllocError, Global};
use tables::Rows;

/// A row with the sort form of its key.
#[derive(Debug, Drop)]
pub(crate) struct FormedRow {
    pub form: Vec<u8>,
    pub row: Vec<u8>,
}

/// The rows with the sort forms of their keys. Bytes that are no row of the schema are refused.
pub(crate) fn formed_rows(
    alloc: Global,
    schema: &Schema,
    rows: &Rows,
) -> Result<Vec<FormedRow>, AllocError>
    ensures forms { IfOk result (λ formed. map formed_of formed.items ≡ by_forms schema.now rows.now) }
    ensures keys { OnOk result (HaveRowKeys schema.now rows.now) }
{
    let mut formed = Vec::new(alloc);
    for i in 0..rows.len() {
        formed.push(formed_row(alloc, schema, rows.row(i))?)?;
    }
    Ok(formed)
}

fn formed_row(alloc: Global, schema: &Schema, row: &[u8]) -> Result<FormedRow, AllocError>
    ensures form { IfOk result (λ formed. formed_of formed ≡ (sort_form schema.now (row_key schema.now row.now), row.now)) }
    ensures key { OnOk result (IsKey schema.now (row_key schema.now row.now)) }
{
    let Ok(parsed) = RowRef::parse(schema, row) else {
        return Err(AllocError);
    };
    let key = parsed.key(alloc)?;
    see_bytes(key.as_slice());
    let form = sort_form(alloc, schema, key.as_slice())?;
    let row = Vec::from_slice(alloc, row)?;
    Ok(FormedRow { form, row })
}

/// The rows with each change in its place, both in the order of their keys.
pub(crate) fn merged_rows(
    alloc: Global,
    rows: &[FormedRow],
    changes: &Overlay,
) -> Result<Rows, AllocError>
    ensures rows { IfOk result (λ all. all ≡ values_of (in_turn (map formed_of rows.now) (changes_of changes.now))) }
    ensures order { OnOk result (InOrder (changes_of changes.now)) }
{
    let mut all = Rows::new(alloc);
    let mut left = rows;
    for (form, row) in changes.entries() {
        left = without_row(push_before(&mut all, left, form)?, form);
        push_put(&mut all, row)?;
    }
    push_all(&mut all, left)?;
    Ok(all)
}

// Pushes the rows before a key; the answer is those from it on.
fn push_before<'a>(
    all: &mut Rows,
    rows: &'a [FormedRow],
    form: &[u8],
) -> Result<&'a [FormedRow], AllocError>
    ensures left { IfOk result (λ left. map formed_of left.now ≡ rows_from form.now (map formed_of rows.now)) }
    ensures pushed { OnOk result (all.new ≡ all.old ++ values_of (rows_before form.now (map formed_of rows.now))) }
{
    let mut left = rows;
    while let [first, rest @ ..] = left {
        if !form.cmp(first.form.as_slice()).is_gt() {
            return Ok(left);
        }
        all.push(first.row.as_slice())?;
        left = rest;
    }
    Ok(left)
}

// The rows without the first, where that is the one of this key.
fn without_row<'a>(rows: &'a [FormedRow], form: &[u8]) -> &'a [FormedRow]
    ensures { map formed_of result.now ≡ without_first form.now (map formed_of rows.now) }
{
    match rows {
        [first, rest @ ..] if form.cmp(first.form.as_slice()).is_eq() => rest,
        _ => rows,
    }
}

// Pushes the row that was put; of a row that was taken out there are no bytes.
fn push_put(all: &mut Rows, row: &[u8]) -> Result<(), AllocError>
    ensures { OnOk result ((form : List ℕ) → all.new ≡ all.old ++ values_of (keyed form (said row.now))) }
{
    match row {
        [] => Ok(()),
        row => all.push(row),
    }
}

fn push_all(all: &mut Rows, rows: &[FormedRow]) -> Result<(), AllocError>
    ensures { OnOk result (all.new ≡ all.old ++ values_of (map formed_of rows.now)) }
{
    let mut left = rows;
    while let [first, rest @ ..] = left {
        all.push(first.row.as_slice())?;
        left = rest;
    }
    Ok(())
}

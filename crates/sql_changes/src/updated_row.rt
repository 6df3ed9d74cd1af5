//! The values of rows with what is assigned.

ghost use Rattle.std.specs.Prelude.{◌≡◌, IfOk, map, slice_set};
ghost use Rattle.std.specs.List.{slice_get};
ghost use Rattle.drda_words.specs.Excuse.{Answers};
ghost use Rattle.row_values.specs.Column.{column_of};
ghost use Rattle.row_values.specs.Row.{values_in};
ghost use Rattle.row_values.specs.RowView.{row_in, schema_in};
ghost use Rattle.row_values.specs.Value.{value_of};
ghost use Rattle.sql_semantics.specs.Update as update;
ghost use Rattle.core_calls.specs.StatementError.{fault_of};
ghost use Rattle.sql_changes.specs.Assigned.{all_set, assigned};

use crate::row::misfit_fault;
use crate::target::Target;
use crate::total::total;
use core_calls::{SqlFault, StatementError};
use row_values::{Column, RowRef, Value};
use std::alloc::{AllocError, Global};

// The values of a row.
fn row_values<'a>(alloc: Global, row: RowRef<'a>) -> Result<Vec<Value<'a>>, AllocError>
    ensures { IfOk result (λ values. map value_of values.items ≡ values_in (schema_in row.entry) (row_in row.entry)) }
{
    let mut values = Vec::with_capacity(alloc, row.schema().columns().len())?;
    let mut left = row.values();
    'values: while let Some(value) = left.next() {
        values.push(value)?;
    }
    Ok(values)
}

// Why a value does not fit the column of this place.
fn place_fault(columns: &[Column], place: usize, value: &Value<'_>) -> Option<SqlFault>
    ensures { result ≡ update.place_fault (slice_get (map column_of columns.now) place) (value_of value.now) }
{
    let Some(column) = columns.get(place) else {
        return Some(SqlFault::ColumnUnknown);
    };
    match column.admit(value) {
        Ok(()) => None,
        Err(misfit) => Some(misfit_fault(misfit)),
    }
}

// The value that is assigned to a column in a row.
fn assigned<'a>(row: RowRef<'a>, target: &'a Target) -> Result<Value<'a>, StatementError>
    ensures { Answers value_of fault_of result (assigned (values_in (schema_in row.entry) (row_in row.entry)) (schema_in row.entry).columns target.now) }
{
    let value = total(row, &target.sum)?;
    match place_fault(row.schema().columns(), target.place, &value) {
        None => Ok(value),
        Some(fault) => Err(StatementError::Fault(fault)),
    }
}

// The value in this place, where there is one.
fn set<'a>(values: &mut Vec<Value<'a>>, place: usize, value: Value<'a>)
    ensures { map value_of values.new.items ≡ slice_set (map value_of values.old.items) place (value_of value.entry) }
{
    if place < values.len() {
        values[place] = value;
    }
}

/// The values of a row with what is assigned, from left to right. Each sum reads the row as it was.
pub(crate) fn all_set<'a>(
    alloc: Global,
    row: RowRef<'a>,
    targets: &'a [Target],
) -> Result<Vec<Value<'a>>, StatementError>
    ensures { Answers (λ values. map value_of values.items) fault_of result (all_set (values_in (schema_in row.entry) (row_in row.entry)) (schema_in row.entry).columns targets.now (values_in (schema_in row.entry) (row_in row.entry))) }
{
    let mut values = row_values(alloc, row)?;
    let mut left = targets;
    'targets: while let [target, rest @ ..] = left {
        let value = assigned(row, target)?;
        set(&mut values, target.place, value);
        left = rest;
    }
    Ok(values)
}

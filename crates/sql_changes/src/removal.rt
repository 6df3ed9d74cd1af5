//! The rows that a DELETE removes.

ghost use Rattle.std.specs.Prelude.{◌≡◌, IfOk, length, map, true};
ghost use Rattle.drda_words.specs.Excuse.{Answers};
ghost use Rattle.row_values.specs.Key.{row_key};
ghost use Rattle.row_values.specs.RowView.{row_in, schema_in};
ghost use Rattle.row_values.specs.Schema.{is_name};
ghost use Rattle.tables.specs.Change.{remove as remove_change};
ghost use Rattle.tables.specs.ChangeView.{change_of};
ghost use Rattle.sql_semantics.specs.Meaning.{Changes, within_room};
ghost use Rattle.core_calls.specs.StatementError.{fault_of};

use crate::room::have_room;
use core_calls::{SqlFault, StatementError};
use row_values::RowRef;
use std::alloc::{AllocError, Global};
use tables::{Change, RowList};

/// The changes that remove these rows of the table of this name, which is in capitals, in their
/// order. A limit is reached where they have more bytes than are left.
pub fn delete(
    alloc: Global,
    table: &str,
    rows: &RowList,
    left: usize,
) -> Result<Vec<Change>, StatementError>
    requires { is_name table.now ≡ true }
    ensures { Answers (λ changes. Changes (map change_of changes.items) (length rows.now.rows)) fault_of result (within_room left (map (λ row. remove_change table.now (row_key rows.now.schema row)) rows.now.rows) (length rows.now.rows)) }
{
    let changes = removals(alloc, table, rows)?;
    if !have_room(changes.as_slice(), left) {
        return Err(StatementError::Fault(SqlFault::LimitReached));
    }
    Ok(changes)
}

fn removals(alloc: Global, table: &str, rows: &RowList) -> Result<Vec<Change>, AllocError>
    requires { is_name table.now ≡ true }
    ensures { IfOk result (λ changes. map change_of changes.items ≡ map (λ row. remove_change table.now (row_key rows.now.schema row)) rows.now.rows) }
{
    let mut changes = Vec::with_capacity(alloc, rows.len())?;
    for i in 0..rows.len() {
        let change = removal(alloc, table, rows.row(i))?;
        changes.push(change)?;
    }
    Ok(changes)
}

fn removal(alloc: Global, table: &str, row: RowRef<'_>) -> Result<Change, AllocError>
    requires { is_name table.now ≡ true }
    ensures { IfOk result (λ change. change_of change ≡ remove_change table.now (row_key (schema_in row.entry) (row_in row.entry))) }
{
    let key = row.key(alloc)?;
    Ok(Change::remove(String::from_str(alloc, table)?, key))
}

//! The rows that an UPDATE puts.

ghost use Rattle.std.specs.Prelude.{◌≡◌, List, Ok, ℕ, length, map, true};
ghost use Rattle.drda_words.specs.Excuse.{Answers};
ghost use Rattle.row_values.specs.RowView.{row_in, schema_in};
ghost use Rattle.row_values.specs.Schema.{is_name};
ghost use Rattle.row_values.specs.Value.{Value as SqlValue};
ghost use Rattle.sql_text.specs.declared.tree.Sum.{Sum as SqlSum};
ghost use Rattle.tables.specs.Change.{put as put_change};
ghost use Rattle.tables.specs.ChangeView.{change_of};
ghost use Rattle.sql_semantics.specs.Checked.{and_then};
ghost use Rattle.sql_semantics.specs.Meaning.{Changes, within_room};
ghost use Rattle.sql_semantics.specs.Update.{updated_row, updated_rows};
ghost use Rattle.core_calls.specs.StatementError.{fault_of};
ghost use Rattle.sql_changes.specs.Assigned.{StandFor};

use crate::room::have_room;
use crate::row::new_row;
use crate::target::Targets;
use crate::updated_row::all_set;
use core_calls::{SqlFault, StatementError};
use row_values::RowRef;
use std::alloc::Global;
use tables::{Change, RowList};

/// The changes that put these rows of the table of this name, which is in capitals, with what is
/// assigned, in their order. A sum reads its row as it was before the statement. They are refused,
/// row by row and in each from left to right, where a partial sum leaves BIGINT, where a value does
/// not fit its column, and where a row has more than 4,000 bytes; and then where the changes have
/// more bytes than are left.
pub fn updates(
    alloc: Global,
    table: &str,
    rows: &RowList,
    targets: &Targets,
    left: usize,
) -> Result<Vec<Change>, StatementError>
    requires { is_name table.now ≡ true }
    ensures { (params : List SqlValue) (ts : List (ℕ × SqlSum)) → StandFor params rows.now.schema.columns targets.now ts → Answers (λ changes. Changes (map change_of changes.items) (length rows.now.rows)) fault_of result (and_then (updated_rows params table.now rows.now.schema ts rows.now.rows) (λ changes. within_room left changes (length rows.now.rows))) }
{
    let changes = puts(alloc, table, rows, targets)?;
    if !have_room(changes.as_slice(), left) {
        return Err(StatementError::Fault(SqlFault::LimitReached));
    }
    Ok(changes)
}

fn puts(
    alloc: Global,
    table: &str,
    rows: &RowList,
    targets: &Targets,
) -> Result<Vec<Change>, StatementError>
    requires { is_name table.now ≡ true }
    ensures { (params : List SqlValue) (ts : List (ℕ × SqlSum)) → StandFor params rows.now.schema.columns targets.now ts → Answers (λ changes. map change_of changes.items) fault_of result (updated_rows params table.now rows.now.schema ts rows.now.rows) }
{
    let mut changes = Vec::with_capacity(alloc, rows.len())?;
    for i in 0..rows.len() {
        let change = put(alloc, table, rows.row(i), targets)?;
        changes.push(change)?;
    }
    Ok(changes)
}

fn put(
    alloc: Global,
    table: &str,
    row: RowRef<'_>,
    targets: &Targets,
) -> Result<Change, StatementError>
    requires { is_name table.now ≡ true }
    ensures { (params : List SqlValue) (ts : List (ℕ × SqlSum)) → StandFor params (schema_in row.entry).columns targets.now ts → Answers change_of fault_of result (and_then (updated_row params (schema_in row.entry) ts (row_in row.entry)) (λ bytes. Ok (put_change table.now bytes))) }
{
    let values = all_set(alloc, row, targets.targets.as_slice())?;
    let bytes = new_row(alloc, row.schema(), values.as_slice())?;
    Ok(Change::put(String::from_str(alloc, table)?, bytes))
}

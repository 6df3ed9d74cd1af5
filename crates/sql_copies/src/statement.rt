//! Copies of statements.

ghost use Rattle.std.specs.Prelude.{◌≡◌, IfOk};

use crate::columns::{copy_assignments, copy_columns, copy_definitions, copy_key};
use crate::predicate::copy_filter;
use crate::value::copy_values;
use sql_text::{Command, Statement};
use std::alloc::{AllocError, Global};

fn copy_command<'c>(alloc: Global, command: &Command<'_>) -> Result<Command<'c>, AllocError>
    ensures { IfOk result (λ copy. copy ≡ command.now) }
{
    match command {
        Command::Create {
            table,
            columns,
            key,
        } => Ok(Command::Create {
            table: table.copy(alloc)?,
            columns: copy_definitions(alloc, columns.as_slice())?,
            key: copy_key(alloc, key.as_slice())?,
        }),
        Command::Insert {
            table,
            columns,
            values,
        } => Ok(Command::Insert {
            table: table.copy(alloc)?,
            columns: copy_columns(alloc, columns)?,
            values: copy_values(alloc, values.as_slice())?,
        }),
        Command::Update {
            table,
            assignments,
            filter,
        } => Ok(Command::Update {
            table: table.copy(alloc)?,
            assignments: copy_assignments(alloc, assignments.as_slice())?,
            filter: copy_filter(alloc, filter)?,
        }),
        Command::Delete { table, filter } => Ok(Command::Delete {
            table: table.copy(alloc)?,
            filter: copy_filter(alloc, filter)?,
        }),
        Command::Select {
            columns,
            table,
            filter,
        } => Ok(Command::Select {
            columns: copy_columns(alloc, columns)?,
            table: table.copy(alloc)?,
            filter: copy_filter(alloc, filter)?,
        }),
    }
}

/// The same statement, with its names and literals in memory of its own, so that it outlives the text
/// that it was read from. The one refusal is want of memory.
pub fn copy_statement<'c>(
    alloc: Global,
    statement: &Statement<'_>,
) -> Result<Statement<'c>, AllocError>
    ensures { IfOk result (λ copy. copy ≡ statement.now) }
{
    Ok(Statement {
        command: copy_command(alloc, &statement.command)?,
        markers: statement.markers,
    })
}

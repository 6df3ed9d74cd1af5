//! What statements make: their changes, or the fault that they are refused with.

use crate::found::{tell_counted, tell_fixed, tell_places};
use crate::told::{tell_made, tell_value};
use core_calls::{SqlFault, StatementError};
use row_values::{Schema, Value};
use sql_changes::{Targets, create, delete, given_key, insert, updates};
use sql_predicates::{Constant, table_name};
use sql_text::{
    Assignment, Columns, Command, Definition, KeyColumn, Literal, Predicate, SqlError, Statement,
    parse,
};
use std::alloc::Global;
use tables::{Change, RowList};
use test_rows::{say, tell};

/// The changes of a statement, or its fault.
pub type Made = Result<Vec<Change>, SqlFault>;

/// What is asked of a statement.
#[derive(Clone, Copy)]
pub enum Task<'a> {
    /// What an INSERT into `T` makes whose key is free or not, where so many bytes are left.
    Insert {
        schema: &'a Schema,
        is_free: bool,
        left: usize,
    },
    /// The key that an INSERT claims.
    Claims {
        schema: &'a Schema,
    },
    /// The value of the only literal of an INSERT.
    Literal,
    /// What a CREATE TABLE makes where there are so many tables, and so many bytes are left.
    Create {
        tables: usize,
        left: usize,
    },
    /// What an UPDATE of these rows of `T` makes where so many bytes are left.
    Update {
        rows: &'a RowList,
        left: usize,
    },
    /// Which of these rows the WHERE of a DELETE matches.
    Counted {
        rows: &'a RowList,
    },
    /// The key that the WHERE of a DELETE fixes.
    Fixed {
        schema: &'a Schema,
    },
    /// The columns that a SELECT asks for.
    Selected {
        schema: &'a Schema,
    },
}

fn one(alloc: Global, answer: Result<Change, StatementError>) -> Option<Made> {
    match answer {
        Ok(change) => {
            let mut changes = Vec::new(alloc);
            changes.push(change).ok()?;
            Some(Ok(changes))
        }
        Err(StatementError::Fault(fault)) => Some(Err(fault)),
        Err(StatementError::NoMemory) => None,
    }
}

fn many(answer: Result<Vec<Change>, StatementError>) -> Option<Made> {
    match answer {
        Ok(changes) => Some(Ok(changes)),
        Err(StatementError::Fault(fault)) => Some(Err(fault)),
        Err(StatementError::NoMemory) => None,
    }
}

fn tell_key(
    alloc: Global,
    schema: &Schema,
    columns: &Columns<'_>,
    values: &[Literal<'_>],
    out: &mut Vec<u8>,
) -> Option<()> {
    match given_key(alloc, schema, columns, values, &[]).ok()? {
        Some(key) => tell(alloc, out, "key", &key),
        None => say(out, "no key"),
    }
}

fn tell_literal(
    alloc: Global,
    values: &[Literal<'_>],
    params: &[Value<'_>],
    out: &mut Vec<u8>,
) -> Option<()> {
    let [literal] = values else {
        return None;
    };
    let constant = Constant::of_literal(alloc, literal, params).ok()?;
    tell_value(alloc, constant.value(), out)
}

fn tell_insert(
    alloc: Global,
    (columns, values): (&Columns<'_>, &[Literal<'_>]),
    params: &[Value<'_>],
    task: &Task<'_>,
    out: &mut Vec<u8>,
) -> Option<()> {
    match task {
        Task::Insert {
            schema,
            is_free,
            left,
        } => {
            let answer = insert(alloc, "T", schema, columns, values, params, *is_free, *left);
            tell_made(alloc, &one(alloc, answer)?, out)
        }
        Task::Claims { schema } => tell_key(alloc, schema, columns, values, out),
        Task::Literal => tell_literal(alloc, values, params, out),
        _ => None,
    }
}

fn tell_create(
    alloc: Global,
    table: &[u8],
    (columns, key): (&[Definition<'_>], &[KeyColumn<'_>]),
    task: &Task<'_>,
    out: &mut Vec<u8>,
) -> Option<()> {
    let Task::Create { tables, left } = task else {
        return None;
    };
    let name = table_name(alloc, table).ok()?;
    let answer = create(alloc, name.as_str(), columns, key, *tables, *left);
    tell_made(alloc, &one(alloc, answer)?, out)
}

fn tell_update(
    alloc: Global,
    assignments: &[Assignment<'_>],
    params: &[Value<'_>],
    task: &Task<'_>,
    out: &mut Vec<u8>,
) -> Option<()> {
    let Task::Update { rows, left } = task else {
        return None;
    };
    let made = match Targets::bind(alloc, rows.schema(), assignments, params) {
        Ok(targets) => many(updates(alloc, "T", rows, &targets, *left))?,
        Err(StatementError::Fault(fault)) => Err(fault),
        Err(StatementError::NoMemory) => return None,
    };
    tell_made(alloc, &made, out)
}

fn tell_filter(
    alloc: Global,
    filter: Option<&Predicate<'_>>,
    params: &[Value<'_>],
    task: &Task<'_>,
    out: &mut Vec<u8>,
) -> Option<()> {
    match task {
        Task::Counted { rows } => tell_counted(alloc, filter, params, rows, out),
        Task::Fixed { schema } => tell_fixed(alloc, filter, params, schema, out),
        _ => None,
    }
}

fn tell_columns(
    alloc: Global,
    columns: &Columns<'_>,
    task: &Task<'_>,
    out: &mut Vec<u8>,
) -> Option<()> {
    match task {
        Task::Selected { schema } => tell_places(alloc, columns, schema, out),
        _ => None,
    }
}

fn tell_command(
    alloc: Global,
    command: &Command<'_>,
    params: &[Value<'_>],
    task: &Task<'_>,
    out: &mut Vec<u8>,
) -> Option<()> {
    match command {
        Command::Insert {
            columns,
            values,
            ..
        } => tell_insert(alloc, (columns, values.as_slice()), params, task, out),
        Command::Create {
            table,
            columns,
            key,
        } => tell_create(
            alloc,
            table.bytes(),
            (columns.as_slice(), key.as_slice()),
            task,
            out,
        ),
        Command::Update { assignments, .. } => {
            tell_update(alloc, assignments.as_slice(), params, task, out)
        }
        Command::Delete { filter, .. } => tell_filter(alloc, filter.as_ref(), params, task, out),
        Command::Select { columns, .. } => tell_columns(alloc, columns, task, out),
    }
}

fn statement<'a>(alloc: Global, text: &'a str) -> Result<Statement<'a>, SqlError> {
    parse(alloc, text)
}

/// What is told of a statement, with these values for its markers. It alone holds a statement, since a function that does so is dear
/// to prove.
pub fn tell_statement(
    alloc: Global,
    text: &str,
    params: &[Value<'_>],
    task: &Task<'_>,
    out: &mut Vec<u8>,
) -> Option<()> {
    let statement = statement(alloc, text).ok()?;
    let told = tell_command(alloc, &statement.command, params, task, out);
    drop(statement);
    told
}

/// What removing these rows from `T` makes where so many bytes are left.
pub fn tell_removed(alloc: Global, rows: &RowList, left: usize, out: &mut Vec<u8>) -> Option<()> {
    tell_made(alloc, &many(delete(alloc, "T", rows, left))?, out)
}

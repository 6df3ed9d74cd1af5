//! Statements as they are read: with the places that the checks behind the grammar may blame.

ghost use Rattle.std.specs.Prelude.{◌≡◌, map, IfOk};
ghost use Rattle.sql_text.specs.Plain as plain;
ghost use Rattle.sql_text.specs.declared.draft.Draft.TheVariants as drafts;

use crate::tree::{
    Assignment, ColumnType, Columns, Command, Definition, KeyColumn, Literal, Predicate,
};
use sql_lex::Part;
use sqlite_items::Items;
use std::alloc::{AllocError, Global};

/// The type of a column.
#[derive(Clone, Copy)]
pub(crate) enum DraftType {
    SmallInt,
    Integer,
    BigInt,
    /// At most so many bytes of text. `left` counts the bytes of the statement from this length
    /// on.
    VarChar { length: usize, left: usize },
    /// At most so many bytes. `left` counts the bytes of the statement from this length on.
    VarBinary { length: usize, left: usize },
}

/// A column of a table to be made.
#[derive(Drop)]
pub(crate) struct DraftColumn<'a> {
    pub name: Part<'a>,
    /// How many bytes of the statement there are from the name on.
    pub left: usize,
    pub column_type: DraftType,
    pub nullable: bool,
}

/// A column of the key of a table to be made.
#[derive(Drop)]
pub(crate) struct DraftKey<'a> {
    pub name: Part<'a>,
    /// How many bytes of the statement there are from the name on.
    pub left: usize,
}

/// What a statement asks for.
#[derive(Drop)]
pub(crate) enum Draft<'a> {
    Create {
        table: Part<'a>,
        columns: Items<DraftColumn<'a>>,
        key: Items<DraftKey<'a>>,
    },
    Insert {
        table: Part<'a>,
        columns: Columns<'a>,
        values: Items<Literal<'a>>,
    },
    Update {
        table: Part<'a>,
        assignments: Items<Assignment<'a>>,
        filter: Option<Predicate<'a>>,
    },
    Delete {
        table: Part<'a>,
        filter: Option<Predicate<'a>>,
    },
    Select {
        columns: Columns<'a>,
        table: Part<'a>,
        filter: Option<Predicate<'a>>,
    },
}

fn column_type(draft: DraftType) -> ColumnType
    ensures { result ≡ plain.column_type draft }
{
    match draft {
        DraftType::SmallInt => ColumnType::SmallInt,
        DraftType::Integer => ColumnType::Integer,
        DraftType::BigInt => ColumnType::BigInt,
        DraftType::VarChar { length, .. } => ColumnType::VarChar { length },
        DraftType::VarBinary { length, .. } => ColumnType::VarBinary { length },
    }
}

fn definition<'a>(alloc: Global, column: &DraftColumn<'a>) -> Result<Definition<'a>, AllocError>
    ensures { IfOk result (λ d. d ≡ plain.definition column.now) }
{
    Ok(Definition {
        name: column.name.again(alloc)?,
        column_type: column_type(column.column_type),
        nullable: column.nullable,
    })
}

fn definitions<'a>(
    alloc: Global,
    columns: &[DraftColumn<'a>],
) -> Result<Items<Definition<'a>>, AllocError>
    ensures { IfOk result (λ ds. ds ≡ map plain.definition columns.now) }
{
    let mut made = Items::new(alloc);
    for column in columns {
        made.push(definition(alloc, column)?)?;
    }
    Ok(made)
}

fn key_column<'a>(alloc: Global, column: &DraftKey<'a>) -> Result<KeyColumn<'a>, AllocError>
    ensures { IfOk result (λ k. k ≡ plain.key_column column.now) }
{
    Ok(KeyColumn {
        name: column.name.again(alloc)?,
    })
}

fn key_columns<'a>(alloc: Global, key: &[DraftKey<'a>]) -> Result<Items<KeyColumn<'a>>, AllocError>
    ensures { IfOk result (λ ks. ks ≡ map plain.key_column key.now) }
{
    let mut made = Items::new(alloc);
    for column in key {
        made.push(key_column(alloc, column)?)?;
    }
    Ok(made)
}

fn creation<'a>(
    alloc: Global,
    table: Part<'a>,
    columns: Items<DraftColumn<'a>>,
    key: Items<DraftKey<'a>>,
) -> Result<Command<'a>, AllocError>
    ensures { IfOk result (λ c. c ≡ plain.command (drafts.Create table.entry columns.entry key.entry)) }
{
    let columns = definitions(alloc, columns.as_slice())?;
    let key = key_columns(alloc, key.as_slice())?;
    Ok(Command::Create {
        table,
        columns,
        key,
    })
}

/// The statement without the places.
pub(crate) fn command<'a>(alloc: Global, draft: Draft<'a>) -> Result<Command<'a>, AllocError>
    ensures { IfOk result (λ c. c ≡ plain.command draft.entry) }
{
    match draft {
        Draft::Create {
            table,
            columns,
            key,
        } => creation(alloc, table, columns, key),
        Draft::Insert {
            table,
            columns,
            values,
        } => Ok(Command::Insert {
            table,
            columns,
            values,
        }),
        Draft::Update {
            table,
            assignments,
            filter,
        } => Ok(Command::Update {
            table,
            assignments,
            filter,
        }),
        Draft::Delete { table, filter } => Ok(Command::Delete { table, filter }),
        Draft::Select {
            columns,
            table,
            filter,
        } => Ok(Command::Select {
            columns,
            table,
            filter,
        }),
    }
}

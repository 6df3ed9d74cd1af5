//! The table that a CREATE TABLE makes.

ghost use Rattle.std.specs.Prelude.{◌≡◌, ◌∷◌, ◌≤◌, [], IfOk, Ok, length, map};
ghost use Rattle.std.specs.List.{filter_map, list_any};
ghost use Rattle.drda_words.specs.Excuse.{Answers};
ghost use Rattle.row_values.specs.Column.{column_of};
ghost use Rattle.row_values.specs.Schema.{is_schema};
ghost use Rattle.tables.specs.ChangeView.{change_of};
ghost use Rattle.core_calls.specs.declared.sql_fault.SqlFault.TheVariants as sql_fault;
ghost use Rattle.sql_text.specs.Checks.{same_name};
ghost use Rattle.sql_semantics.specs.Checked.{unless};
ghost use Rattle.sql_semantics.specs.Create as create;
ghost use Rattle.sql_semantics.specs.Meaning.{Changes, create_answer};
ghost use Rattle.sql_semantics.specs.Values as values;
ghost use Rattle.core_calls.specs.StatementError.{fault_of};

use core_calls::{SqlFault, StatementError};
use row_values::{Column, Kind, MAX_COLUMNS, Schema, is_name};
use sql_predicates::{column_place, table_name};
use sql_text::{ColumnType, Definition, KeyColumn};
use std::alloc::{AllocError, Global};
use tables::Change;

/// The most tables of a store.
pub const MAX_TABLES: usize = 1_000;

/// The change that a CREATE TABLE makes in a store of so many tables, where none has this name,
/// which is in capitals. It is a syntax error where the name is none or the columns and the key are
/// no schema; a limit is reached by the 1,001st table, and where the change has more bytes than are
/// left.
pub fn create(
    alloc: Global,
    table: &str,
    definitions: &[Definition<'_>],
    key: &[KeyColumn<'_>],
    tables: usize,
    left: usize,
) -> Result<Change, StatementError>
    ensures { Answers (λ change. Changes (change_of change ∷ []) 0) fault_of result (create_answer left table.now (create.defined_schema definitions.now key.now) tables) }
{
    if !is_name(table.as_bytes()) {
        return Err(StatementError::Fault(SqlFault::Syntax));
    }
    let schema = defined_schema(alloc, definitions, key)?;
    if tables >= MAX_TABLES {
        return Err(StatementError::Fault(SqlFault::LimitReached));
    }
    let change = Change::create(String::from_str(alloc, table)?, schema);
    if change.length() > left {
        return Err(StatementError::Fault(SqlFault::LimitReached));
    }
    Ok(change)
}

// The schema, where it is one.
#[tactic(auto, unfolding(sql_semantics::specs::Create::defined_schema))]
fn defined_schema(
    alloc: Global,
    definitions: &[Definition<'_>],
    key: &[KeyColumn<'_>],
) -> Result<Schema, StatementError>
    ensures { Answers (λ schema. schema) fault_of result (unless (is_schema (create.defined_schema definitions.now key.now)) sql_fault.Syntax (Ok (create.defined_schema definitions.now key.now))) }
{
    if definitions.len() > MAX_COLUMNS {
        return Err(StatementError::Fault(SqlFault::Syntax));
    }
    let columns = defined_columns(alloc, definitions, key)?;
    let places = key_places(alloc, columns.as_slice(), key)?;
    match Schema::new(columns, places) {
        Ok(schema) => Ok(schema),
        Err(_error) => Err(StatementError::Fault(SqlFault::Syntax)),
    }
}

fn defined_columns(
    alloc: Global,
    definitions: &[Definition<'_>],
    key: &[KeyColumn<'_>],
) -> Result<Vec<Column>, AllocError>
    ensures { IfOk result (λ columns. map column_of columns.items ≡ create.defined_columns definitions.now key.now) }
{
    let mut columns = Vec::with_capacity(alloc, definitions.len())?;
    let mut left = definitions;
    'definitions: while let [definition, rest @ ..] = left {
        columns.push(defined_column(alloc, key, definition)?)?;
        left = rest;
    }
    Ok(columns)
}

// A column of the key takes no NULL, written or not.
fn defined_column(
    alloc: Global,
    key: &[KeyColumn<'_>],
    definition: &Definition<'_>,
) -> Result<Column, AllocError>
    ensures { IfOk result (λ column. column_of column ≡ create.defined_column key.now definition.now) }
{
    let name = definition.name.bytes();
    Ok(Column {
        name: table_name(alloc, name)?,
        kind: kind_of(definition.column_type),
        is_nullable: definition.nullable && !is_of_key(key, name),
        length: limit_of(definition.column_type),
    })
}

fn is_of_key(key: &[KeyColumn<'_>], name: &[u8]) -> bool
    ensures { result ≡ list_any (λ k. same_name k.name name.now) key.now }
{
    key.iter().any(|column| is_same(column.name.bytes(), name))
}

fn is_same(a: &[u8], b: &[u8]) -> bool
    ensures { result ≡ same_name a.now b.now }
{
    a.eq_ignore_ascii_case(b)
}

fn kind_of(column_type: ColumnType) -> Kind
    ensures { result ≡ create.kind_of column_type }
{
    match column_type {
        ColumnType::SmallInt => Kind::SmallInt,
        ColumnType::Integer => Kind::Integer,
        ColumnType::BigInt => Kind::BigInt,
        ColumnType::VarChar { .. } => Kind::VarChar,
        ColumnType::VarBinary { .. } => Kind::VarBinary,
    }
}

fn limit_of(column_type: ColumnType) -> u16
    ensures { result ≡ create.limit_of column_type }
{
    match column_type {
        ColumnType::VarChar { length } | ColumnType::VarBinary { length } => {
            length.min(65_535) as u16
        }
        ColumnType::SmallInt | ColumnType::Integer | ColumnType::BigInt => 0,
    }
}

// The places of the columns of the key.
fn key_places(
    alloc: Global,
    columns: &[Column],
    key: &[KeyColumn<'_>],
) -> Result<Vec<u8>, AllocError>
    requires { length columns.now ≤ 64 }
    ensures { IfOk result (λ places. places.items ≡ filter_map (λ k. values.column_place (map column_of columns.now) k.name) key.now) }
{
    let mut places = Vec::with_capacity(alloc, key.len())?;
    let mut left = key;
    'key: while let [column, rest @ ..] = left {
        left = rest;
        let Some(place) = column_place(columns, column.name.bytes()) else {
            continue 'key;
        };
        places.push(place as u8)?;
    }
    Ok(places)
}

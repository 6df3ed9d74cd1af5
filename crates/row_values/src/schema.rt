//! Schemas.

ghost use Rattle.std.specs.Prelude.{◌≡◌, ◌↔◌, ◌<◌, IfOk, IsOk, Some, length, true, map, nat_eq};
ghost use Rattle.std.specs.List.{list_all, list_any, slice_get};
ghost use Rattle.row_values.specs.Column.{column_of};
ghost use Rattle.row_values.specs.Schema.{are_columns, can_be_key, is_column, is_key_of, is_schema, key_columns, no_repeat, same_name};

use crate::column::Column;
use std::alloc::{AllocError, Global};
use std::marker::Model;
use thiserror::Error;

/// The most columns of a table.
pub const MAX_COLUMNS: usize = 64;

/// The most columns of a key.
pub const MAX_KEY_COLUMNS: usize = 4;

/// The most bytes of a name.
pub const MAX_NAME_BYTES: usize = 30;

/// The most bytes that a text or bytes column may be declared with.
pub const MAX_COLUMN_LENGTH: u16 = 2_000;

/// These columns and this key are no schema.
#[derive(Clone, Copy, Debug, PartialEq, Eq, Error)]
#[error("no schema")]
pub struct BadSchema;

/// The columns of a table, and which of them are its key.
#[derive(Debug, Drop)]
pub struct Schema {
    columns: Vec<Column>,
    key: Vec<u8>,
}

impl Model for Schema {
    ghost use Rattle.std.specs.Prelude.{◌≡◌, true, map};
    ghost use Rattle.row_values.specs.Schema.{Schema, is_schema};
    ghost use Rattle.row_values.specs.Column.{column_of};

    ghost Value = { Schema };

    ghost view = { λ s. record { columns = map column_of s.columns.items; key = s.key.items } };

    ghost invariant = { λ s. is_schema (record { columns = map column_of s.columns.items; key = s.key.items }) ≡ true };
}

impl Schema {
    /// A schema of 1 to 64 columns of different names, whose key is 1 to 4 different ones of them,
    /// given by their places from 0 in the order of PRIMARY KEY. A key column takes no NULL; names
    /// are in capitals, 1 to 30 bytes, a letter and then letters, digits and `_`; texts and bytes
    /// have a length of 1 to 2,000 bytes, numbers 0. Anything else is refused.
    pub fn new(columns: Vec<Column>, key: Vec<u8>) -> Result<Schema, BadSchema>
        ensures made { IfOk result (λ schema. schema ≡ record { columns = map column_of columns.items; key = key.items }) }
        ensures only { IsOk result ↔ (is_schema (record { columns = map column_of columns.items; key = key.items }) ≡ true) }
    {
        if !are_columns(&columns) || !is_key_of(&columns, &key) {
            return Err(BadSchema);
        }
        Ok(Schema { columns, key })
    }

    /// A copy of the schema.
    pub fn copy(&self, alloc: Global) -> Result<Schema, AllocError>
        ensures { IfOk result (λ schema. schema ≡ self.now) }
    {
        let columns = copied_columns(alloc, self.columns())?;
        let key = Vec::from_slice(alloc, self.key())?;
        Ok(Schema { columns, key })
    }

    /// The columns, in the order of CREATE TABLE.
    pub fn columns(&self) -> &[Column]
        ensures columns { map column_of result.now ≡ self.now.columns }
        ensures good { is_schema self.now ≡ true }
    {
        self.columns.as_slice()
    }

    /// The places of the key columns from 0, in the order of PRIMARY KEY.
    pub fn key(&self) -> &[u8]
        ensures key { result.now ≡ self.now.key }
        ensures good { is_schema self.now ≡ true }
    {
        self.key.as_slice()
    }

    /// The key column at place `i` of the key, counted from 0.
    pub fn key_column(&self, i: usize) -> &Column
        requires { i < length self.now.key }
        ensures { slice_get (key_columns self.now) i ≡ Some (column_of result.now) }
    {
        &self.columns[usize::from(self.key[i])]
    }
}

fn copied_columns(alloc: Global, columns: &[Column]) -> Result<Vec<Column>, AllocError>
    ensures { IfOk result (λ copies. map column_of copies.items ≡ map column_of columns.now) }
{
    let mut copies = Vec::new(alloc);
    for i in 0..columns.len() {
        copies.push(columns[i].copy(alloc)?)?;
    }
    Ok(copies)
}

fn are_columns(columns: &[Column]) -> bool
    ensures { result ≡ are_columns (map column_of columns.now) }
{
    if columns.len() > MAX_COLUMNS {
        return false;
    }
    if !are_valid(columns) {
        return false;
    }
    have_different_names(columns)
}

fn are_valid(columns: &[Column]) -> bool
    ensures { result ≡ list_all (λ column. is_column (column_of column)) columns.now }
{
    columns.iter().all(|column| column.is_valid())
}

fn have_different_names(columns: &[Column]) -> bool
    ensures { result ≡ no_repeat same_name (map column_of columns.now) }
{
    match columns {
        [] => true,
        [first, rest @ ..] => !is_named(first, rest) && have_different_names(rest),
    }
}

// Whether one of the columns has the name of this one.
fn is_named(first: &Column, columns: &[Column]) -> bool
    ensures { result ≡ list_any (λ column. same_name (column_of first.now) (column_of column)) columns.now }
{
    columns.iter().any(|column| have_one_name(first, column))
}

fn have_one_name(a: &Column, b: &Column) -> bool
    ensures { result ≡ same_name (column_of a.now) (column_of b.now) }
{
    a.name == b.name
}

fn is_key_of(columns: &[Column], key: &[u8]) -> bool
    ensures { result ≡ is_key_of (map column_of columns.now) key.now }
{
    !key.is_empty()
        && key.len() <= MAX_KEY_COLUMNS
        && can_all_be_key(columns, key)
        && are_different(key)
}

fn can_all_be_key(columns: &[Column], key: &[u8]) -> bool
    ensures { result ≡ list_all (λ place. can_be_key (slice_get (map column_of columns.now) place)) key.now }
{
    key.iter().all(|place| can_be_key(columns, *place))
}

// Whether the column at this place takes no NULL.
fn can_be_key(columns: &[Column], place: u8) -> bool
    ensures { result ≡ can_be_key (slice_get (map column_of columns.now) place) }
{
    match columns.get(usize::from(place)) {
        Some(column) => !column.is_nullable,
        None => false,
    }
}

fn are_different(places: &[u8]) -> bool
    ensures { result ≡ no_repeat nat_eq places.now }
{
    match places {
        [] => true,
        [first, rest @ ..] => !rest.contains(first) && are_different(rest),
    }
}

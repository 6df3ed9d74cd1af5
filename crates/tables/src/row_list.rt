//! The rows of a query.

ghost use Rattle.std.specs.Prelude.{◌≡◌, ◌-◌, ◌^◌, ◌<◌, ◌∷◌, [], ◌++◌, OnErr, OnOk, ◌==◌, length, min, true};
ghost use Rattle.row_values.specs.Row.{is_row};
ghost use Rattle.std.specs.List.{list_all};
ghost use Rattle.tables.specs.RowList.{is_list, is_selection};
ghost use Rattle.tables.specs.Rows.{memory_of};
ghost use Rattle.tables.specs.Lent.{IsRowAt};
ghost use Rattle.std.specs.Arc.{arc_value};

use crate::rows::Rows;
use row_values::{RowRef, Schema};
use std::alloc::{AllocError, Global};
use std::marker::Model;
use std::sync::Arc;

/// The most columns that a query asks for.
pub const MAX_SELECTED: usize = 64;

/// Rows of one schema, kept as they are stored in one buffer, and the places of the columns asked for.
/// The schema is shared with the view that gave it.
#[derive(Debug, Drop)]
pub struct RowList {
    schema: Arc<Schema, Global>,
    selected: Vec<u8>,
    rows: Rows,
}

impl Model for RowList {
    ghost use Rattle.std.specs.Prelude.{◌≡◌, true};
    ghost use Rattle.std.specs.Arc.{arc_value};
    ghost use Rattle.tables.specs.RowList.{RowList, is_list};

    ghost Value = { RowList };

    ghost view = { λ l. record { schema = arc_value l.schema; selected = l.selected.items; rows = l.rows } };

    ghost invariant = { λ l. is_list (record { schema = arc_value l.schema; selected = l.selected.items; rows = l.rows }) ≡ true };
}

impl RowList {
    /// No rows yet, of which these columns are asked for by their places: at most 64, a place perhaps
    /// more than once.
    pub fn new(alloc: Global, schema: Arc<Schema, Global>, selected: Vec<u8>) -> RowList
        requires { is_selection (arc_value schema) selected.items ≡ true }
        ensures { result ≡ record { schema = arc_value schema; selected = selected.items; rows = [] } }
    {
        RowList {
            schema,
            selected,
            rows: Rows::new(alloc),
        }
    }

    /// Adds a copy of a row of the schema. Out of memory, nothing is added.
    pub fn push(&mut self, row: &[u8]) -> Result<(), AllocError>
        requires { is_row self.old.schema row.now ≡ true }
        ensures ok { OnOk result (self.new ≡ record self.old { rows = self.old.rows ++ row.now ∷ [] }) }
        ensures err { OnErr result (self.new ≡ self.old) }
    {
        self.rows.push(row)?;
        Ok(())
    }

    /// The list with these rows of its schema in place of its own. Takes no memory.
    pub fn with_rows(self, rows: Rows) -> RowList
        requires { list_all (is_row self.schema) rows ≡ true }
        ensures { result ≡ record self { rows = rows } }
    {
        let mut list = self;
        list.rows = rows;
        list
    }

    /// How many rows there are.
    pub fn len(&self) -> usize
        ensures { result ≡ length self.now.rows }
    {
        self.rows.len()
    }

    /// Whether there is no row.
    pub fn is_empty(&self) -> bool
        ensures { result ≡ (length self.now.rows == 0) }
    {
        self.rows.is_empty()
    }

    /// The bytes that its rows take in memory: their own, and 8 for where each ends. It stops at 2^64 - 1.
    pub fn memory(&self) -> usize
        ensures { result ≡ min (memory_of self.now.rows) (2 ^ 64 - 1) }
    {
        self.rows.memory()
    }

    /// The schema of the rows.
    pub fn schema(&self) -> &Schema
        ensures { result.now ≡ self.now.schema }
    {
        &self.schema
    }

    /// The places of the columns asked for, in their order.
    pub fn selected(&self) -> &[u8]
        ensures places { result.now ≡ self.now.selected }
        ensures good { is_list self.now ≡ true }
    {
        self.selected.as_slice()
    }

    /// Row `i`, counted from 0.
    pub fn row(&self, i: usize) -> RowRef<'_>
        requires { i < length self.now.rows }
        ensures { IsRowAt self.now i result }
    {
        RowRef::of_row(self.schema(), self.rows.row(i))
    }
}

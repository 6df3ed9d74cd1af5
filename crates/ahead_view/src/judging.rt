//! Whether rows that were read may be those of a table, judged where they lie: for no row is memory taken.

ghost use Rattle.std.specs.Prelude.{◌≡◌, IfOk, IsTrue, bytes_eq, option_map, true};
ghost use Rattle.row_values.specs.Key.{row_key};
ghost use Rattle.row_values.specs.RowView.{row_in, schema_in};
ghost use Rattle.tables.specs.Tables.{is_row_at};
ghost use Rattle.paged_tables.specs.PagedTables.{store_in};
ghost use Rattle.ahead_view.specs.Ahead.{may_be_read};
ghost use Rattle.row_pages.specs.Judging.{do_rise as may_rise};
ghost use Rattle.paged_tables.specs.Judged.{may_be_rows};

use crate::reading::ReadAhead;
use paged_tables::PagedTables;
use row_pages::is_behind;
use row_values::{KeyValues, RowRef, Schema, is_key};
use std::alloc::AllocError;
use tables::Rows;

/// Whether what was read may be rows of these tables: of the schema of their table, each at its key, in
/// the order of keys. Where that is known already nothing is judged. No page is read. The schema is shared
/// where there is a row to judge, and nowhere else is memory asked for.
pub(crate) fn is_possible(
    tables: &PagedTables,
    read: &ReadAhead<'_>,
    is_known: bool,
) -> Result<bool, AllocError>
    requires { IsTrue is_known → may_be_read (store_in tables.now) read.now ≡ true }
    ensures { IfOk result (λ may. may ≡ may_be_read (store_in tables.now) read.now) }
{
    if is_known {
        return Ok(true);
    }
    match read {
        ReadAhead::Nothing => Ok(true),
        ReadAhead::Row { table, key, row } => {
            let Some(row) = row else {
                return Ok(true);
            };
            let schema = tables.schema(table)?;
            Ok(is_possible_row(schema.as_deref(), row, key))
        }
        ReadAhead::Rows { table, rows } => {
            if rows.is_empty() {
                return Ok(true);
            }
            let schema = tables.schema(table)?;
            Ok(are_possible_rows(schema.as_deref(), rows))
        }
    }
}

// Whether this may be the row of a key of a table with this schema.
fn is_possible_row(schema: Option<&Schema>, row: &[u8], key: &[u8]) -> bool
    ensures { result ≡ is_row_at (option_map (λ s. s.now) schema.entry) row.now key.now }
{
    let Some(schema) = schema else {
        return false;
    };
    match RowRef::parse(schema, row) {
        Ok(row) => is_at_key(&row, key),
        Err(_) => false,
    }
}

// Whether these bytes are the key of the row.
fn is_at_key(row: &RowRef<'_>, key: &[u8]) -> bool
    ensures { result ≡ bytes_eq key.now (row_key (schema_in row.now) (row_in row.now)) }
{
    let schema = row.schema();
    let places = schema.key();
    if !is_key(schema, key) {
        return false;
    }
    let mut values = KeyValues::new(schema, key);
    for place in places {
        let Some(value) = values.next() else {
            return false;
        };
        if row.column(usize::from(*place)).order(&value).is_ne() {
            return false;
        }
    }
    true
}

// Whether these may be the rows of a table with this schema, in the order of their keys.
fn are_possible_rows(schema: Option<&Schema>, rows: &Rows) -> bool
    ensures { result ≡ may_be_rows (option_map (λ s. s.now) schema.entry) rows.now }
{
    match schema {
        Some(schema) => do_rise(schema, rows),
        None => rows.is_empty(),
    }
}

// Whether these are rows of the schema whose keys rise.
fn do_rise(schema: &Schema, rows: &Rows) -> bool
    ensures { result ≡ may_rise schema.now rows.now }
{
    let mut last: Option<RowRef<'_>> = None;
    for i in 0..rows.len() {
        let Ok(row) = RowRef::parse(schema, rows.row(i)) else {
            return false;
        };
        if !is_behind(&last, &row) {
            return false;
        }
        last = Some(row);
    }
    true
}

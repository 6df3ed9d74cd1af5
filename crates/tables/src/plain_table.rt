//! A table in memory.

ghost use Rattle.std.specs.Prelude.{◌≡◌, ◌≤◌, bytes_eq, IfOk, OnErr, OnOk, filter, find, length, map, not, option_copied, option_map, true};
ghost use Rattle.std.specs.List.{list_all, slice_get};
ghost use Rattle.std.specs.Map.{lookup, values_of};
ghost use Rattle.std.specs.String.{string_bytes};
ghost use Rattle.std.specs.BTreeMap.{insert_entry};
ghost use Rattle.row_values.specs.Key.{is_key, key_cmp};
ghost use Rattle.tables.specs.Plain.{has_key, is_of_key, rows_before, rows_in, table_in};
ghost use Rattle.tables.specs.Tables.{put_row, remove_row};
ghost use Rattle.tables.specs.View.{is_table};

use crate::rows::Rows;
use row_values::{RowRef, Schema, compare_keys};
use std::alloc::{AllocError, Global};
use std::sync::Arc;

/// A row, and its key.
#[derive(Debug, Drop)]
pub struct PlainRow {
    pub key: Vec<u8>,
    pub row: Vec<u8>,
}

/// A table: its name, its schema, and its rows in the order of their keys.
#[derive(Debug, Drop)]
pub struct PlainTable {
    pub name: String,
    pub schema: Arc<Schema, Global>,
    pub rows: Vec<PlainRow>,
}

impl PlainTable {
    /// Puts a row in place of the one of its key. What is no row of the table changes nothing, and
    /// neither does want of memory.
    pub fn put(&mut self, alloc: Global, row: Vec<u8>) -> Result<(), AllocError>
        requires { is_table (table_in self.old) ≡ true }
        ensures name { string_bytes self.new.name ≡ string_bytes self.old.name }
        ensures applied { OnOk result (table_in self.new ≡ put_row row.items (table_in self.old)) }
        ensures kept { OnErr result (table_in self.new ≡ table_in self.old) }
    {
        let key = match RowRef::parse(&self.schema, row.as_slice()) {
            Ok(parsed) => parsed.key(alloc)?,
            Err(_) => return Ok(()),
        };
        put_entry(&self.schema, &mut self.rows, key, row)
    }

    /// Takes out the row of this key, where there is one.
    pub fn remove(&mut self, key: &[u8])
        ensures name { string_bytes self.new.name ≡ string_bytes self.old.name }
        ensures removed { table_in self.new ≡ remove_row key.now (table_in self.old) }
    {
        remove_entry(&mut self.rows, key);
    }

    /// The row of this key.
    pub fn get(&self, alloc: Global, key: &[u8]) -> Result<Option<Vec<u8>>, AllocError>
        ensures { IfOk result (λ row. option_map (λ bytes. bytes.items) row ≡ lookup (bytes_eq key.now) (table_in self.now).rows) }
    {
        match find_row(self.rows.as_slice(), key) {
            Some(found) => Ok(Some(Vec::from_slice(alloc, found.row.as_slice())?)),
            None => Ok(None),
        }
    }

    /// All rows, in the order of their keys.
    pub fn scan(&self, alloc: Global) -> Result<Rows, AllocError>
        ensures { IfOk result (λ copies. copies ≡ values_of (table_in self.now).rows) }
    {
        copied_rows(alloc, self.rows.as_slice())
    }
}

// The bytes of the rows, in their order.
fn copied_rows(alloc: Global, rows: &[PlainRow]) -> Result<Rows, AllocError>
    ensures { IfOk result (λ copies. copies ≡ map (λ r. r.row.items) rows.now) }
{
    let mut copies = Rows::new(alloc);
    for i in 0..rows.len() {
        copies.push(rows[i].row.as_slice())?;
    }
    Ok(copies)
}

// Puts a row at its key, in place of the one that is there. On want of memory nothing has changed.
fn put_entry(
    schema: &Schema,
    rows: &mut Vec<PlainRow>,
    key: Vec<u8>,
    row: Vec<u8>,
) -> Result<(), AllocError>
    requires key { is_key schema.now key.items ≡ true }
    requires keys { list_all (λ r. is_key schema.now r.key.items) rows.old.items ≡ true }
    ensures applied { OnOk result (rows_in rows.new.items ≡ insert_entry (key_cmp schema.now) (rows_in rows.old.items) key.items row.items) }
    ensures kept { OnErr result (rows.new.items ≡ rows.old.items) }
{
    let place = place_for(schema, rows.as_slice(), key.as_slice());
    if has_key_at(rows.as_slice(), place, key.as_slice()) {
        rows[place].row = row;
        return Ok(());
    }
    rows.insert(place, PlainRow { key, row })?;
    Ok(())
}

// How many rows stand before the place of a key.
fn place_for(schema: &Schema, rows: &[PlainRow], key: &[u8]) -> usize
    requires key { is_key schema.now key.now ≡ true }
    requires keys { list_all (λ r. is_key schema.now r.key.items) rows.now ≡ true }
    ensures place { result ≡ rows_before schema.now key.now rows.now }
    ensures within { result ≤ length rows.now }
{
    for i in 0..rows.len() {
        if !compare_keys(schema, key, rows[i].key.as_slice()).is_gt() {
            return i;
        }
    }
    rows.len()
}

// Whether a row of this key stands at the place.
fn has_key_at(rows: &[PlainRow], place: usize, key: &[u8]) -> bool
    ensures { result ≡ is_of_key key.now (slice_get rows.now place) }
{
    match rows.get(place) {
        Some(entry) => key == entry.key.as_slice(),
        None => false,
    }
}

// The row of a key.
fn find_row<'a>(rows: &'a [PlainRow], key: &[u8]) -> Option<&'a PlainRow>
    ensures { option_copied result ≡ find (has_key key.now) rows.now }
{
    rows.iter().find(|entry| key == entry.key.as_slice())
}

// Keeps the rows of other keys.
fn remove_entry(rows: &mut Vec<PlainRow>, key: &[u8])
    ensures { rows.new.items ≡ filter (λ r. not (has_key key.now r)) rows.old.items }
{
    rows.retain(|entry| key != entry.key.as_slice());
}

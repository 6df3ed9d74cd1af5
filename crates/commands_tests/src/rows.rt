//! Rows of one column.

use fdoca::are_places;
use row_values::RowRef;
use std::alloc::Global;
use std::sync::Arc;
use tables::RowList;
use test_rows::schema_of;

fn no_rows(alloc: Global) -> Option<RowList> {
    let schema = schema_of(alloc, &["K,VARCHAR,not,600", "0"])??;
    let places = Vec::from_slice(alloc, &[0]).ok()?;
    if places.len() > 64 || !are_places(&schema, &places) {
        return None;
    }
    Some(RowList::new(alloc, Arc::new(alloc, schema).ok()?, places))
}

fn push_row(alloc: Global, list: &mut RowList, length: u16) -> Option<()> {
    let [high, low] = length.to_be_bytes();
    let mut row = Vec::from_slice(alloc, &[0, high, low]).ok()?;
    row.resize(usize::from(length).saturating_add(3), b'x')
        .ok()?;
    if RowRef::parse(list.schema(), &row).is_err() {
        return None;
    }
    list.push(&row).ok()
}

/// Rows of K VARCHAR(600) NOT NULL with texts of these lengths. A row has 4 bytes more in QRYDTA.
pub fn rows_of(alloc: Global, lengths: &str) -> Option<RowList> {
    let mut list = no_rows(alloc)?;
    for length in lengths.split_ascii_whitespace() {
        push_row(alloc, &mut list, length.parse::<u16>().ok()?)?;
    }
    Some(list)
}

//! Rows of one table.

use fdoca::are_places;
use row_values::{Column, Kind, RowRef, Schema};
use std::alloc::Global;
use std::sync::Arc;
use std::test::Fail;
use tables::RowList;

const COLUMNS: [(&str, Kind, bool, u16); 2] = [
    ("K", Kind::Integer, false, 0),
    ("V", Kind::VarChar, true, 600),
];

/// `K INTEGER NOT NULL, V VARCHAR(600)`.
pub fn columns(alloc: Global) -> Result<Vec<Column>, Fail> {
    let mut columns = Vec::new(alloc);
    for (name, kind, is_nullable, length) in COLUMNS {
        columns.push(Column {
            name: String::from_str(alloc, name)?,
            kind,
            is_nullable,
            length,
        })?;
    }
    Ok(columns)
}

/// A column C of this type.
pub fn one_column(
    alloc: Global,
    kind: Kind,
    is_nullable: bool,
    length: u16,
) -> Result<Vec<Column>, Fail> {
    let mut columns = Vec::new(alloc);
    columns.push(Column {
        name: String::from_str(alloc, "C")?,
        kind,
        is_nullable,
        length,
    })?;
    Ok(columns)
}

fn row(alloc: Global, key: u8, length: u16) -> Result<Vec<u8>, Fail> {
    let mut row = [0, 0, 0, 0, key, 0].to_vec(alloc)?;
    row.extend_from_slice(&length.to_be_bytes())?;
    for _ in 0..length {
        row.push(b'x')?;
    }
    Ok(row)
}

/// The rows of `SELECT` of these places, one for each length of V, with keys from 1 on.
pub fn rows(alloc: Global, places: &[u8], lengths: &[u16]) -> Result<RowList, Fail> {
    let schema = Arc::new(alloc, Schema::new(columns(alloc)?, [0].to_vec(alloc)?)?)?;
    if places.len() > 64 || !are_places(&schema, places) {
        return Err(Fail::from("no places"));
    }
    let mut list = RowList::new(alloc, schema, places.to_vec(alloc)?);
    let mut key: u8 = 0;
    for length in lengths {
        key = key.saturating_add(1);
        let bytes = row(alloc, key, *length)?;
        if RowRef::parse(list.schema(), &bytes).is_err() {
            return Err(Fail::from("no row"));
        }
        list.push(&bytes)?;
    }
    Ok(list)
}

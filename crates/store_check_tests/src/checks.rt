//! Checks of the pages of a disk, whose conditions are tested. One that does not hold shows as a fault of the device.

use crate::first_column::FirstColumn;
use crate::pages::{DISK_BYTES, TABLE_AT};
use drda_disk::{Disk, Region};
use half_store::{Active, Half, Layout};
use row_pages::Pager;
use row_values::Schema;
use std::alloc::Global;
use store_check::{CheckError, check_catalogue, check_half, check_table};
use table_map::TableMap;
use tables::Rows;

/// How many rows a table has by its map, once so many pages of it are found whole.
pub fn rows_of<D: Disk>(
    alloc: Global,
    schema: &Schema,
    pager: &mut Pager<D>,
    count: usize,
) -> Result<usize, CheckError> {
    if pager.size() < DISK_BYTES || count > 4 {
        return Err(CheckError::DeviceFailed);
    }
    let checked = check_table(alloc, &FirstColumn, schema, pager, TABLE_AT, count)?;
    let table = TableMap::new(alloc, checked.pages);
    let mut rows = Rows::new(alloc);
    match table.scan_judged(alloc, &FirstColumn, pager, None, &mut rows) {
        Ok(_judged) => Ok(rows.len()),
        Err(_) => Err(CheckError::DeviceFailed),
    }
}

/// How many tables the catalogue of so many pages has, in a half with five pages for rows.
pub fn tables_of<D: Disk>(
    alloc: Global,
    pager: &mut Pager<D>,
    count: usize,
) -> Result<usize, CheckError> {
    if pager.size() < DISK_BYTES || count > 4 {
        return Err(CheckError::DeviceFailed);
    }
    let tables = check_catalogue(alloc, pager, TABLE_AT, count, 5)?;
    Ok(tables.len())
}

/// How many tables a half of so many pages has, and how many pages these have; the catalogue has so many, from this one on.
pub fn half_of<D: Disk>(
    alloc: Global,
    pager: &mut Pager<D>,
    pages: u32,
    (first_catalogue, catalogue_pages): (u32, u32),
) -> Result<(usize, u32), CheckError> {
    if pager.size() < DISK_BYTES || pages > 6 {
        return Err(CheckError::DeviceFailed);
    }
    let active = Active {
        name: String::new(alloc),
        half: Half::First,
        generation: 1,
        pages,
        first_catalogue,
        catalogue_pages,
        layout: Layout::Two,
        region: Region {
            at: TABLE_AT + 8_192 * pages as usize,
            length: 8_192,
        },
    };
    let tables = check_half(alloc, &FirstColumn, pager, &active)?;
    let mut of_tables = 0u32;
    for checked in &tables {
        of_tables = of_tables.saturating_add(checked.table.pages);
    }
    Ok((tables.len(), of_tables))
}

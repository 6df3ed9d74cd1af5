//! Tables over their pages, and rows in memory.
ghost use Rattle.std.specs.Prelude.{◌≡◌, ◌+◌, ◌*◌, ◌^◌, ◌≤◌, IfOk, length};
ghost use Rattle.drda_disk.specs.Disk.{Stays};

use crate::keys::{FirstByte, byte_of, pair};
use crate::stores::{Run, STORE_BYTES};
use drda_disk::Disk;
use key_map::OrderedRows;
use row_pages::{PageFault, Pager};
use std::alloc::{AllocError, Global};
use table_map::{RowKeys, TableMap, TablePages};
use tables::Rows;

// Makes a change: without any bytes it takes the row of its key out.
fn change(alloc: Global, table: &mut TableMap, key: u8, length: usize) -> Result<(), AllocError>
    ensures { table.new.places ≡ table.old.places }
{
    table.reserve(alloc, &[key])?;
    if length == 0 {
        table.remove_reserved(alloc, &[key]);
    } else {
        let row = vec![in alloc; key; length]?;
        table.put_reserved(&[key], row);
    }
    Ok(())
}

// The key of the first row of the page at an offset.
fn first_key<D: Disk>(alloc: Global, pager: &mut Pager<D>, at: usize) -> Result<Vec<u8>, PageFault>
    requires { at + 8192 ≤ length (D.life pager.old).seen }
    ensures { Stays (D.life pager.old) (D.life pager.new) }
{
    let page = pager.page(alloc, at)?;
    if page.len() == 0 {
        return Err(PageFault::Damaged);
    }
    match FirstByte.key(alloc, page.row(0)) {
        Ok(key) => Ok(key),
        Err(_) => Err(PageFault::NoMemory),
    }
}

// The keys of the first rows of these pages.
fn first_keys<D: Disk>(
    alloc: Global,
    pager: &mut Pager<D>,
    base: Run,
) -> Result<Vec<Vec<u8>>, PageFault>
    requires inside { base.at + 8192 * base.pages ≤ length (D.life pager.old).seen }
    requires small { base.at + 8192 * base.pages ≤ 2 ^ 40 }
    ensures count { IfOk result (λ keys. length keys.items ≡ base.pages) }
    ensures stays { Stays (D.life pager.old) (D.life pager.new) }
{
    let mut keys = Vec::new(alloc);
    for page in 0..base.pages {
        let key = first_key(alloc, pager, base.at + 8_192 * page)?;
        match keys.push(key) {
            Ok(()) => {}
            Err(_) => return Err(PageFault::NoMemory),
        }
    }
    Ok(keys)
}

/// A table with these pages and changes.
pub fn table_with<D: Disk>(
    alloc: Global,
    pager: &mut Pager<D>,
    base: Run,
    changes: &str,
) -> Result<TableMap, PageFault>
    ensures inside { IfOk result (λ table. table.places.at + 8192 * length table.places.keys ≤ length (D.life pager.new).seen) }
    ensures stays { Stays (D.life pager.old) (D.life pager.new) }
{
    if base.at > STORE_BYTES || base.pages > 200 || base.at + 8_192 * base.pages > pager.size() {
        return Err(PageFault::DeviceFailed);
    }
    let keys = first_keys(alloc, pager, base)?;
    let mut table = TableMap::new(alloc, TablePages::new(base.at, keys));
    for word in changes.split_ascii_whitespace() {
        let (key, length) = pair(word);
        if change(alloc, &mut table, key, length).is_err() {
            return Err(PageFault::NoMemory);
        }
    }
    Ok(table)
}

/// Rows of these keys, in memory.
pub fn rows_of(alloc: Global, changes: &str) -> Result<OrderedRows, AllocError> {
    let mut rows = OrderedRows::new(alloc);
    for word in changes.split_ascii_whitespace() {
        let (key, length) = pair(word);
        rows.reserve(alloc, &[key])?;
        let row = vec![in alloc; key; length]?;
        rows.put_reserved(&[key], row);
    }
    Ok(rows)
}

// All rows of these pages.
fn read<D: Disk>(alloc: Global, pager: &mut Pager<D>, run: Run) -> Result<Rows, PageFault> {
    let table = table_with(alloc, pager, run, "")?;
    let mut rows = Rows::new(alloc);
    table.scan_judged(alloc, &FirstByte, pager, None, &mut rows)?;
    Ok(rows)
}

// The byte that each row is filled with, and its length.
fn say_rows(rows: &Rows, out: &mut String) -> Result<(), AllocError> {
    write!(out, " ")?;
    for i in 0..rows.len() {
        let row = rows.row(i);
        let (byte, length) = (byte_of(row), row.len());
        write!(out, " {byte}:{length}")?;
    }
    writeln!(out, " end")
}

/// Tells of each row of these pages the byte that it is filled with, and its length.
pub fn tell_rows<D: Disk>(
    alloc: Global,
    pager: &mut Pager<D>,
    run: Run,
    out: &mut String,
) -> Result<(), AllocError> {
    match read(alloc, pager, run) {
        Ok(rows) => say_rows(&rows, out),
        Err(fault) => writeln!(out, "  {fault:?}"),
    }
}

//! A table over its pages, with changes.
ghost use Rattle.std.specs.Prelude.{◌≡◌, ◌+◌, ◌*◌, ◌≤◌, IfOk, length};

use crate::table::{DISK_BYTES, TABLE_AT};
use drda_disk::Disk;
use key_map::row_form;
use row_pages::{PageFault, Pager};
use row_values::Schema;
use std::alloc::{AllocError, Global};
use table_map::{TableMap, TablePages};
use test_bytes::bytes_of;

// Puts a row at a key, or takes the one there out.
fn change(
    alloc: Global,
    table: &mut TableMap,
    key: &[u8],
    row: Option<&[u8]>,
) -> Result<(), AllocError>
    ensures { table.new.places ≡ table.old.places }
{
    table.reserve(alloc, key)?;
    match row {
        Some(row) if !row.is_empty() => {
            let row = row.to_vec(alloc)?;
            table.put_reserved(key, row);
        }
        _ => table.remove_reserved(alloc, key),
    }
    Ok(())
}

// Makes a change: `put` puts a row, and `remove` takes out the row of its key.
fn make_change(
    alloc: Global,
    schema: &Schema,
    table: &mut TableMap,
    asked: &str,
) -> Result<(), AllocError>
    ensures { table.new.places ≡ table.old.places }
{
    let (verb, row) = asked.split_once(' ').unwrap_or((asked, ""));
    let row = bytes_of(alloc, &[row])?;
    let key = row_form(alloc, schema, &row)?;
    let row = if verb == "put" {
        Some(row.as_slice())
    } else {
        None
    };
    change(alloc, table, &key, row)
}

// The key of the first row of the page at an offset.
fn first_key<D: Disk>(
    alloc: Global,
    schema: &Schema,
    pager: &mut Pager<D>,
    at: usize,
) -> Result<Vec<u8>, PageFault> {
    if pager.size() < at || pager.size() - at < 8_192 {
        return Err(PageFault::DeviceFailed);
    }
    let page = pager.page(alloc, at)?;
    if page.len() == 0 {
        return Err(PageFault::Damaged);
    }
    match row_form(alloc, schema, page.row(0)) {
        Ok(key) => Ok(key),
        Err(_) => Err(PageFault::NoMemory),
    }
}

// The keys of the first rows of so many pages.
fn first_keys<D: Disk>(
    alloc: Global,
    schema: &Schema,
    pager: &mut Pager<D>,
    pages: usize,
) -> Result<Vec<Vec<u8>>, PageFault>
    requires { pages ≤ 12 }
{
    let mut keys = Vec::new(alloc);
    for page in 0..pages {
        let key = first_key(alloc, schema, pager, TABLE_AT + 8_192 * page)?;
        if keys.push(key).is_err() {
            return Err(PageFault::NoMemory);
        }
    }
    Ok(keys)
}

/// The table of so many pages, where the disk has room for twelve and it has no more, with these changes, which semicolons part.
pub fn opened<D: Disk>(
    alloc: Global,
    schema: &Schema,
    pager: &mut Pager<D>,
    pages: usize,
    changes: &str,
) -> Result<TableMap, PageFault>
    ensures { IfOk result (λ table. table.places.at + 8192 * length table.places.keys ≤ length (D.life pager.new).seen) }
{
    if pages > 12 {
        return Err(PageFault::DeviceFailed);
    }
    let keys = first_keys(alloc, schema, pager, pages)?;
    if keys.len() > 12 || pager.size() < DISK_BYTES {
        return Err(PageFault::DeviceFailed);
    }
    let mut table = TableMap::new(alloc, TablePages::new(TABLE_AT, keys));
    for asked in changes.split_terminator("; ") {
        if make_change(alloc, schema, &mut table, asked).is_err() {
            return Err(PageFault::NoMemory);
        }
    }
    Ok(table)
}

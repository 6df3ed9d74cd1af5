//! Rows of tables without pages.

ghost use Rattle.std.specs.Prelude.{◌≡◌, IfOk, IsTrue, true};
ghost use Rattle.table_map.specs.Keyed.{copied};
ghost use Rattle.tables.specs.Tables.{schema_of};
ghost use Rattle.paged_tables.specs.Judged.{may_be_row, may_be_rows};
ghost use Rattle.paged_tables.specs.PagedTables.{store_in};
ghost use Rattle.paged_tables.specs.TablesByName.{LieInside};

use ahead_view::ReadError;
use drda_disk::MemDisk;
use paged_tables::{JudgedRows, PagedTables};
use row_pages::{PageCache, PageFault, Pager};
use std::alloc::Global;
use table_map::JudgedRow;

/// The row of a key in a table of tables that have no pages: it is read by a device without bytes.
pub fn read_row(
    alloc: Global,
    tables: &PagedTables,
    table: &str,
    key: &[u8],
) -> Result<JudgedRow, ReadError>
    requires { LieInside 0 tables.now.tables }
    ensures { IfOk result (λ found. IsTrue found.is_judged → may_be_row (schema_of (store_in tables.now) table.now) (copied found.row) key.now ≡ true) }
{
    let cache = PageCache::new(alloc, 1)?;
    let mut pager = Pager::over(MemDisk::new(alloc, 0)?, cache);
    match tables.row(alloc, &mut pager, table, key) {
        Ok(row) => Ok(row),
        Err(fault) => Err(unread(fault)),
    }
}

/// All rows of a table, likewise.
pub fn read_rows(alloc: Global, tables: &PagedTables, table: &str) -> Result<JudgedRows, ReadError>
    requires { LieInside 0 tables.now.tables }
    ensures { IfOk result (λ judged. IsTrue judged.are_judged → may_be_rows (schema_of (store_in tables.now) table.now) judged.rows ≡ true) }
{
    let cache = PageCache::new(alloc, 1)?;
    let mut pager = Pager::over(MemDisk::new(alloc, 0)?, cache);
    match tables.judged_rows(alloc, &mut pager, table) {
        Ok(rows) => Ok(rows),
        Err(fault) => Err(unread(fault)),
    }
}

// The device has nothing that could be damaged.
fn unread(fault: PageFault) -> ReadError {
    match fault {
        PageFault::NoMemory => ReadError::NoMemory,
        PageFault::DeviceFailed | PageFault::Damaged => ReadError::DeviceFailed,
    }
}

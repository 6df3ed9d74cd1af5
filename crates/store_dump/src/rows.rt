//! The rows of a table.

ghost use Rattle.std.specs.Prelude.{◌≡◌, ◌+◌, ◌*◌, ◌≤◌, ℕ, List, IfOk, IsTrue, length};
ghost use Rattle.drda_disk.specs.Disk.{Stays};
ghost use Rattle.key_map.specs.RowForm.{row_form};
ghost use Rattle.table_map.specs.Stored.{IsStored};
ghost use Rattle.table_map.specs.Table.{rows_of_table, without_keys};
ghost use Rattle.row_pages.specs.Laying.{counted};
ghost use Rattle.store_dump.specs.Dump.{IsWritten, rows_text};

use crate::errors::DumpError;
use crate::lines::{write_last_commit, write_row};
use drda_disk::Disk;
use paged_tables::TableRef;
use std::alloc::Global;
use std::io::Write;
use table_map::SchemaKeys;

/// Writes the INSERT of each row of a table, in the order of their keys. One page of it is in memory at a time.
pub(crate) fn write_rows<D: Disk, W: Write>(
    alloc: Global,
    table: &TableRef<'_>,
    line: &mut Vec<u8>,
    disk: &mut D,
    out: &mut W,
) -> Result<(), DumpError>
    requires { table.now.rows.now.places.at + 8192 * length table.now.rows.now.places.keys ≤ length (D.life disk.old).seen }
    ensures told { (pages : List (List (List ℕ))) → IsTrue D.is_modelled → IsStored (row_form table.now.schema.now) table.now.rows.now.places pages (D.life disk.old).seen
        → IsWritten (rows_text table.now.name.now table.now.schema.now 0 (without_keys (rows_of_table (row_form table.now.schema.now) table.now.rows.now pages))) result (W.contents out.old) (W.contents out.new) }
    ensures stays { Stays (D.life disk.old) (D.life disk.new) }
{
    let keys = SchemaKeys {
        schema: table.schema,
    };
    let mut cursor = table.rows.rows();
    let mut since = 0;
    while let Some(row) = cursor.next(alloc, &keys, disk)? {
        since = write_row(line, table.name, table.schema, row, since, out)?;
    }
    write_last_commit(since, out)?;
    Ok(())
}

/// How many rows a table has. One page of it is in memory at a time. The count stops at 2^64 - 1.
pub(crate) fn count_rows<D: Disk>(
    alloc: Global,
    table: &TableRef<'_>,
    disk: &mut D,
) -> Result<usize, DumpError>
    requires { table.now.rows.now.places.at + 8192 * length table.now.rows.now.places.keys ≤ length (D.life disk.old).seen }
    ensures count { (pages : List (List (List ℕ))) → IsTrue D.is_modelled → IsStored (row_form table.now.schema.now) table.now.rows.now.places pages (D.life disk.old).seen
        → IfOk result (λ count. count ≡ counted (length (without_keys (rows_of_table (row_form table.now.schema.now) table.now.rows.now pages)))) }
    ensures stays { Stays (D.life disk.old) (D.life disk.new) }
{
    let keys = SchemaKeys {
        schema: table.schema,
    };
    let mut cursor = table.rows.rows();
    let mut count: usize = 0;
    while let Some(_) = cursor.next(alloc, &keys, disk)? {
        count = count.saturating_add(1);
    }
    Ok(count)
}

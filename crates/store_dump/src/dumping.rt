//! The tables of a store.

ghost use Rattle.std.specs.Prelude.{IsTrue, length};
ghost use Rattle.drda_disk.specs.Disk.{Stays};
ghost use Rattle.paged_tables.specs.PagedTables.{store_in};
ghost use Rattle.paged_tables.specs.TablesByName.{AreOnPages, LieInside};
ghost use Rattle.paged_tables.specs.Stored.{IsOnPages, LiesInside, Stored, rows_in};
ghost use Rattle.paged_tables.specs.Lending.{IsLent};
ghost use Rattle.table_map.specs.Table.{without_keys};
ghost use Rattle.std.specs.Prelude.{List, ℕ};
ghost use Rattle.store_dump.specs.Dump.{IsWritten, dump_text, table_text};

use crate::errors::DumpError;
use crate::lines::write_table;
use crate::rows::write_rows;
use drda_disk::Disk;
use paged_tables::{PagedTables, TableRef};
use std::alloc::Global;
use std::io::Write;

/// Writes a table: its CREATE TABLE, and the INSERT of each of its rows.
fn dump_table<D: Disk, W: Write>(
    alloc: Global,
    table: &TableRef<'_>,
    line: &mut Vec<u8>,
    disk: &mut D,
    out: &mut W,
) -> Result<(), DumpError>
    requires { (e : List ℕ × Stored) × IsLent e table.now × LiesInside (length (D.life disk.old).seen) e.1 }
    ensures told { (e : List ℕ × Stored) → IsLent e table.now → IsTrue D.is_modelled → IsOnPages (D.life disk.old).seen e.1
        → IsWritten (table_text e.0 e.1.schema (without_keys (rows_in e.1))) result (W.contents out.old) (W.contents out.new) }
    ensures stays { Stays (D.life disk.old) (D.life disk.new) }
{
    write_table(line, table.name, table.schema, out)?;
    write_rows(alloc, table, line, disk, out)?;
    Ok(())
}

/// Writes the SQL that makes the tables of a store anew: in the order of their names the CREATE TABLE of each and a
/// COMMIT, and then in the order of their keys the INSERTs of its rows, with a COMMIT behind each 256th and behind the
/// last. Each statement stands on a line of its own, or on more where a text has line ends, and ends with `;`.
///
/// Of the rows one page is in memory at a time. Nothing is written to the disk. Where an error comes, a front of the text
/// was written.
pub fn dump_tables<D: Disk, W: Write>(
    alloc: Global,
    tables: &PagedTables,
    disk: &mut D,
    out: &mut W,
) -> Result<(), DumpError>
    requires { LieInside (length (D.life disk.old).seen) tables.now.tables }
    ensures told { IsTrue D.is_modelled → AreOnPages (D.life disk.old).seen tables.now.tables → IsWritten (dump_text (store_in tables.now)) result (W.contents out.old) (W.contents out.new) }
    ensures stays { Stays (D.life disk.old) (D.life disk.new) }
{
    let mut line = Vec::new(alloc);
    let mut left = tables.lend();
    while let Some(table) = left.next_table() {
        dump_table(alloc, &table, &mut line, disk, out)?;
    }
    Ok(())
}

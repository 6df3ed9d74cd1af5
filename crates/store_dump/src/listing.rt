//! What is told of a store's tables.

ghost use Rattle.std.specs.Prelude.{◌≡◌, IfOk, IsTrue, List, OnOk, length, string_bytes, ℕ};
ghost use Rattle.drda_disk.specs.Disk.{Stays};
ghost use Rattle.paged_tables.specs.Lending.{IsLent};
ghost use Rattle.paged_tables.specs.PagedTables.{store_in};
ghost use Rattle.paged_tables.specs.Stored.{IsOnPages, LiesInside, Stored, rows_in};
ghost use Rattle.paged_tables.specs.TablesByName.{AreOnPages, LieInside};
ghost use Rattle.table_map.specs.Table.{without_keys};
ghost use Rattle.store_dump.specs.Dump.{IsWritten, list_text, shown_comment, shown_line, shown_table};

use crate::errors::DumpError;
use crate::lines::write;
use crate::rows::count_rows;
use drda_disk::Disk;
use paged_tables::{PagedTables, TableRef};
use row_values::Schema;
use sql_spelling::put_create;
use std::alloc::{AllocError, Global};
use std::fmt::Write as _;
use std::io::Write;
use table_map::SchemaKeys;

/// Writes the CREATE TABLE of each table, in the order of their names, and behind it a comment that tells how many rows
/// the table has, and how many pages these take at the next checkpoint.
///
/// Of the rows one page is in memory at a time. Nothing is written to the disk. Where an error comes, a front of the text
/// was written.
pub fn list_tables<D: Disk, W: Write>(
    alloc: Global,
    tables: &PagedTables,
    disk: &mut D,
    out: &mut W,
) -> Result<(), DumpError>
    requires { LieInside (length (D.life disk.old).seen) tables.now.tables }
    ensures told { IsTrue D.is_modelled → AreOnPages (D.life disk.old).seen tables.now.tables → IsWritten (list_text (store_in tables.now)) result (W.contents out.old) (W.contents out.new) }
    ensures stays { Stays (D.life disk.old) (D.life disk.new) }
{
    let mut line = Vec::new(alloc);
    let mut left = tables.lend();
    while let Some(table) = left.next_table() {
        list_table(alloc, &table, &mut line, disk, out)?;
    }
    Ok(())
}

/// Writes what is told of a table.
fn list_table<D: Disk, W: Write>(
    alloc: Global,
    table: &TableRef<'_>,
    line: &mut Vec<u8>,
    disk: &mut D,
    out: &mut W,
) -> Result<(), DumpError>
    requires { (e : List ℕ × Stored) × IsLent e table.now × LiesInside (length (D.life disk.old).seen) e.1 }
    ensures told { (e : List ℕ × Stored) → IsLent e table.now → IsTrue D.is_modelled → IsOnPages (D.life disk.old).seen e.1
        → IsWritten (shown_table e.0 e.1.schema (without_keys (rows_in e.1))) result (W.contents out.old) (W.contents out.new) }
    ensures stays { Stays (D.life disk.old) (D.life disk.new) }
{
    let keys = SchemaKeys {
        schema: table.schema,
    };
    let rows = count_rows(alloc, table, disk)?;
    let pages = table.rows.page_count(alloc, &keys, disk)?;
    put_shown(alloc, line, table.name, table.schema, rows, pages)?;
    write(out, line.as_slice())
}

/// The lines of a table with so many rows and pages, in place of what stood in the buffer.
fn put_shown(
    alloc: Global,
    line: &mut Vec<u8>,
    name: &str,
    schema: &Schema,
    rows: usize,
    pages: usize,
) -> Result<(), AllocError>
    ensures { OnOk result (line.new.items ≡ shown_line name.now schema.now rows pages) }
{
    let comment = comment_of(alloc, rows, pages)?;
    line.clear();
    put_create(line, name, schema)?;
    line.extend_from_slice(comment.as_bytes())?;
    Ok(())
}

/// What stands behind a CREATE TABLE.
fn comment_of(alloc: Global, rows: usize, pages: usize) -> Result<String, AllocError>
    ensures { IfOk result (λ text. string_bytes text ≡ shown_comment rows pages) }
{
    let mut text = String::new(alloc);
    match write!(text, ";\n-- {rows} rows, {pages} pages\n") {
        Ok(()) => Ok(text),
        Err(_) => Err(AllocError),
    }
}

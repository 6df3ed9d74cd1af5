//! What is asked of a table.
ghost use Rattle.std.specs.Prelude.{◌+◌, ◌*◌, ◌≤◌, length};

use crate::opened::opened;
use drda_disk::Disk;
use key_map::row_form;
use row_pages::{KeptPage, PageFault, Pager};
use row_values::Schema;
use std::alloc::Global;
use table_map::{JudgedRow, NotedRows, SchemaKeys, TableMap};
use tables::Rows;
use test_bytes::bytes_of;
use test_rows::{say, tell};

fn name_of(fault: PageFault) -> &'static str {
    match fault {
        PageFault::NoMemory => "no memory",
        PageFault::DeviceFailed => "the device failed",
        PageFault::Damaged => "damaged",
    }
}

// Tells a row that was found, and where it is none of the schema.
fn tell_found(alloc: Global, found: JudgedRow, out: &mut Vec<u8>) -> Option<()> {
    let JudgedRow { row, is_judged } = found;
    let Some(row) = row else {
        return say(out, "no row");
    };
    if !is_judged {
        say(out, "not of the schema")?;
    }
    tell(alloc, out, "row", &row)
}

// Tells the row of the key of a row.
fn tell_row<D: Disk>(
    alloc: Global,
    schema: &Schema,
    table: &TableMap,
    pager: &mut Pager<D>,
    row: &str,
    out: &mut Vec<u8>,
) -> Option<()>
    requires { table.now.places.at + 8192 * length table.now.places.keys ≤ length (D.life pager.old).seen }
{
    let row = bytes_of(alloc, &[row]).ok()?;
    let key = row_form(alloc, schema, &row).ok()?;
    match table.get(alloc, &SchemaKeys { schema }, pager, schema, &key) {
        Ok(found) => tell_found(alloc, found, out),
        Err(fault) => say(out, name_of(fault)),
    }
}

// Tells all rows, in their order.
fn tell_rows<D: Disk>(
    alloc: Global,
    schema: &Schema,
    table: &TableMap,
    pager: &mut Pager<D>,
    out: &mut Vec<u8>,
) -> Option<()>
    requires { table.now.places.at + 8192 * length table.now.places.keys ≤ length (D.life pager.old).seen }
{
    let mut rows = Rows::new(alloc);
    if let Err(fault) = table.scan_judged(alloc, &SchemaKeys { schema }, pager, None, &mut rows) {
        return say(out, name_of(fault));
    }
    for i in 0..rows.len() {
        tell(alloc, out, "row", rows.row(i))?;
    }
    say(out, "end")
}

// Tells how many pages all rows take when they are laid anew.
fn tell_count<D: Disk>(
    alloc: Global,
    schema: &Schema,
    table: &TableMap,
    disk: &mut D,
    out: &mut Vec<u8>,
) -> Option<()>
    requires { table.now.places.at + 8192 * length table.now.places.keys ≤ length (D.life disk.old).seen }
{
    match table.page_count(alloc, &SchemaKeys { schema }, disk) {
        Ok(count) => tell(
            alloc,
            out,
            "pages",
            &[u8::try_from(count).unwrap_or(u8::MAX)],
        ),
        Err(fault) => say(out, name_of(fault)),
    }
}

// Tells the rows of a page that is given whole, where one is, and notes them.
fn tell_page(alloc: Global, given: Option<KeptPage>, out: &mut Vec<u8>) -> Option<()> {
    let Some(page) = given else {
        return say(out, "no page");
    };
    NotedRows::none().note_page(&page);
    for i in 0..page.len() {
        tell(alloc, out, "row", page.row(i))?;
    }
    say(out, "end")
}

// Tells the first page, where it is given whole behind one that has so many bytes left, and then the next one, behind a page that has
// none.
fn tell_pages<D: Disk>(
    alloc: Global,
    schema: &Schema,
    table: &TableMap,
    disk: &mut D,
    room: &str,
    out: &mut Vec<u8>,
) -> Option<()>
    requires { table.now.places.at + 8192 * length table.now.places.keys ≤ length (D.life disk.old).seen }
{
    let room = room.parse::<usize>().unwrap_or(0);
    let mut cursor = table.rows();
    match cursor.next_page(alloc, &SchemaKeys { schema }, disk, room) {
        Ok(given) => tell_page(alloc, given, out)?,
        Err(fault) => return say(out, name_of(fault)),
    }
    match cursor.next_page(alloc, &SchemaKeys { schema }, disk, 0) {
        Ok(given) => tell_page(alloc, given, out),
        Err(fault) => say(out, name_of(fault)),
    }
}

/// Tells what a line asks for, of a table of so many pages: `get` a row by the key of a row, `rows` all of them, `whole` the pages that are
/// given whole, and `count` how many pages they take. Changes that are made first stand in front of it, each with a semicolon behind it.
pub fn tell_asked<D: Disk>(
    alloc: Global,
    schema: &Schema,
    pager: &mut Pager<D>,
    pages: usize,
    line: &str,
    out: &mut Vec<u8>,
) -> Option<()> {
    let (changes, asked) = line.rsplit_once("; ").unwrap_or(("", line));
    let (verb, row) = asked.split_once(' ').unwrap_or((asked, ""));
    match opened(alloc, schema, pager, pages, changes) {
        Ok(table) => match verb {
            "get" => tell_row(alloc, schema, &table, pager, row, out),
            "rows" => tell_rows(alloc, schema, &table, pager, out),
            "whole" => tell_pages(alloc, schema, &table, pager, row, out),
            _ => tell_count(alloc, schema, &table, pager, out),
        },
        Err(fault) => say(out, name_of(fault)),
    }
}

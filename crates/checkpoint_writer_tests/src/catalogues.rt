//! Catalogues that are written and read.
ghost use Rattle.std.specs.Prelude.{◌+◌, ◌≤◌, length};
ghost use Rattle.half_store.specs.Writing.{from_of, half_bytes_of};

use crate::keys::pair;
use crate::stores::{Run, STORE_BYTES};
use checkpoint_writer::{ImageError, StoredTable, TablePlace, read_catalogue, write_catalogue};
use drda_disk::Disk;
use half_store::ImageWriter;
use row_pages::Pager;
use std::alloc::{AllocError, Global};
use test_rows::schema_of;

/// Writes the catalogue of a table without rows and of one whose pages are 3 and 4. Both have the schema of one INTEGER, `A`, which is the
/// key.
pub fn list<D: Disk>(
    alloc: Global,
    pager: &mut Pager<D>,
    image: &mut ImageWriter,
) -> Result<(), ImageError>
    requires { from_of image.old + half_bytes_of image.old ≤ length (D.life pager.old).seen }
{
    let Some(Some(schema)) = schema_of(alloc, &["A,INTEGER,not,0", "0"]) else {
        return Err(ImageError::NoMemory);
    };
    let schema = &schema;
    let tables = [
        TablePlace {
            name: "A",
            schema,
            first_page: 0,
            pages: 0,
        },
        TablePlace {
            name: "T_2",
            schema,
            first_page: 3,
            pages: 2,
        },
    ];
    write_catalogue(alloc, pager, image, &tables)
}

// Changes a byte of a page at a place, where there is one to change, and reads the page's first bytes.
fn front<D: Disk>(disk: &mut D, at: usize, change: &str) -> [u8; 48] {
    let mut front = [0_u8; 48];
    if at <= STORE_BYTES && at + 8_192 <= disk.size() {
        let (byte, place) = pair(change);
        if !change.is_empty() && place < 8_192 {
            let _ = disk.write_at(at + place, &[byte]);
        }
        let _ = disk.read_at(at, &mut front);
    }
    front
}

/// Tells the first bytes of a catalogue's pages, and its tables, once a byte of it at a place is changed, or none is.
pub fn tell_catalogue<D: Disk>(
    alloc: Global,
    pager: &mut Pager<D>,
    run: Run,
    change: &str,
    out: &mut String,
) -> Result<(), AllocError> {
    let front = front(pager, run.at, change);
    writeln!(out, "  {front:?}")?;
    if run.at > STORE_BYTES || run.pages > 100 || run.at + 8_192 * run.pages > pager.size() {
        return Ok(());
    }
    match read_catalogue(alloc, pager, run.at, run.pages) {
        Ok(tables) => tell_tables(&tables, out),
        Err(fault) => writeln!(out, "  {fault:?}"),
    }
}

fn tell_tables(tables: &[StoredTable], out: &mut String) -> Result<(), AllocError> {
    for table in tables {
        let (name, pages, first) = (&table.name, table.pages, table.first_page);
        writeln!(out, "  {name}: {pages} pages from {first} on")?;
    }
    Ok(())
}

//! Pages on a disk in memory.

use crate::checks::{half_of, rows_of, tables_of};
use drda_disk::{Disk, FuseDisk, MemDisk};
use row_pages::{PageBuilder, PageCache, PageKind, Pager};
use row_values::Schema;
use std::alloc::{AllocError, Global};
use test_bytes::bytes_of;
use test_rows::schema_of;

/// Where the first page lies.
pub const TABLE_AT: usize = 8_192;

/// Room for six pages behind the first 8,192 bytes.
pub const DISK_BYTES: usize = 57_344;

/// A SMALLINT that is the key, and bytes that may be NULL.
const COLUMNS: [&str; 3] = ["A,SMALLINT,not,0", "B,VARBINARY,null,2000", "0"];

/// A disk with pages, and behind how many calls of one check the device fails.
#[derive(Drop)]
pub struct Pages {
    alloc: Global,
    schema: Schema,
    disk: MemDisk,
    count: usize,
    calls: u64,
}

// The number that a text begins with, and the text behind it.
fn number_in(text: &str) -> (u32, &str) {
    let (word, rest) = text.split_once(' ').unwrap_or((text, ""));
    (word.parse::<u32>().unwrap_or(0), rest)
}

// Writes bytes at a place of the pages, where the disk has room for them.
fn put(disk: &mut MemDisk, place: usize, bytes: &[u8]) {
    let at = TABLE_AT.saturating_add(place);
    if at <= disk.size() && bytes.len() <= disk.size() - at {
        let _ = disk.write_at(at, bytes);
    }
}

fn schema(alloc: Global) -> Result<Schema, AllocError> {
    match schema_of(alloc, &COLUMNS) {
        Some(Some(schema)) => Ok(schema),
        _ => Err(AllocError),
    }
}

impl Pages {
    /// No pages.
    pub fn new(alloc: Global) -> Result<Pages, AllocError> {
        Ok(Pages {
            alloc,
            schema: schema(alloc)?,
            disk: MemDisk::new(alloc, DISK_BYTES)?,
            count: 0,
            calls: u64::MAX,
        })
    }

    fn begin(&mut self) -> Result<(), AllocError> {
        self.disk = MemDisk::new(self.alloc, DISK_BYTES)?;
        self.count = 0;
        self.calls = u64::MAX;
        Ok(())
    }

    // Lays a page of rows, which commas part; two such behind one another are a row without bytes.
    fn lay(&mut self, kind: PageKind, rows: &str) -> Result<(), AllocError> {
        let mut page = PageBuilder::new(self.alloc, kind)?;
        for row in rows.split_terminator(',') {
            page.try_push(&bytes_of(self.alloc, &[row])?);
        }
        put(
            &mut self.disk,
            self.count.saturating_mul(8_192),
            &page.finish(),
        );
        self.count = self.count.saturating_add(1);
        Ok(())
    }

    // Puts bytes at a place of the pages.
    fn change(&mut self, asked: &str) -> Result<(), AllocError> {
        let (place, bytes) = number_in(asked);
        let bytes = bytes_of(self.alloc, &[bytes])?;
        put(&mut self.disk, place as usize, &bytes);
        Ok(())
    }

    // Tells what pages are: of a table, of a catalogue, or of a half.
    fn tell(&self, verb: &str, asked: &str, out: &mut String) -> Result<(), AllocError> {
        let (count, place) = number_in(asked);
        let (first, catalogue) = number_in(place);
        let (catalogue, _) = number_in(catalogue);
        let disk = FuseDisk::new(self.disk.copy(self.alloc)?, self.calls, false);
        let cache = PageCache::new(self.alloc, 2)?;
        let (alloc, pager) = (self.alloc, &mut Pager::over(disk, cache));
        match verb {
            "table" => {
                let told = rows_of(alloc, &self.schema, pager, count as usize);
                writeln!(out, "  {told:?}")
            }
            "listed" => {
                let told = tables_of(alloc, pager, count as usize);
                writeln!(out, "  {told:?}")
            }
            _ => {
                let told = half_of(alloc, pager, count, (first, catalogue));
                writeln!(out, "  {told:?}")
            }
        }
    }

    // Tells of how many of the places of a range a byte that is put there, 01, makes the table damaged in its second page, and of how many
    // not.
    fn tell_each(&self, asked: &str, out: &mut String) -> Result<(), AllocError> {
        let (from, to) = number_in(asked);
        let (to, _) = number_in(to);
        let mut last = None;
        for place in from..to {
            let mut disk = self.disk.copy(self.alloc)?;
            put(&mut disk, place as usize, &[1]);
            let cache = PageCache::new(self.alloc, 2)?;
            let mut pager = Pager::over(disk, cache);
            let told = rows_of(self.alloc, &self.schema, &mut pager, 3);
            if last != Some(told) {
                writeln!(out, "  from {place} on: {told:?}")?;
                last = Some(told);
            }
        }
        Ok(())
    }

    /// Does a step. `begin` takes all pages away, `rows` and `catalogue` lay a page, `put` changes bytes, and `stop` lets so many calls of
    /// each check through. `table`, `listed` and `half` tell what the pages are, and `each` what they are with a byte at each place of a
    /// range.
    pub fn answer(&mut self, step: &str, out: &mut String) -> Result<(), AllocError> {
        let (verb, rest) = step.split_once(' ').unwrap_or((step, ""));
        match verb {
            "begin" => self.begin(),
            "rows" => self.lay(PageKind::Rows, rest),
            "catalogue" => self.lay(PageKind::Catalogue, rest),
            "put" => self.change(rest),
            "stop" => {
                self.calls = u64::from(number_in(rest).0);
                Ok(())
            }
            "each" => self.tell_each(rest, out),
            _ => self.tell(verb, rest, out),
        }
    }
}

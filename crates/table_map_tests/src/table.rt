//! A table's pages on a disk.

use crate::asked::tell_asked;
use drda_disk::{Disk, FuseDisk, MemDisk};
use row_pages::{PageBuilder, PageCache, PageKind, Pager};
use row_values::Schema;
use std::alloc::Global;
use test_bytes::bytes_of;
use test_rows::schema_of;

/// Where the table's pages lie.
pub const TABLE_AT: usize = 8_192;

/// Room for twelve pages behind the first 8,192 bytes.
pub const DISK_BYTES: usize = 106_496;

/// `PRIMARY KEY (K)` of the columns K and V.
const NARROW: [&str; 3] = ["K,SMALLINT,not,0", "V,SMALLINT,not,0", "0"];

/// `PRIMARY KEY (T, N)` of the columns T, N and F.
const WIDE: [&str; 5] = [
    "T,VARCHAR,not,2000",
    "N,INTEGER,not,0",
    "F,VARBINARY,not,2000",
    "0",
    "1",
];

/// A table's schema and its pages, and behind how many calls of one question the device fails.
#[derive(Drop)]
pub struct Table {
    alloc: Global,
    schema: Schema,
    disk: MemDisk,
    pages: usize,
    calls: u64,
}

impl Table {
    /// A narrow table without pages. None without memory.
    pub fn new(alloc: Global) -> Option<Table> {
        Some(Table {
            alloc,
            schema: schema_of(alloc, &NARROW)??,
            disk: MemDisk::new(alloc, DISK_BYTES).ok()?,
            pages: 0,
            calls: u64::MAX,
        })
    }

    /// Does what a line asks for, or tells what it comes to: `narrow` and `wide` begin a table, `page` lays a page of rows, which commas part,
    /// and `bytes` one of these bytes; `fuse` lets so many calls through. All else asks for rows. None without memory.
    pub fn answer(&mut self, line: &str, verb: &str, rest: &str, out: &mut Vec<u8>) -> Option<()> {
        match verb {
            "narrow" => self.begin(&NARROW),
            "wide" => self.begin(&WIDE),
            "page" => self.lay_rows(rest),
            "bytes" => {
                let page = bytes_of(self.alloc, &[rest]).ok()?;
                self.lay(&page);
                Some(())
            }
            "fuse" => {
                self.calls = rest.parse::<u64>().unwrap_or(0);
                Some(())
            }
            _ => self.tell(line, out),
        }
    }

    fn begin(&mut self, words: &[&str]) -> Option<()> {
        self.schema = schema_of(self.alloc, words)??;
        self.pages = 0;
        self.calls = u64::MAX;
        Some(())
    }

    // Writes a page behind the others, where the disk has room for it.
    fn lay(&mut self, page: &[u8]) {
        let at = TABLE_AT.saturating_add(self.pages.saturating_mul(8_192));
        if at <= self.disk.size() && page.len() <= self.disk.size() - at {
            let _ = self.disk.write_at(at, page);
        }
        self.pages = self.pages.saturating_add(1);
    }

    fn lay_rows(&mut self, rows: &str) -> Option<()> {
        let mut page = PageBuilder::new(self.alloc, PageKind::Rows).ok()?;
        for row in rows.split(',') {
            let bytes = bytes_of(self.alloc, &[row]).ok()?;
            if !bytes.is_empty() {
                page.try_push(&bytes);
            }
        }
        self.lay(&page.finish());
        Some(())
    }

    fn tell(&self, line: &str, out: &mut Vec<u8>) -> Option<()> {
        let cache = PageCache::new(self.alloc, 2).ok()?;
        let copy = self.disk.copy(self.alloc).ok()?;
        let mut pager = Pager::over(FuseDisk::new(copy, self.calls, false), cache);
        tell_asked(self.alloc, &self.schema, &mut pager, self.pages, line, out)
    }
}

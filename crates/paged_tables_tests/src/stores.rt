//! Tables over pages, and plain ones that are changed in the same way.

use crate::ahead::{tell_ahead, tell_found, tell_scanned};
use crate::given::Given;
use crate::held::{Held, STORE_BYTES};
use crate::lent::count_lent;
use ahead_view::Wanted;
use drda_disk::{Disk, FuseDisk, MemDisk};
use half_store::{Active, format, open};
use paged_tables::PagedTables;
use row_pages::{PageCache, Pager};
use row_values::{Schema, is_name};
use std::alloc::Global;
use tables::{Change, PlainView, Rows, TableView};
use test_rows::{say, tell};

/// Both, and changes that were not made yet, in two copies.
#[derive(Drop)]
pub struct Stores {
    alloc: Global,
    held: Held<FuseDisk<MemDisk>>,
    active: Active,
    plain: PlainView,
    changes: Vec<Change>,
    copies: Vec<Change>,
}

// A pager that keeps two pages of a disk. None without memory.
fn pager_over<D: Disk + Drop>(alloc: Global, disk: D) -> Option<Pager<D>> {
    match PageCache::new(alloc, 2) {
        Ok(cache) => Some(Pager::over(disk, cache)),
        Err(_) => None,
    }
}

// A disk with an empty store, as it is opened, which fails behind so many calls and keeps two pages.
fn new_store(alloc: Global, calls: u64) -> Option<(Pager<FuseDisk<MemDisk>>, Active)> {
    let mut disk = MemDisk::new(alloc, STORE_BYTES).ok()?;
    format(alloc, &mut disk, "TEST").ok()?;
    let active = open(alloc, &mut disk).ok()?;
    let pager = pager_over(alloc, FuseDisk::new(disk, calls, false))?;
    Some((pager, active))
}

// A store with one table of this name.
fn opened_store(
    alloc: Global,
    name: &str,
    schema: &Schema,
) -> Option<(Held<FuseDisk<MemDisk>>, Active)> {
    let table = String::from_str(alloc, name).ok()?;
    if !is_name(table.as_str().as_bytes()) {
        return None;
    }
    let copy = schema.copy(alloc).ok()?;
    let (pager, active) = new_store(alloc, u64::MAX)?;
    let held = Held::opened(alloc, pager, table, copy).ok()?;
    Some((held, active))
}

// The same table by itself.
fn plain_with(alloc: Global, name: &str, schema: &Schema) -> Option<PlainView> {
    let table = String::from_str(alloc, name).ok()?;
    if !is_name(table.as_str().as_bytes()) {
        return None;
    }
    let created = Change::create(table, schema.copy(alloc).ok()?);
    let mut plain = PlainView::new(alloc);
    plain.apply(alloc, created).ok()?;
    Some(plain)
}

// Whether rows are the same.
fn are_alike(here: &Rows, there: &Rows) -> bool {
    if here.len() != there.len() {
        return false;
    }
    for i in 0..here.len() {
        if here.row(i)[..] != there.row(i)[..] {
            return false;
        }
    }
    true
}

// This row alone, or none.
fn only(alloc: Global, row: Option<Vec<u8>>) -> Option<Rows> {
    let mut rows = Rows::new(alloc);
    if let Some(row) = row {
        rows.push(&row).ok()?;
    }
    Some(rows)
}

fn say_alike(alloc: Global, here: usize, there: usize, same: u32, out: &mut Vec<u8>) -> Option<()> {
    say(
        out,
        &format!(in alloc; "{here} tables here, {there} there; {same} alike").ok()?,
    )
}

impl Stores {
    // These, with no change.
    fn over(
        alloc: Global,
        plain: PlainView,
        (held, active): (Held<FuseDisk<MemDisk>>, Active),
    ) -> Stores {
        Stores {
            alloc,
            held,
            active,
            plain,
            changes: Vec::new(alloc),
            copies: Vec::new(alloc),
        }
    }

    /// No table, and no change, over a device that fails behind so many calls.
    pub fn new(alloc: Global, calls: u64) -> Option<Stores> {
        let (pager, active) = new_store(alloc, calls)?;
        let held = Held::new(alloc, pager);
        Some(Stores::over(alloc, PlainView::new(alloc), (held, active)))
    }

    /// One table of this name, as an opening finds it.
    pub fn opened(alloc: Global, name: &str, schema: &Schema) -> Option<Stores> {
        let plain = plain_with(alloc, name, schema)?;
        let opened = opened_store(alloc, name, schema)?;
        Some(Stores::over(alloc, plain, opened))
    }

    /// The tables over pages.
    pub fn tables(&self) -> &PagedTables {
        self.held.tables()
    }

    /// One change more that is to be made.
    pub fn lay(&mut self, change: Change) -> Option<()> {
        self.changes.push(change).ok()
    }

    /// The same change, which is to be made to the plain tables.
    pub fn lay_copy(&mut self, copy: Change) -> Option<()> {
        self.copies.push(copy).ok()
    }

    // The changes that were laid; then none are.
    fn take(&mut self) -> Vec<Change> {
        let changes = std::mem::replace(&mut self.changes, Vec::new(self.alloc));
        changes
    }

    /// Makes the changes, for which room is made first. Without memory neither store changes.
    pub fn commit(&mut self, out: &mut Vec<u8>) -> Option<()> {
        let changes = self.take();
        if self.held.commit(self.alloc, changes).is_err() {
            self.copies.clear();
            return say(out, "no memory");
        }
        self.commit_copies()
    }

    fn commit_copies(&mut self) -> Option<()> {
        let copies = std::mem::replace(&mut self.copies, Vec::new(self.alloc));
        for change in copies {
            self.plain.apply(self.alloc, change).ok()?;
        }
        Some(())
    }

    /// Makes room for the changes, and no change.
    pub fn reserve(&mut self, out: &mut Vec<u8>) -> Option<()> {
        let changes = self.take();
        self.copies.clear();
        match self.held.reserve(self.alloc, &changes) {
            Ok(()) => Some(()),
            Err(_) => say(out, "no memory"),
        }
    }

    /// Gives up the room.
    pub fn release(&mut self) {
        self.held.release();
    }

    /// Lays all rows into pages of the other half, and tells how many there are.
    pub fn checkpoint(&mut self, out: &mut Vec<u8>) -> Option<()> {
        let done = self.held.checkpoint(self.alloc, &self.active);
        match done {
            Ok(pages) => {
                self.active.half = self.active.half.other();
                say(out, &format!(in self.alloc; "{pages} pages").ok()?)
            }
            Err(error) => say(out, &format!(in self.alloc; "{error:?}").ok()?),
        }
    }

    // Whether a table shows the same, as it is or as it is lent.
    fn is_alike(&mut self, is_lent: bool, name: &str) -> Option<bool> {
        let there = self.plain.scan(self.alloc, name).ok()?;
        let here = self.held.rows(self.alloc, name, is_lent).ok()?;
        Some(are_alike(&here, &there))
    }

    /// Tells how many tables both have, and how many of these names they show alike, as they are or as they are lent.
    pub fn compare(&mut self, are_lent: bool, names: &[&str], out: &mut Vec<u8>) -> Option<()> {
        let mut same = 0_u32;
        for name in names {
            same = same.wrapping_add(u32::from(self.is_alike(are_lent, name)?));
        }
        let here = if are_lent {
            count_lent(self.held.tables())
        } else {
            self.held.tables().count()
        };
        say_alike(self.alloc, here, self.plain.tables().ok()?, same, out)
    }

    /// Tells whether there is a table.
    pub fn tell_known(&self, name: &str, out: &mut Vec<u8>) -> Option<()> {
        let schema = self.held.tables().schema(name).ok()?;
        say(out, if schema.is_some() { "known" } else { "unknown" })
    }

    /// Tells the row of a key.
    pub fn tell_row(&mut self, name: &str, key: &[u8], out: &mut Vec<u8>) -> Option<()> {
        let found = self.held.row(self.alloc, name, key);
        tell_found(self.alloc, found, out)
    }

    /// Tells the rows of a table, in their order.
    pub fn tell_rows(&mut self, name: &str, out: &mut Vec<u8>) -> Option<()> {
        let found = self.held.rows(self.alloc, name, false);
        tell_scanned(self.alloc, found, out)
    }

    /// Tells the row of this key as a statement sees it, for which the row of the other key was read.
    pub fn tell_ahead(
        &mut self,
        name: &str,
        read: &[u8],
        asked: &[u8],
        out: &mut Vec<u8>,
    ) -> Option<()> {
        let row = self.held.row(self.alloc, name, read).ok()?;
        let mut given = Given::new(only(self.alloc, row)?);
        let wanted = Wanted::Row {
            table: name,
            key: read,
        };
        tell_ahead(
            self.alloc,
            self.held.tables(),
            &mut given,
            wanted,
            (name, Some(asked)),
            out,
        )
    }

    /// Tells what a statement sees of a table's rows, for which those of the other table were read.
    pub fn tell_all_ahead(&mut self, read: &str, asked: &str, out: &mut Vec<u8>) -> Option<()> {
        let rows = self.held.rows(self.alloc, read, false).ok()?;
        let mut given = Given::new(rows);
        let wanted = Wanted::Rows { table: read };
        tell_ahead(
            self.alloc,
            self.held.tables(),
            &mut given,
            wanted,
            (asked, None),
            out,
        )
    }
}

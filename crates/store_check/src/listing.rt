//! The pages of a catalogue.
ghost use Rattle.std.specs.Prelude.{◌≡◌, ◌+◌, ◌*◌, ◌^◌, ◌<◌, ◌≤◌, ◌++◌, ℕ, List, true, IsTrue, OnOk, IfOk, IfErr, length, map};
ghost use Rattle.drda_words.specs.Place.{part};
ghost use Rattle.drda_disk.specs.Disk.{Stays};
ghost use Rattle.drda_disk.specs.Layout.{page_bytes};
ghost use Rattle.checkpoint_writer.specs.Catalogue.{entry_of};
ghost use Rattle.store_check.specs.Errors.{CountsCheck, catalogue_error};
ghost use Rattle.store_check.specs.Listed.{ChecksCatalogue, are_listed, first_page_of, is_before, lie_from, names_rise};
ghost use Rattle.store_check.specs.Judging.{JudgesEntries};
ghost use Rattle.store_check.specs.declared.errors.CheckError.TheVariants.{NoMemory};

use crate::CheckError;
use checkpoint_writer::{CatalogueError, StoredTable, read_catalogue};
use drda_disk::{Disk, PAGE_BYTES};
use row_pages::Pager;
use std::alloc::Global;
use std::cmp::Ordering;

/// Whether a table's name comes before that of the next one, where there is one.
fn is_before(table: &StoredTable, rest: &[StoredTable]) -> bool
    ensures { result ≡ is_before (entry_of table.now) (map entry_of rest.now) }
{
    match rest {
        [next, ..] => match table.name.as_bytes().cmp(next.name.as_bytes()) {
            Ordering::Less => true,
            Ordering::Equal => false,
            Ordering::Greater => false,
        },
        [] => true,
    }
}

/// Whether each name comes before the next one.
fn names_rise(tables: &[StoredTable]) -> bool
    ensures { result ≡ names_rise (map entry_of tables.now) }
{
    let mut left = tables;
    while let [table, rest @ ..] = left {
        if !is_before(table, rest) {
            return false;
        }
        left = rest;
    }
    true
}

/// The number of a table's first page, where those in front of it end at this one.
fn first_page_of(next: usize, table: &StoredTable) -> usize
    ensures { result ≡ first_page_of next (entry_of table.now) }
{
    if table.pages == 0 { 0 } else { next }
}

/// Whether the pages of tables lie one behind another from the first page on, none past the last.
fn lie_from_first(tables: &[StoredTable], last: usize) -> bool
    requires { last < 2 ^ 40 }
    ensures { result ≡ lie_from 0 last (map entry_of tables.now) }
{
    let mut next = 0;
    let mut left = tables;
    while let [table, rest @ ..] = left {
        if table.first_page as usize != first_page_of(next, table) {
            return false;
        }
        next += table.pages as usize;
        if next > last {
            return false;
        }
        left = rest;
    }
    true
}

/// Whether these are the tables of a catalogue in whose half there are so many pages for rows.
fn are_listed(tables: &[StoredTable], last: usize) -> bool
    requires { last < 2 ^ 40 }
    ensures { result ≡ are_listed last (map entry_of tables.now) }
{
    names_rise(tables) && lie_from_first(tables, last)
}

/// The error that one of a catalogue's reader is.
fn check_error(error: CatalogueError) -> CheckError
    ensures { result ≡ catalogue_error error }
{
    match error {
        CatalogueError::NoMemory => CheckError::NoMemory,
        CatalogueError::DeviceFailed => CheckError::DeviceFailed,
        CatalogueError::Damaged { at } => CheckError::Damaged { at },
    }
}

/// Puts tables behind others.
fn push_all(tables: &mut Vec<StoredTable>, more: Vec<StoredTable>) -> Result<(), CheckError>
    ensures items { OnOk result (tables.new.items ≡ tables.old.items ++ more.items) }
    ensures cause { (n : ℕ) → CountsCheck result n n }
    ensures fault { IfErr result (λ e. e ≡ NoMemory) }
{
    let mut more = more;
    match tables.append(&mut more) {
        Ok(()) => Ok(()),
        Err(_) => Err(CheckError::NoMemory),
    }
}

/// Puts the tables of the page at an offset behind those of the pages in front of it. With them they
/// are those of a catalogue, or the page is damaged; so is one without tables.
fn add_page<D: Disk>(
    alloc: Global,
    pager: &mut Pager<D>,
    at: usize,
    last: usize,
    tables: &mut Vec<StoredTable>,
) -> Result<(), CheckError>
    requires small { at + page_bytes ≤ 2 ^ 40 }
    requires last { last < 2 ^ 40 }
    requires inside { at + page_bytes ≤ length (D.life pager.old).seen }
    ensures told { IsTrue D.is_modelled → JudgesEntries (part (D.life pager.old).seen at page_bytes) at last tables.old.items result tables.new.items }
    ensures listed { OnOk result (are_listed last (map entry_of tables.new.items) ≡ true) }
    ensures stays { Stays (D.life pager.old) (D.life pager.new) }
    ensures cause { CountsCheck result (D.life pager.old).faults (D.life pager.new).faults }
{
    row_pages::laws::one_page();
    let found = match read_catalogue(alloc, pager, at, 1) {
        Ok(found) => found,
        Err(error) => return Err(check_error(error)),
    };
    if found.is_empty() {
        return Err(CheckError::Damaged { at });
    }
    push_all(tables, found)?;
    if are_listed(tables, last) {
        Ok(())
    } else {
        Err(CheckError::Damaged { at })
    }
}

/// Checks the pages of a catalogue, so many from an offset on, in a half whose first so many pages
/// are for rows: each is a page of a catalogue that has rows, a table in each, the names of the tables rise
/// from row to row and from page to page, and the pages of each table begin where those of the tables
/// in front of it end, the first at page 0, and none passes the pages for rows. The number of the
/// first page of a table without pages is 0. The tables are returned in their order.
///
/// `Damaged` comes exactly where the pages are not so, and tells where the first page lies with which
/// they are not. Nothing is written.
pub fn check_catalogue<D: Disk>(
    alloc: Global,
    pager: &mut Pager<D>,
    at: usize,
    count: usize,
    last: usize,
) -> Result<Vec<StoredTable>, CheckError>
    requires small { at + page_bytes * count ≤ 2 ^ 40 }
    requires last { last < 2 ^ 40 }
    requires inside { at + page_bytes * count ≤ length (D.life pager.old).seen }
    ensures told { IsTrue D.is_modelled → ChecksCatalogue (D.life pager.old).seen at count last result }
    ensures listed { IfOk result (λ tables. are_listed last (map entry_of tables.items) ≡ true) }
    ensures stays { Stays (D.life pager.old) (D.life pager.new) }
    ensures cause { CountsCheck result (D.life pager.old).faults (D.life pager.new).faults }
{
    let mut tables = Vec::new(alloc);
    for page in 0..count {
        add_page(alloc, pager, at + PAGE_BYTES * page, last, &mut tables)?;
    }
    Ok(tables)
}

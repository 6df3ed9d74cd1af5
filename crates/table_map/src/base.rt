//! The rows of a table's pages, one page at a time.
ghost use Rattle.std.specs.Prelude.{◌≡◌, ◌+◌, ◌*◌, ◌^◌, ◌<◌, ◌≤◌, [], IfSome, IsTrue, None, OnOk, length};
ghost use Rattle.std.specs.List.{slice_get};
ghost use Rattle.drda_words.specs.Place.{part};
ghost use Rattle.drda_disk.specs.Disk.{Stays};
ghost use Rattle.drda_disk.specs.Layout.{page_bytes};
ghost use Rattle.row_pages.specs.Keeping.{CountsPageFault};
ghost use Rattle.table_map.specs.Damage.{DamagedWhere, HasNoRows};
ghost use Rattle.table_map.specs.Keyed.{seen};
ghost use Rattle.table_map.specs.Walk.{GivesRow, IsFirstRow, IsLoaded, Loads, TakesPage, page_rows};

use drda_disk::{Disk, PAGE_BYTES};
use row_pages::{KeptPage, PageFault, read_page};
use std::alloc::Global;
use std::marker::Model;

/// The rows of pages that are left: those of the page that was read, where they lie in it, and the
/// pages that come. It has that page in memory of its own.
#[derive(Drop)]
pub(crate) struct RowsLeft {
    at: usize,
    pages: usize,
    page: Option<KeptPage>,
    /// How many rows of the page were given.
    given: usize,
}

impl Model for RowsLeft {
    ghost use Rattle.std.specs.Prelude.{◌+◌, ◌*◌, ◌^◌, ◌≤◌, drop};
    ghost use Rattle.drda_disk.specs.Layout.{page_bytes};
    ghost use Rattle.table_map.specs.Walk.{PagesLeft, last_of, page_rows};

    ghost Value = { PagesLeft };

    ghost view = { λ r. record { at = r.at; pages = r.pages; rows = drop r.given (page_rows r.page); last = last_of r.given (page_rows r.page) } };

    ghost invariant = { λ r. r.at + page_bytes * r.pages ≤ 2 ^ 40 };
}

/// How many rows a page has that may have been read.
fn row_count(page: &Option<KeptPage>) -> usize
    ensures { result ≡ length (page_rows page.now) }
{
    match page {
        Some(page) => page.len(),
        None => 0,
    }
}

/// Its row of this number, where there is one.
fn row_of(page: &Option<KeptPage>, number: usize) -> Option<&[u8]>
    ensures { seen result ≡ slice_get (page_rows page.now) number }
{
    match page {
        Some(page) if number < page.len() => Some(page.row(number)),
        _ => None,
    }
}

impl RowsLeft {
    /// The rows of so many pages, from an offset on.
    pub(crate) fn new(at: usize, pages: usize) -> RowsLeft
        requires { at + page_bytes * pages ≤ 2 ^ 40 }
        ensures { result ≡ record { at = at; pages = pages; rows = []; last = None } }
    {
        RowsLeft {
            at,
            pages,
            page: None,
            given: 0,
        }
    }

    /// Reads the next page where no row is left of the last one. A page without rows is damaged.
    pub(crate) fn settle<D: Disk>(&mut self, alloc: Global, disk: &mut D) -> Result<(), PageFault>
        requires { self.old.at + page_bytes * self.old.pages ≤ length (D.life disk.old).seen }
        ensures rows { IsTrue D.is_modelled → OnOk result (Loads (D.life disk.old).seen self.old self.new) }
        ensures damaged { IsTrue D.is_modelled → DamagedWhere ((0 < self.old.pages) × HasNoRows (part (D.life disk.old).seen self.old.at page_bytes)) result }
        ensures settled { OnOk result (IsLoaded self.new) }
        ensures end { self.new.at + page_bytes * self.new.pages ≡ self.old.at + page_bytes * self.old.pages }
        ensures forward { self.old.at ≤ self.new.at }
        ensures weight { self.new.pages * 2 ^ 64 + length self.new.rows ≤ self.old.pages * 2 ^ 64 + length self.old.rows }
        ensures stays { Stays (D.life disk.old) (D.life disk.new) }
        ensures cause { CountsPageFault result (D.life disk.old).faults (D.life disk.new).faults }
    {
        if self.first().is_some() || self.pages == 0 {
            return Ok(());
        }
        let page = read_page(alloc, disk, self.at)?;
        if page.len() == 0 {
            return Err(PageFault::Damaged);
        }
        self.page = Some(page);
        self.given = 0;
        self.at += PAGE_BYTES;
        self.pages -= 1;
        Ok(())
    }

    /// The first row that is left of the page that was read.
    pub(crate) fn first(&self) -> Option<&[u8]>
        ensures { IsFirstRow self.now.rows result }
    {
        row_of(&self.page, self.given)
    }

    /// Gives that row, where there is one.
    pub(crate) fn give(&mut self)
        ensures rows { GivesRow self.old.rows self.new }
        ensures at { self.new.at ≡ self.old.at }
        ensures pages { self.new.pages ≡ self.old.pages }
    {
        if self.given < row_count(&self.page) {
            self.given += 1;
        }
    }

    /// The page that was read, where none of its rows was given.
    pub(crate) fn whole(&self) -> Option<&KeptPage>
        ensures { IfSome result (λ page. self.now.rows ≡ page.now.rows) }
    {
        match &self.page {
            Some(page) if self.given == 0 => Some(page),
            _ => None,
        }
    }

    /// Gives the page that was read, where none of its rows was given.
    pub(crate) fn take_page(&mut self) -> Option<KeptPage>
        ensures { TakesPage self.old result self.new }
    {
        if self.given > 0 {
            return None;
        }
        self.page.take()
    }

    /// The row that was given last, where it lies.
    pub(crate) fn last(&self) -> Option<&[u8]>
        ensures { seen result ≡ self.now.last }
    {
        if self.given == 0 {
            return None;
        }
        row_of(&self.page, self.given - 1)
    }
}

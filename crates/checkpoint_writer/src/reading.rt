//! Reading the catalogue of a store.
ghost use Rattle.std.specs.Prelude.{◌≡◌, ◌+◌, ◌*◌, ◌^◌, ◌≤◌, ◌++◌, ◌∷◌, [], ℕ, List, Some, IsTrue, OnOk, IfOk, length, map, option_map};
ghost use Rattle.drda_words.specs.Place.{part};
ghost use Rattle.drda_disk.specs.Disk.{Stays};
ghost use Rattle.drda_disk.specs.Layout.{page_bytes};
ghost use Rattle.row_values.specs.Bytes.{Reads};
ghost use Rattle.row_pages.specs.Page.{IsPage};
ghost use Rattle.checkpoint_writer.specs.Catalogue.{CatalogueIsRead, entries_in, entry_of};
ghost use Rattle.checkpoint_writer.specs.ReadCatalogue.{CountsCatalogue, ReadsBytes, TellsCatalogue, catalogue_error};

use crate::StoredTable;
use crate::entry::read_entry;
use drda_disk::{Disk, PAGE_BYTES};
use row_pages::{KeptPage, PageFault, PageKind, Pager};
use row_values::ReadError;
use std::alloc::Global;
use thiserror::Error;

/// Why no catalogue was read.
#[derive(Clone, Copy, Debug, PartialEq, Eq, Error)]
pub enum CatalogueError {
    #[error("no memory")]
    NoMemory,
    #[error("the device failed")]
    DeviceFailed,
    /// The page at this offset of the disk is no page of a catalogue.
    #[error("a page is damaged at {at}")]
    Damaged { at: usize },
}

/// Appends the tables that the rows of a page are.
fn push_rows(alloc: Global, tables: &mut Vec<StoredTable>, page: &KeptPage) -> Result<(), ReadError>
    ensures { Reads (λ _. map entry_of tables.new.items) result (option_map (λ entries. map entry_of tables.old.items ++ entries) (entries_in page.now.rows)) }
{
    let mut rows = page.page_ref().rows();
    while let Some(row) = rows.next() {
        let table = match read_entry(alloc, row) {
            Ok(table) => table,
            Err(error) => return Err(error),
        };
        if tables.push(table).is_err() {
            return Err(ReadError::NoMemory);
        }
    }
    Ok(())
}

/// The error that a fault of the page at an offset is.
fn error_at(at: usize, fault: PageFault) -> CatalogueError
    ensures { result ≡ catalogue_error at fault }
{
    match fault {
        PageFault::NoMemory => CatalogueError::NoMemory,
        PageFault::DeviceFailed => CatalogueError::DeviceFailed,
        PageFault::Damaged => CatalogueError::Damaged { at },
    }
}

/// The tables of a page that lies at an offset.
fn push_page(
    alloc: Global,
    tables: &mut Vec<StoredTable>,
    page: &KeptPage,
    at: usize,
) -> Result<(), CatalogueError>
    ensures told { (bytes : List ℕ) → IsPage page.now bytes → ReadsBytes bytes at tables.old.items result tables.new.items }
    ensures cause { (n : ℕ) → CountsCatalogue result n n }
{
    row_pages::laws::one_page();
    if page.page_ref().kind() != PageKind::Catalogue {
        return Err(CatalogueError::Damaged { at });
    }
    match push_rows(alloc, tables, page) {
        Ok(()) => Ok(()),
        Err(ReadError::Damaged) => Err(CatalogueError::Damaged { at }),
        Err(ReadError::NoMemory) => Err(CatalogueError::NoMemory),
    }
}

/// Appends the tables of the page at an offset.
fn read_page<D: Disk>(
    alloc: Global,
    pager: &mut Pager<D>,
    at: usize,
    tables: &mut Vec<StoredTable>,
) -> Result<(), CatalogueError>
    requires { at + page_bytes ≤ length (D.life pager.old).seen }
    ensures told { IsTrue D.is_modelled → ReadsBytes (part (D.life pager.old).seen at page_bytes) at tables.old.items result tables.new.items }
    ensures stays { Stays (D.life pager.old) (D.life pager.new) }
    ensures cause { CountsCatalogue result (D.life pager.old).faults (D.life pager.new).faults }
{
    match pager.page(alloc, at) {
        Ok(page) => push_page(alloc, tables, page, at),
        Err(fault) => Err(error_at(at, fault)),
    }
}

/// The tables of a catalogue, so many pages from an offset on, in the order of their rows. `Damaged`
/// comes exactly where one of these is no page of a catalogue with a table in each row, and tells where
/// the first of them lies.
pub fn read_catalogue<D: Disk>(
    alloc: Global,
    pager: &mut Pager<D>,
    at: usize,
    pages: usize,
) -> Result<Vec<StoredTable>, CatalogueError>
    requires small { at + page_bytes * pages ≤ 2 ^ 40 }
    requires inside { at + page_bytes * pages ≤ length (D.life pager.old).seen }
    ensures told { IsTrue D.is_modelled → TellsCatalogue (D.life pager.old).seen at pages result }
    ensures stays { Stays (D.life pager.old) (D.life pager.new) }
    ensures cause { CountsCatalogue result (D.life pager.old).faults (D.life pager.new).faults }
{
    let mut tables = Vec::new(alloc);
    let mut next = at;
    let mut left = pages;
    while left > 0 {
        read_page(alloc, pager, next, &mut tables)?;
        next += PAGE_BYTES;
        left -= 1;
    }
    Ok(tables)
}

/// A catalogue that was written is read back: its pages have the tables that were given, in their order.
pub fn catalogues_are_read()
    ensures { CatalogueIsRead }
{
    row_pages::laws::one_laying();
}

//! Tables, and the disk on which their pages lie.
ghost use Rattle.std.specs.Prelude.{◌≡◌, ◌+◌, ◌*◌, ◌≤◌, IfOk, length, true};
ghost use Rattle.std.specs.String.{string_bytes};
ghost use Rattle.row_values.specs.Schema.{is_name};
ghost use Rattle.drda_disk.specs.Disk.{Stays};
ghost use Rattle.half_store.specs.Writing.{from_of, half_bytes_of};
ghost use Rattle.paged_tables.specs.Stored.{LiesInside};
ghost use Rattle.paged_tables.specs.TablesByName.{AreLaid, LieInside, created_of};

use crate::lent::scan_lent;
use checkpoint_writer::{ImageError, merge_into};
use drda_disk::Disk;
use half_store::{Active, ImageWriter, begin_image};
use paged_tables::{PagedTables, TableRef};
use row_pages::{PageFault, Pager};
use row_values::Schema;
use std::alloc::{AllocError, Global};
use std::marker::Model;
use table_map::{NotedPages, NotedRows, SchemaKeys, TablePages};
use tables::{Change, Rows};

/// The bytes of a store.
pub const STORE_BYTES: usize = 2_097_152;

/// Tables whose pages lie on a disk.
#[derive(Drop)]
pub struct Held<D: Disk> {
    tables: PagedTables,
    pager: Pager<D>,
}

impl<D: Disk> Model for Held<D> {
    ghost use Rattle.std.specs.Prelude.{length};
    ghost use Rattle.paged_tables.specs.declared.store.PagedTables.{PagedTables};
    ghost use Rattle.paged_tables.specs.TablesByName.{LieInside};

    ghost Value = { PagedTables };

    ghost view = { λ h. h.tables };

    ghost invariant = { λ h. LieInside (length (D.life h.pager).seen) h.tables.tables };
}

impl<D: Disk> Held<D> {
    /// No tables.
    pub fn new(alloc: Global, pager: Pager<D>) -> Held<D> {
        Held {
            tables: PagedTables::new(alloc),
            pager,
        }
    }

    /// The tables.
    pub fn tables(&self) -> &PagedTables {
        &self.tables
    }

    /// The row of a key.
    pub fn row(
        &mut self,
        alloc: Global,
        name: &str,
        key: &[u8],
    ) -> Result<Option<Vec<u8>>, PageFault> {
        let found = self.tables.row(alloc, &mut self.pager, name, key)?;
        Ok(found.row)
    }

    /// All rows of a table, as it is or as it is lent.
    pub fn rows(&mut self, alloc: Global, name: &str, is_lent: bool) -> Result<Rows, PageFault> {
        if is_lent {
            return scan_lent(alloc, &self.tables, &mut self.pager, name);
        }
        self.tables.rows(alloc, &mut self.pager, name)
    }

    /// Makes room for changes.
    pub fn reserve(&mut self, alloc: Global, changes: &[Change]) -> Result<(), AllocError> {
        self.tables.reserve(alloc, changes)
    }

    /// Makes changes, for which room is made first.
    pub fn commit(&mut self, alloc: Global, changes: Vec<Change>) -> Result<(), AllocError> {
        self.tables.reserve(alloc, &changes)?;
        self.tables.apply_reserved(alloc, changes);
        Ok(())
    }

    /// Gives up room.
    pub fn release(&mut self) {
        self.tables.release();
    }

    /// Lays all rows into the half that is not active, and goes on over those pages. Tells how many there are.
    pub fn checkpoint(&mut self, alloc: Global, active: &Active) -> Result<u32, ImageError> {
        if self.pager.size() != STORE_BYTES {
            return Err(ImageError::Damaged);
        }
        let mut image = begin_image(&mut self.pager, active)?;
        let pages = lay_all(alloc, &self.tables, &mut self.pager, &mut image)?;
        if pages.len() != self.tables.count() {
            return Err(ImageError::Damaged);
        }
        self.tables.relaid(alloc, pages);
        Ok(image.pages())
    }
}

impl<D: Disk + Drop> Held<D> {
    /// One table without pages, as an opening finds it.
    pub fn opened(
        alloc: Global,
        pager: Pager<D>,
        name: String,
        schema: Schema,
    ) -> Result<Held<D>, AllocError>
        requires { is_name (string_bytes name) ≡ true }
    {
        let mut tables = PagedTables::new(alloc);
        let pages = NotedPages {
            pages: TablePages::new(0, Vec::new(alloc)),
            rows: NotedRows::none(),
        };
        tables.add(alloc, name, schema, pages)?;
        Ok(Held { tables, pager })
    }
}

// Lays all rows of a table. Gives its pages.
fn lay<D: Disk>(
    alloc: Global,
    table: &TableRef<'_>,
    disk: &mut D,
    image: &mut ImageWriter,
) -> Result<TablePages, ImageError>
    requires table { table.now.rows.now.places.at + 8192 * length table.now.rows.now.places.keys ≤ length (D.life disk.old).seen }
    requires inside { from_of image.old + half_bytes_of image.old ≤ length (D.life disk.old).seen }
    ensures size { length (D.life disk.new).seen ≡ length (D.life disk.old).seen }
    ensures same { from_of image.new + half_bytes_of image.new ≡ from_of image.old + half_bytes_of image.old }
    ensures end { IfOk result (λ pages. pages.at + 8192 * length pages.keys ≤ length (D.life disk.old).seen) }
{
    let keys = SchemaKeys {
        schema: table.schema,
    };
    let written = merge_into(alloc, &keys, table.rows, disk, image)?;
    let end = image.finish_pages();
    if end.at > disk.size() {
        return Err(ImageError::Damaged);
    }
    Ok(written.pages)
}

// Lays all rows of all tables, one behind another. Gives the pages of each.
fn lay_all<D: Disk>(
    alloc: Global,
    tables: &PagedTables,
    disk: &mut D,
    image: &mut ImageWriter,
) -> Result<Vec<TablePages>, ImageError>
    requires lie { LieInside (length (D.life disk.old).seen) tables.now.tables }
    requires inside { from_of image.old + half_bytes_of image.old ≤ length (D.life disk.old).seen }
    ensures size { length (D.life disk.new).seen ≡ length (D.life disk.old).seen }
    ensures laid { IfOk result (λ pages. AreLaid (LiesInside (length (D.life disk.old).seen)) pages.items (created_of tables.now.tables)) }
{
    let mut pages = Vec::new(alloc);
    let mut left = tables.lend();
    while let Some(table) = left.next_table() {
        let laid = lay(alloc, &table, disk, image)?;
        if pages.push(laid).is_err() {
            return Err(ImageError::NoMemory);
        }
    }
    Ok(pages)
}

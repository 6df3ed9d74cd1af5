//! Writing all rows of a table into an image.
ghost use Rattle.std.specs.Prelude.{◌≡◌, ◌+◌, ◌*◌, ◌≤◌, ◌++◌, ◌∷◌, [], ℕ, List, true, IsTrue, OnOk, IfOk, length};
ghost use Rattle.row_pages.specs.Laying.{IsShort, laid};
ghost use Rattle.std.specs.List.{AllByRecursion};
ghost use Rattle.drda_disk.specs.Layout.{page_bytes};
ghost use Rattle.half_store.specs.Writing.{from_of, half_bytes_of, next_of};
ghost use Rattle.table_map.specs.Stored.{IsStored};
ghost use Rattle.table_map.specs.Table.{rows_of_table, without_keys};
ghost use Rattle.checkpoint_writer.specs.Adding.{AddsPages, AreLast, end_of_half};
ghost use Rattle.checkpoint_writer.specs.Errors.{CountsImage, DamagedWhere, TellsFull};
ghost use Rattle.checkpoint_writer.specs.Stored.{LieApart, HaveKeys, IsImageOf};

use crate::ImageError;
use crate::rows::RowWriter;
use crate::steps::Merging;
use drda_disk::Disk;
use half_store::ImageWriter;
use row_pages::{KeptPage, PageKind};
use std::alloc::{AllocError, Global};
use table_map::{NotedPages, NotedRows, RowKeys, TableMap, TablePages};

/// The bytes of the longest row that stands in a page.
const LONGEST_ROW_BYTES: usize = 8_187;

/// Lays the rows of a table, and keeps the key of each page's first row.
#[derive(Drop)]
pub(crate) struct TableWriter {
    pub(crate) rows: RowWriter,
    pub(crate) first_keys: Vec<Vec<u8>>,
}

/// Puts a key behind others.
fn push_key(keys: &mut Vec<Vec<u8>>, key: Vec<u8>) -> Result<(), AllocError>
    ensures { OnOk result (keys.new.items ≡ keys.old.items ++ key ∷ []) }
{
    match keys.push(key) {
        Ok(()) => Ok(()),
        Err(_) => Err(AllocError),
    }
}

impl TableWriter {
    ghost use Rattle.key_map.specs.Merging.{Rows};
    ghost use Rattle.table_map.specs.Whole.{TakesMore};
    ghost use Rattle.checkpoint_writer.specs.Laying.{BeginsPage};
    ghost use Rattle.checkpoint_writer.specs.Writing.{HasLaid, HasLaidAt};

    /// No rows yet.
    pub(crate) fn new(alloc: Global) -> Result<TableWriter, AllocError>
        ensures rows { IfOk result (λ writer. writer.rows.page ≡ record { kind = PageKind.Rows; rows = [] }) }
        ensures empty { IfOk result (λ writer. writer.rows.is_empty ≡ true) }
        ensures keys { IfOk result (λ writer. writer.first_keys.items ≡ []) }
    {
        Ok(TableWriter {
            rows: RowWriter::new(alloc, PageKind::Rows)?,
            first_keys: Vec::new(alloc),
        })
    }

    /// Lays a row behind the others. One that is too long for a page is damaged.
    pub(crate) fn add<K: RowKeys, D: Disk>(
        &mut self,
        alloc: Global,
        keys: &K,
        disk: &mut D,
        image: &mut ImageWriter,
        row: &[u8],
    ) -> Result<(), ImageError>
        requires inside { from_of image.old + half_bytes_of image.old ≤ length (D.life disk.old).seen }
        ensures adds { AddsPages D.is_modelled (D.life disk.old) (D.life disk.new) image.old image.new }
        ensures laid { (start : ℕ) (rows : List (List ℕ)) → HasLaid D.is_modelled (K.key_of keys.now) (D.life disk.old).seen start image.old self.old rows
            → OnOk result (HasLaid D.is_modelled (K.key_of keys.now) (D.life disk.new).seen start image.new self.new (rows ++ row.now ∷ [])) }
        ensures full { (start : ℕ) (rows rest : List (List ℕ)) → HasLaid D.is_modelled (K.key_of keys.now) (D.life disk.old).seen start image.old self.old rows
            → TellsFull result (end_of_half image.old) (start + page_bytes * length (laid (rows ++ row.now ∷ rest))) }
        ensures damaged { DamagedWhere (IsShort row.now → ⊥) result }
        ensures cause { CountsImage result (D.life disk.old).faults (D.life disk.new).faults }
    {
        if row.len() > LONGEST_ROW_BYTES {
            return Err(ImageError::Damaged);
        }
        if self.rows.add(alloc, disk, image, row)? {
            push_key(&mut self.first_keys, keys.key(alloc, row)?)?;
        }
        Ok(())
    }

    /// The bytes that a row may take, with two for its length, to stand in the page that is being filled; none
    /// where that has no rows.
    pub(crate) fn room(&self) -> usize
        ensures { (rows : List (List ℕ)) → TakesMore result rows → BeginsPage self.now.rows rows }
    {
        self.rows.room()
    }

    /// Lays the rows of a page behind the others, where they begin a page, and keeps the key of the first.
    pub(crate) fn add_page<K: RowKeys, D: Disk>(
        &mut self,
        alloc: Global,
        keys: &K,
        disk: &mut D,
        image: &mut ImageWriter,
        page: KeptPage,
    ) -> Result<(), ImageError>
        requires begins { BeginsPage self.old.rows page.rows }
        requires inside { from_of image.old + half_bytes_of image.old ≤ length (D.life disk.old).seen }
        ensures adds { AddsPages D.is_modelled (D.life disk.old) (D.life disk.new) image.old image.new }
        ensures laid { (start : ℕ) (rows : List (List ℕ)) → HasLaid D.is_modelled (K.key_of keys.now) (D.life disk.old).seen start image.old self.old rows
            → OnOk result (HasLaid D.is_modelled (K.key_of keys.now) (D.life disk.new).seen start image.new self.new (rows ++ page.rows)) }
        ensures full { (start : ℕ) (rows rest : List (List ℕ)) → HasLaid D.is_modelled (K.key_of keys.now) (D.life disk.old).seen start image.old self.old rows
            → TellsFull result (end_of_half image.old) (start + page_bytes * length (laid (rows ++ (page.rows ++ rest)))) }
        ensures damaged { DamagedWhere ⊥ result }
        ensures cause { CountsImage result (D.life disk.old).faults (D.life disk.new).faults }
    {
        let key = keys.key(alloc, page.row(0))?;
        self.rows.add_page(disk, image, page)?;
        push_key(&mut self.first_keys, key)?;
        Ok(())
    }

    /// Lays a row of this key behind the others. One that is too long for a page is damaged.
    pub(crate) fn add_at<D: Disk>(
        &mut self,
        alloc: Global,
        disk: &mut D,
        image: &mut ImageWriter,
        key: &[u8],
        row: &[u8],
    ) -> Result<(), ImageError>
        requires inside { from_of image.old + half_bytes_of image.old ≤ length (D.life disk.old).seen }
        ensures adds { AddsPages D.is_modelled (D.life disk.old) (D.life disk.new) image.old image.new }
        ensures laid { (start : ℕ) (rows : Rows) → HasLaidAt D.is_modelled (D.life disk.old).seen start image.old self.old rows
            → OnOk result (HasLaidAt D.is_modelled (D.life disk.new).seen start image.new self.new (rows ++ (key.now, row.now) ∷ [])) }
        ensures full { (start : ℕ) (rows : Rows) (rest : List (List ℕ)) → HasLaidAt D.is_modelled (D.life disk.old).seen start image.old self.old rows
            → TellsFull result (end_of_half image.old) (start + page_bytes * length (laid (without_keys rows ++ row.now ∷ rest))) }
        ensures damaged { DamagedWhere (IsShort row.now → ⊥) result }
        ensures cause { CountsImage result (D.life disk.old).faults (D.life disk.new).faults }
    {
        if row.len() > LONGEST_ROW_BYTES {
            return Err(ImageError::Damaged);
        }
        if self.rows.add(alloc, disk, image, row)? {
            push_key(&mut self.first_keys, Vec::from_slice(alloc, key)?)?;
        }
        Ok(())
    }
}

/// Writes all rows of a table, in the order of their keys, into pages behind those that the image has, so that a page ends only where the
/// next row does not fit. A page of which no row has changed is copied whole, where its first row begins a page. No rows take no page.
/// Where the pages lie then is returned, with the key of each one's first row, and the rows are noted beside it.
///
/// `Full` is told only where the half has no room for all of the pages and a gate behind them. Of a table whose pages stand there `Damaged`
/// is told only where one of all rows is too long for a page; of another one where a page that is read is none or has no rows, too. After a
/// fault some of the pages may have been written. At any moment the active half stays what it is.
pub fn merge_into<K: RowKeys, D: Disk>(
    alloc: Global,
    keys: &K,
    table: &TableMap,
    disk: &mut D,
    image: &mut ImageWriter,
) -> Result<NotedPages, ImageError>
    requires table { table.now.places.at + page_bytes * length table.now.places.keys ≤ length (D.life disk.old).seen }
    requires inside { from_of image.old + half_bytes_of image.old ≤ length (D.life disk.old).seen }
    ensures adds { AddsPages D.is_modelled (D.life disk.old) (D.life disk.new) image.old image.new }
    ensures last { IfOk result (λ written. AreLast image.old image.new written.pages) }
    ensures rows { (pages : List (List (List ℕ))) → IsTrue D.is_modelled → IsStored (K.key_of keys.now) table.now.places pages (D.life disk.old).seen
        → LieApart table.now.places image.old → HaveKeys (K.key_of keys.now) (rows_of_table (K.key_of keys.now) table.now pages)
        → IfOk result (λ written. IsImageOf (K.key_of keys.now) (rows_of_table (K.key_of keys.now) table.now pages) written.pages (D.life disk.new).seen) }
    ensures noted { (pages : List (List (List ℕ))) → IsTrue D.is_modelled → IsStored (K.key_of keys.now) table.now.places pages (D.life disk.old).seen
        → LieApart table.now.places image.old
        → IfOk result (λ written. written.rows.listed.value ≡ without_keys (rows_of_table (K.key_of keys.now) table.now pages)) }
    ensures full { (pages : List (List (List ℕ))) → IsTrue D.is_modelled → IsStored (K.key_of keys.now) table.now.places pages (D.life disk.old).seen
        → LieApart table.now.places image.old
        → TellsFull result (end_of_half image.old) (next_of image.old + page_bytes * length (laid (without_keys (rows_of_table (K.key_of keys.now) table.now pages)))) }
    ensures damaged { (pages : List (List (List ℕ))) → IsTrue D.is_modelled → IsStored (K.key_of keys.now) table.now.places pages (D.life disk.old).seen
        → LieApart table.now.places image.old
        → DamagedWhere (AllByRecursion IsShort (without_keys (rows_of_table (K.key_of keys.now) table.now pages)) → ⊥) result }
    ensures cause { CountsImage result (D.life disk.old).faults (D.life disk.new).faults }
{
    row_pages::laws::one_laying();
    key_map::laws::changes_win();
    let at = image.finish_pages().at;
    let mut merging = Merging {
        cursor: table.rows(),
        writer: TableWriter::new(alloc)?,
        noted: NotedRows::none(),
    };
    while merging.step(alloc, keys, disk, image)? {}
    let Merging {
        cursor: _,
        writer,
        noted,
    } = merging;
    let TableWriter { rows, first_keys } = writer;
    rows.finish(disk, image)?;
    Ok(NotedPages {
        pages: TablePages::new(at, first_keys),
        rows: noted,
    })
}

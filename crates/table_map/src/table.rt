//! A table's rows: those of its pages with the changes since.
ghost use Rattle.std.specs.Prelude.{◌≡◌, ◌+◌, ◌*◌, ◌<◌, ◌≤◌, ℕ, List, [], IsTrue, Some, None, OnOk, IfErr, IfOk, IfSome, false, length};
ghost use Rattle.drda_disk.specs.Disk.{Stays};
ghost use Rattle.drda_disk.specs.Layout.{page_bytes};
ghost use Rattle.row_pages.specs.Laying.{rows_over};
ghost use Rattle.row_pages.specs.Keeping.{CountsPageFault};
ghost use Rattle.row_pages.specs.declared.kept.PageFault.TheVariants.{NoMemory};
ghost use Rattle.key_map.specs.Slots.{HasRoom, by_key};
ghost use Rattle.key_map.specs.Merging.{InOrder, changed, row_at};
ghost use Rattle.key_map.specs.Overlay.{changes_of};
ghost use Rattle.table_map.specs.Damage.{DamagedWhere, LacksPage};
ghost use Rattle.table_map.specs.Judged.{IsKnown};
ghost use Rattle.table_map.specs.Keyed.{copied, keyed_rows};
ghost use Rattle.table_map.specs.Stored.{IsStored};
ghost use Rattle.table_map.specs.Table.{rows_of_table};

use crate::pages::JudgedRow;
use crate::{RowKeys, TablePages};
use drda_disk::Disk;
use key_map::Overlay;
use row_pages::{PageFault, Pager};
use row_values::Schema;
use std::alloc::{AllocError, Global};
use std::marker::Model;

/// The rows of a table by their keys: those of its pages, and over them what has changed since the
/// pages were written.
#[derive(Drop)]
pub struct TableMap {
    pub(crate) pages: TablePages,
    pub(crate) overlay: Overlay,
}

impl Model for TableMap {
    ghost use Rattle.table_map.specs.Table.{Table};

    ghost Value = { Table };

    ghost view = { λ t. record { places = t.pages; overlay = t.overlay } };
}

/// A copy of a row of a change, which is known.
fn copy_row(alloc: Global, row: &[u8]) -> Result<JudgedRow, PageFault>
    ensures row { IfOk result (λ found. copied found.row ≡ Some row.now) }
    ensures fault { IfErr result (λ fault. fault ≡ NoMemory) }
    ensures cause { (n : ℕ) → CountsPageFault result n n }
{
    match row.to_vec(alloc) {
        Ok(copy) => Ok(JudgedRow {
            row: Some(copy),
            is_judged: true,
        }),
        Err(_) => Err(PageFault::NoMemory),
    }
}

impl TableMap {
    /// A table with these pages, and with no changes since.
    pub fn new(alloc: Global, pages: TablePages) -> TableMap
        ensures places { result.places ≡ pages }
        ensures overlay { result.overlay ≡ [] }
    {
        TableMap {
            pages,
            overlay: Overlay::new(alloc),
        }
    }

    /// The row of a key. A key that was changed is looked up in the changes alone; else one page is looked
    /// at, at most, and `Damaged` is told only where that is no page. A row of a page is known to be one of
    /// the schema by the page's mark, or it is judged: for one row no page is marked.
    pub fn get<K: RowKeys, D: Disk>(
        &self,
        alloc: Global,
        keys: &K,
        pager: &mut Pager<D>,
        schema: &Schema,
        key: &[u8],
    ) -> Result<JudgedRow, PageFault>
        requires { self.now.places.at + page_bytes * length self.now.places.keys ≤ length (D.life pager.old).seen }
        ensures found { (pages : List (List (List ℕ))) → IsTrue D.is_modelled → IsStored (K.key_of keys.now) self.now.places pages (D.life pager.old).seen
            → IfOk result (λ found. copied found.row ≡ row_at key.now (rows_of_table (K.key_of keys.now) self.now pages)) }
        ensures judged { IfOk result (λ found. IsTrue found.is_judged → IfSome found.row (λ row. IsKnown (K.key_of keys.now) schema.now key.now (changes_of self.now.overlay) row.items)) }
        ensures damaged { IsTrue D.is_modelled → DamagedWhere ((row_at key.now (changes_of self.now.overlay) ≡ None) × LacksPage key.now self.now.places (D.life pager.old).seen) result }
        ensures stays { Stays (D.life pager.old) (D.life pager.new) }
        ensures cause { CountsPageFault result (D.life pager.old).faults (D.life pager.new).faults }
    {
        match self.overlay.change(key) {
            Some(Some(row)) => copy_row(alloc, row),
            Some(None) => Ok(JudgedRow {
                row: None,
                is_judged: true,
            }),
            None => self.pages.row(alloc, keys, pager, schema, key),
        }
    }

    /// Makes room for a change of this key: of the changes the one call that takes memory. Whether or
    /// not it finds that, all rows and all room stay.
    pub fn reserve(&mut self, alloc: Global, key: &[u8]) -> Result<(), AllocError>
        ensures places { self.new.places ≡ self.old.places }
        ensures changes { changes_of self.new.overlay ≡ changes_of self.old.overlay }
        ensures room { OnOk result (HasRoom key.now self.new.overlay) }
        ensures others { (q : List ℕ) → HasRoom q self.old.overlay → HasRoom q self.new.overlay }
    {
        self.overlay.reserve(alloc, key)
    }

    /// Puts a row, of one byte at least, at a key that has room: of all rows that one changes.
    pub fn put_reserved(&mut self, key: &[u8], row: Vec<u8>)
        requires room { HasRoom key.now self.old.overlay }
        requires row { 0 < length row.items }
        ensures places { self.new.places ≡ self.old.places }
        ensures rows { (key_of : List ℕ → List ℕ) (pages : List (List (List ℕ))) → InOrder (keyed_rows key_of (rows_over pages))
            → rows_of_table key_of self.new pages ≡ changed (rows_of_table key_of self.old pages) key.now (Some row.items) }
        ensures room { (q : List ℕ) → HasRoom q self.old.overlay → HasRoom q self.new.overlay }
    {
        self.overlay.put_reserved(key, row);
    }

    /// Takes out the row of a key that has room, where there is one: of all rows that one changes.
    /// Takes no memory.
    pub fn remove_reserved(&mut self, alloc: Global, key: &[u8])
        requires { HasRoom key.now self.old.overlay }
        ensures places { self.new.places ≡ self.old.places }
        ensures rows { (key_of : List ℕ → List ℕ) (pages : List (List (List ℕ))) → InOrder (keyed_rows key_of (rows_over pages))
            → rows_of_table key_of self.new pages ≡ changed (rows_of_table key_of self.old pages) key.now None }
        ensures room { (q : List ℕ) → HasRoom q self.old.overlay → HasRoom q self.new.overlay }
    {
        self.overlay.remove_reserved(alloc, key);
    }
    /// Gives up the room of a key of which there is no change. A change that is there stays, and so do
    /// all rows.
    pub fn release(&mut self, key: &[u8])
        ensures places { self.new.places ≡ self.old.places }
        ensures changes { changes_of self.new.overlay ≡ changes_of self.old.overlay }
        ensures room { (q : List ℕ) → by_key key.now q ≡ false → HasRoom q self.old.overlay → HasRoom q self.new.overlay }
    {
        self.overlay.release(key);
    }
}

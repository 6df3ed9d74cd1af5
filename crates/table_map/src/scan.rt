//! All rows of a table.
ghost use Rattle.std.specs.Prelude.{◌≡◌, ◌+◌, ◌*◌, ◌≤◌, ◌++◌, ◌∷◌, ◌&&◌, ℕ, List, IsTrue, IfOk, OnOk, Some, length, option_map};
ghost use Rattle.std.specs.Arc.{arc_value};
ghost use Rattle.drda_disk.specs.Disk.{Stays};
ghost use Rattle.std.specs.List.{AllByRecursion};
ghost use Rattle.drda_disk.specs.Layout.{page_bytes};
ghost use Rattle.row_pages.specs.Laying.{IsShort, counted, laid, pages_with};
ghost use Rattle.row_pages.specs.Keeping.{CountsPageFault};
ghost use Rattle.table_map.specs.Cursor.{IsLeft};
ghost use Rattle.table_map.specs.Damage.{DamagedWhere, HasNoRows, SomePage};
ghost use Rattle.key_map.specs.Overlay.{changes_of};
ghost use Rattle.row_values.specs.Schema.{Schema};
ghost use Rattle.table_map.specs.Judged.{IsScanned, RiseByKeys};
ghost use Rattle.table_map.specs.Stored.{IsStored};
ghost use Rattle.table_map.specs.Table.{rows_of_table, without_keys};

use crate::changes::ChangesLeft;
use crate::page_scan::{push_rest, scan_page};
use crate::{RowCursor, RowKeys, TableMap};
use drda_disk::{Disk, PAGE_BYTES};
use row_pages::{PageCount, PageFault, Pager};
use row_values::Schema;
use std::alloc::Global;
use std::sync::Arc;
use tables::Rows;

/// The bytes of the longest row that stands in a page.
const LONGEST_ROW_BYTES: usize = 8_187;

/// Counts a row more. One that is too long for a page is damaged.
fn count_row(count: &mut PageCount, row: &[u8]) -> Result<(), PageFault>
    ensures counts { OnOk result ((rows : List (List ℕ)) → pages_with count.new rows ≡ pages_with count.old (row.now ∷ rows)) }
    ensures damaged { DamagedWhere (IsShort row.now → ⊥) result }
    ensures cause { (n : ℕ) → CountsPageFault result n n }
{
    if row.len() > LONGEST_ROW_BYTES {
        return Err(PageFault::Damaged);
    }
    count.push(row);
    Ok(())
}

/// Whether both are true.
fn both(first: bool, second: bool) -> bool
    ensures { result ≡ (first && second) }
{
    first && second
}

impl TableMap {
    /// A cursor in front of all rows. No page is read yet, and no memory is taken.
    pub fn rows(&self) -> RowCursor<'_>
        ensures left { (key_of : List ℕ → List ℕ) (pages : List (List (List ℕ))) (file : List ℕ) → IsStored key_of self.now.places pages file
            → IsLeft key_of file result (rows_of_table key_of self.now pages) }
        ensures end { result.base.at + page_bytes * result.base.pages ≡ self.now.places.at + page_bytes * length self.now.places.keys }
        ensures begins { result.base.at ≡ self.now.places.at }
    {
        RowCursor {
            base: self.pages.rows_left(),
            changes: ChangesLeft::new(self.overlay.entries()),
        }
    }

    /// All rows in the order of their keys, put behind those of a list. Each page is looked at once, and its
    /// rows are put there from where they lie. `Damaged` is told only where one of the table's pages is no
    /// page or has no rows; after a fault no promise is made of the rows that were put behind the others.
    ///
    /// Each page is judged by a schema, where there is one. Whether all rows that the pages gave are rows of
    /// it, and rise by their keys over all pages: then what was put behind the others is rows of the schema
    /// in the order of their keys, with the changes among them, whatever the device. A page that carries the
    /// schema's mark is not judged again.
    pub fn scan_judged<K: RowKeys, D: Disk>(
        &self,
        alloc: Global,
        keys: &K,
        pager: &mut Pager<D>,
        by: Option<&Arc<Schema, Global>>,
        rows: &mut Rows,
    ) -> Result<bool, PageFault>
        requires { self.now.places.at + page_bytes * length self.now.places.keys ≤ length (D.life pager.old).seen }
        ensures rows { (pages : List (List (List ℕ))) → IsTrue D.is_modelled → IsStored (K.key_of keys.now) self.now.places pages (D.life pager.old).seen
            → OnOk result (rows.new ≡ rows.old ++ without_keys (rows_of_table (K.key_of keys.now) self.now pages)) }
        ensures judged { (schema : Schema) → option_map (λ s. arc_value s.now) by.entry ≡ Some schema → RiseByKeys (K.key_of keys.now) schema
            → IfOk result (λ judged. IsTrue judged → IsScanned (K.key_of keys.now) schema (changes_of self.now.overlay) rows.old rows.new) }
        ensures damaged { IsTrue D.is_modelled → DamagedWhere (SomePage HasNoRows (D.life pager.old).seen self.now.places.at (length self.now.places.keys)) result }
        ensures stays { Stays (D.life pager.old) (D.life pager.new) }
        ensures cause { CountsPageFault result (D.life pager.old).faults (D.life pager.new).faults }
    {
        let at = self.pages.at();
        let mut changes = ChangesLeft::new(self.overlay.entries());
        let mut judged = true;
        for page in 0..self.pages.count() {
            let good = scan_page(
                alloc,
                keys,
                pager,
                at + PAGE_BYTES * page,
                by,
                self.pages.bounds(page),
                &mut changes,
                rows,
            )?;
            judged = both(judged, good);
        }
        push_rest(&mut changes, rows)?;
        Ok(judged)
    }

    /// How many pages all rows take when they are laid anew, one behind another; nothing is written.
    /// Each page is read once, one at a time, into memory of its own. Of a table whose pages stand
    /// there `Damaged` is told only where one of all rows is too long for a page.
    pub fn page_count<K: RowKeys, D: Disk>(
        &self,
        alloc: Global,
        keys: &K,
        disk: &mut D,
    ) -> Result<usize, PageFault>
        requires { self.now.places.at + page_bytes * length self.now.places.keys ≤ length (D.life disk.old).seen }
        ensures count { (pages : List (List (List ℕ))) → IsTrue D.is_modelled → IsStored (K.key_of keys.now) self.now.places pages (D.life disk.old).seen
            → IfOk result (λ count. count ≡ counted (length (laid (without_keys (rows_of_table (K.key_of keys.now) self.now pages))))) }
        ensures damaged { (pages : List (List (List ℕ))) → IsTrue D.is_modelled → IsStored (K.key_of keys.now) self.now.places pages (D.life disk.old).seen
            → DamagedWhere (AllByRecursion IsShort (without_keys (rows_of_table (K.key_of keys.now) self.now pages)) → ⊥) result }
        ensures stays { Stays (D.life disk.old) (D.life disk.new) }
        ensures cause { CountsPageFault result (D.life disk.old).faults (D.life disk.new).faults }
    {
        let mut cursor = self.rows();
        let mut count = PageCount::new();
        while let Some(row) = cursor.next(alloc, keys, disk)? {
            count_row(&mut count, row)?;
        }
        Ok(count.pages())
    }
}

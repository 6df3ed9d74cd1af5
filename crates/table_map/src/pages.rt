//! The pages of a table.
ghost use Rattle.std.specs.Prelude.{◌≡◌, ◌+◌, ◌*◌, ◌^◌, ◌<◌, ◌≤◌, ℕ, List, [], None, IsTrue, IfOk, IfSome, Some, length, map};
ghost use Rattle.std.specs.List.{slice_get};
ghost use Rattle.drda_words.specs.Place.{part};
ghost use Rattle.drda_disk.specs.Disk.{Stays};
ghost use Rattle.drda_disk.specs.Layout.{page_bytes};
ghost use Rattle.row_pages.specs.Page.{IsPage};
ghost use Rattle.row_pages.specs.Laying.{rows_over};
ghost use Rattle.row_pages.specs.Keeping.{CountsPageFault, TellsDamage};
ghost use Rattle.key_map.specs.Merging.{InOrder, row_at};
ghost use Rattle.table_map.specs.Damage.{DamagedWhere, LacksPage};
ghost use Rattle.table_map.specs.Judged.{IsRowOf};
ghost use Rattle.table_map.specs.Keyed.{keyed_rows, copied, seen};
ghost use Rattle.table_map.specs.Stored.{IsStored};

use crate::RowKeys;
use crate::base::RowsLeft;
use crate::finding::{find_row, place_of};
use drda_disk::{Disk, PAGE_BYTES};
use row_pages::{JudgedPage, PageFault, PageKind, Pager};
use row_values::Schema;
use std::alloc::{AllocError, Global};
use std::marker::Model;

/// Where the pages of a table lie, one behind another, and the key of each page's first row.
#[derive(Drop)]
pub struct TablePages {
    pub(crate) at: usize,
    pub(crate) first_keys: Vec<Vec<u8>>,
}

impl Model for TablePages {
    ghost use Rattle.std.specs.Prelude.{◌+◌, ◌*◌, ◌^◌, ◌≤◌, map, length};
    ghost use Rattle.drda_disk.specs.Layout.{page_bytes};
    ghost use Rattle.table_map.specs.Stored.{Places};

    ghost Value = { Places };

    ghost view = { λ p. record { at = p.at; keys = map (λ k. k.items) p.first_keys.items } };

    ghost invariant = { λ p. p.at + page_bytes * length p.first_keys.items ≤ 2 ^ 40 };
}

/// What was found at a key: the row there, in new memory, or that there is none.
#[derive(Drop)]
pub struct JudgedRow {
    pub row: Option<Vec<u8>>,
    /// Whether it is known, whatever the device, that a row which was found is one of the schema at the key.
    pub is_judged: bool,
}

/// Between which keys the rows of a page lie: the first is the key of its first row, and the other that of
/// the next page's, where there is one.
#[derive(Clone, Copy)]
pub(crate) struct Bounds<'a> {
    pub(crate) first: &'a [u8],
    pub(crate) end: Option<&'a [u8]>,
}

/// The key of a number, where there is one.
fn key_at(keys: &[Vec<u8>], number: usize) -> Option<&[u8]>
    ensures { seen result ≡ slice_get (map (λ k. k.items) keys.now) number }
{
    match keys.get(number) {
        Some(key) => Some(key.as_slice()),
        None => None,
    }
}

/// The row of a key in a page, and whether it is one of the schema.
fn copy_found<K: RowKeys>(
    alloc: Global,
    keys: &K,
    page: &JudgedPage,
    schema: &Schema,
    key: &[u8],
) -> Result<JudgedRow, AllocError>
    ensures found { InOrder (keyed_rows (K.key_of keys.now) page.now.rows) → IfOk result (λ found. copied found.row ≡ row_at key.now (keyed_rows (K.key_of keys.now) page.now.rows)) }
    ensures judged { IfOk result (λ found. IsTrue found.is_judged → IfSome found.row (λ row. IsRowOf (K.key_of keys.now) schema.now key.now row.items)) }
{
    match find_row(keys, page.page(), key) {
        Some(row) => {
            let is_judged = page.is_row(schema, row);
            let row = Some(row.to_vec(alloc)?);
            Ok(JudgedRow { row, is_judged })
        }
        None => Ok(JudgedRow {
            row: None,
            is_judged: true,
        }),
    }
}

/// The row of a key in the page at an offset.
fn row_in_page<K: RowKeys, D: Disk>(
    alloc: Global,
    keys: &K,
    pager: &mut Pager<D>,
    at: usize,
    schema: &Schema,
    key: &[u8],
) -> Result<JudgedRow, PageFault>
    requires { at + page_bytes ≤ length (D.life pager.old).seen }
    ensures found { (rows : List (List ℕ)) → IsTrue D.is_modelled → IsPage (record { kind = PageKind.Rows; rows = rows }) (part (D.life pager.old).seen at page_bytes)
        → InOrder (keyed_rows (K.key_of keys.now) rows) → IfOk result (λ found. copied found.row ≡ row_at key.now (keyed_rows (K.key_of keys.now) rows)) }
    ensures judged { IfOk result (λ found. IsTrue found.is_judged → IfSome found.row (λ row. IsRowOf (K.key_of keys.now) schema.now key.now row.items)) }
    ensures damaged { IsTrue D.is_modelled → TellsDamage (part (D.life pager.old).seen at page_bytes) result }
    ensures stays { Stays (D.life pager.old) (D.life pager.new) }
    ensures cause { CountsPageFault result (D.life pager.old).faults (D.life pager.new).faults }
{
    let page = pager.judged_page(alloc, at, None)?;
    match copy_found(alloc, keys, page, schema, key) {
        Ok(found) => Ok(found),
        Err(_) => Err(PageFault::NoMemory),
    }
}

impl TablePages {
    /// Pages that lie from an offset on, one behind another, by the key of each one's first row. Takes no
    /// memory.
    pub fn new(at: usize, first_keys: Vec<Vec<u8>>) -> TablePages
        requires { at + page_bytes * length first_keys.items ≤ 2 ^ 40 }
        ensures { result ≡ record { at = at; keys = map (λ key. key.items) first_keys.items } }
    {
        TablePages { at, first_keys }
    }

    /// Where the first page lies.
    pub(crate) fn at(&self) -> usize
        ensures at { result ≡ self.now.at }
        ensures small { result + page_bytes * length self.now.keys ≤ 2 ^ 40 }
    {
        self.at
    }

    /// How many pages there are.
    pub(crate) fn count(&self) -> usize
        ensures { result ≡ length self.now.keys }
    {
        self.first_keys.len()
    }

    /// Between which keys the rows of the page of this number lie.
    pub(crate) fn bounds(&self, number: usize) -> Bounds<'_>
        requires { number < length self.now.keys }
        ensures first { slice_get self.now.keys number ≡ Some result.first.now }
        ensures end { seen result.end ≡ slice_get self.now.keys (number + 1) }
    {
        Bounds {
            first: self.first_keys[number].as_slice(),
            end: key_at(&self.first_keys, number + 1),
        }
    }

    /// The rows of all pages, none of which is read yet.
    pub(crate) fn rows_left(&self) -> RowsLeft
        ensures { result ≡ record { at = self.now.at; pages = length self.now.keys; rows = []; last = None } }
    {
        RowsLeft::new(self.at, self.first_keys.len())
    }

    /// The row of a key. One page is looked at, at most: the one whose first key is the last that the key
    /// does not come before. `Damaged` is told only where that is no page.
    pub(crate) fn row<K: RowKeys, D: Disk>(
        &self,
        alloc: Global,
        keys: &K,
        pager: &mut Pager<D>,
        schema: &Schema,
        key: &[u8],
    ) -> Result<JudgedRow, PageFault>
        requires { self.now.at + page_bytes * length self.now.keys ≤ length (D.life pager.old).seen }
        ensures found { (pages : List (List (List ℕ))) → IsTrue D.is_modelled → IsStored (K.key_of keys.now) self.now pages (D.life pager.old).seen
            → IfOk result (λ found. copied found.row ≡ row_at key.now (keyed_rows (K.key_of keys.now) (rows_over pages))) }
        ensures judged { IfOk result (λ found. IsTrue found.is_judged → IfSome found.row (λ row. IsRowOf (K.key_of keys.now) schema.now key.now row.items)) }
        ensures damaged { IsTrue D.is_modelled → DamagedWhere (LacksPage key.now self.now (D.life pager.old).seen) result }
        ensures stays { Stays (D.life pager.old) (D.life pager.new) }
        ensures cause { CountsPageFault result (D.life pager.old).faults (D.life pager.new).faults }
    {
        let place = place_of(&self.first_keys, key);
        if place == 0 {
            return Ok(JudgedRow {
                row: None,
                is_judged: true,
            });
        }
        let at = self.at + PAGE_BYTES * (place - 1);
        row_in_page(alloc, keys, pager, at, schema, key)
    }
}

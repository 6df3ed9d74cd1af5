//! All pages of a table.
ghost use Rattle.std.specs.Prelude.{◌≡◌, ◌+◌, ◌*◌, ◌^◌, ◌≤◌, ◌++◌, ◌∷◌, [], ℕ, List, IsTrue, IfErr, IfOk, OnOk, length};
ghost use Rattle.drda_disk.specs.Disk.{Stays};
ghost use Rattle.drda_disk.specs.Layout.{page_bytes};
ghost use Rattle.row_pages.specs.Laying.{rows_over};
ghost use Rattle.store_check.specs.Errors.{CountsCheck};
ghost use Rattle.store_check.specs.Whole.{AreRows, ChecksTable, IsWhole, places_in};
ghost use Rattle.store_check.specs.declared.errors.CheckError.TheVariants.{NoMemory};

use crate::CheckError;
use crate::page::check_page;
use drda_disk::{Disk, PAGE_BYTES};
use row_pages::Pager;
use row_values::Schema;
use std::alloc::Global;
use table_map::{NotedPages, NotedRows, RowKeys, TablePages};

/// Puts bytes behind others.
fn push_bytes(list: &mut Vec<Vec<u8>>, bytes: Vec<u8>) -> Result<(), CheckError>
    ensures items { OnOk result (list.new.items ≡ list.old.items ++ bytes ∷ []) }
    ensures cause { (n : ℕ) → CountsCheck result n n }
    ensures fault { IfErr result (λ e. e ≡ NoMemory) }
{
    match list.push(bytes) {
        Ok(()) => Ok(()),
        Err(_) => Err(CheckError::NoMemory),
    }
}

/// Checks the pages of a table, so many from an offset on: each is a page of rows and has some, all
/// rows are rows of the schema, and their keys rise from row to row and from page to page. Where the
/// pages lie is returned then, with the key of each one's first row, as the table's map asks for it;
/// all rows are noted beside them. Whatever the device, what is noted are rows of the schema whose keys
/// rise.
///
/// `Damaged` comes exactly where the pages are not so, and tells where the first bad one of them
/// lies: with the pages in front of it it is not so, and without it it is. Nothing is written.
pub fn check_table<K: RowKeys, D: Disk>(
    alloc: Global,
    keys: &K,
    schema: &Schema,
    pager: &mut Pager<D>,
    at: usize,
    count: usize,
) -> Result<NotedPages, CheckError>
    requires small { at + page_bytes * count ≤ 2 ^ 40 }
    requires inside { at + page_bytes * count ≤ length (D.life pager.old).seen }
    ensures at { IfOk result (λ table. table.pages.at ≡ at) }
    ensures count { IfOk result (λ table. length table.pages.keys ≡ count) }
    ensures told { IsTrue D.is_modelled → ChecksTable schema.now (K.key_of keys.now) (D.life pager.old).seen at count (places_in result) }
    ensures rows { (pages : List (List (List ℕ))) → IsTrue D.is_modelled → IsWhole schema.now (K.key_of keys.now) (D.life pager.old).seen at count pages
        → IfOk result (λ table. table.rows.listed.value ≡ rows_over pages) }
    ensures good { IfOk result (λ table. AreRows schema.now (K.key_of keys.now) table.rows.listed.value) }
    ensures stays { Stays (D.life pager.old) (D.life pager.new) }
    ensures cause { CountsCheck result (D.life pager.old).faults (D.life pager.new).faults }
{
    row_pages::laws::one_page();
    let mut first_keys = Vec::new(alloc);
    let mut last = None;
    let mut rows = NotedRows::none();
    for page in 0..count {
        let here = at + PAGE_BYTES * page;
        let key = check_page(alloc, keys, schema, pager, here, &mut last, &mut rows)?;
        push_bytes(&mut first_keys, key)?;
    }
    let pages = TablePages::new(at, first_keys);
    Ok(NotedPages { pages, rows })
}

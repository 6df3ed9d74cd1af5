//! The rows of one page.
ghost use Rattle.std.specs.Prelude.{◌≡◌, ◌++◌, Ok, Some, true, IfOk};
ghost use Rattle.std.specs.List.{AllByRecursion};
ghost use Rattle.drda_words.specs.Bytes.{AreBytes};
ghost use Rattle.table_map.specs.Keyed.{copied, first_of};
ghost use Rattle.store_check.specs.Judging.{go_on, is_behind, last_key};

use row_pages::KeptPage;
use row_values::{RowRef, Schema};
use std::alloc::{AllocError, Global};
use std::cmp::Ordering;
use std::mem;
use table_map::{NotedRows, RowKeys};

/// Whether a key comes behind the last one, where there is one.
fn is_behind(last: &Option<Vec<u8>>, key: &[u8]) -> bool
    ensures { result ≡ is_behind (copied last.now) key.now }
{
    match last {
        Some(last) => match last.as_slice().cmp(key) {
            Ordering::Less => true,
            Ordering::Equal => false,
            Ordering::Greater => false,
        },
        None => true,
    }
}

/// Makes a key the last one. The list of the one before it takes its place, for the next key.
fn make_last(alloc: Global, last: &mut Option<Vec<u8>>, key: &mut Vec<u8>)
    ensures { copied last.new ≡ Some key.old.items }
{
    match last {
        Some(last) => mem::swap(last, key),
        None => *last = Some(mem::replace(key, Vec::new(alloc))),
    }
}

/// The key of the first row of a page, if it has one.
pub(crate) fn first_in<K: RowKeys>(
    alloc: Global,
    keys: &K,
    page: &KeptPage,
) -> Result<Option<Vec<u8>>, AllocError>
    ensures { IfOk result (λ key. copied key ≡ first_of (K.key_of keys.now) page.now.rows) }
{
    let mut rows = page.page_ref().rows();
    match rows.next() {
        Some(row) => Ok(Some(keys.key(alloc, row)?)),
        None => Ok(None),
    }
}

/// Reads every byte, so that a proof knows that each is below 256.
fn see_bytes(bytes: &[u8])
    ensures { AreBytes bytes.now }
{
    for byte in bytes {
        let _seen = *byte;
    }
}

/// Whether the rows of a page are rows of the schema whose keys rise behind the last key, which then
/// is that of the page's last row. They are noted then.
pub(crate) fn are_rows<K: RowKeys>(
    alloc: Global,
    keys: &K,
    schema: &Schema,
    page: &KeptPage,
    last: &mut Option<Vec<u8>>,
    noted: &mut NotedRows,
) -> Result<bool, AllocError>
    ensures good { IfOk result (λ good. good ≡ go_on schema.now (K.key_of keys.now) (copied last.old) page.now.rows) }
    ensures last { result ≡ Ok true → copied last.new ≡ last_key (K.key_of keys.now) (copied last.old) page.now.rows }
    ensures bytes { result ≡ Ok true → AllByRecursion AreBytes page.now.rows }
    ensures noted { result ≡ Ok true → noted.new.listed.value ≡ noted.old.listed.value ++ page.now.rows }
{
    let mut rows = page.page_ref().rows();
    let mut key = Vec::new(alloc);
    while let Some(row) = rows.next() {
        if RowRef::parse(schema, row).is_err() {
            return Ok(false);
        }
        key.clear();
        keys.put_key(&mut key, row)?;
        if !is_behind(last, &key) {
            return Ok(false);
        }
        see_bytes(row);
        noted.note(row);
        make_last(alloc, last, &mut key);
    }
    Ok(true)
}

//! One page of a table.
ghost use Rattle.std.specs.Prelude.{◌≡◌, ◌+◌, ◌≤◌, ◌++◌, ℕ, List, IsTrue, OnOk, length};
ghost use Rattle.std.specs.List.{AllByRecursion};
ghost use Rattle.drda_words.specs.Bytes.{AreBytes};
ghost use Rattle.drda_words.specs.Place.{part};
ghost use Rattle.drda_disk.specs.Disk.{Stays};
ghost use Rattle.drda_disk.specs.Layout.{page_bytes};
ghost use Rattle.row_pages.specs.Page.{IsPage};
ghost use Rattle.store_check.specs.Errors.{CountsCheck};
ghost use Rattle.table_map.specs.Keyed.{copied};
ghost use Rattle.store_check.specs.Judging.{JudgesBytes, JudgesPage, NotesRows};

use crate::CheckError;
use crate::errors::error_at;
use crate::rows::{are_rows, first_in};
use drda_disk::Disk;
use row_pages::{KeptPage, PageKind, Pager};
use row_values::Schema;
use std::alloc::Global;
use table_map::{NotedRows, RowKeys};

/// The key of the first row of a page that lies at an offset. Its rows go on behind the last key, or
/// it is damaged. They are noted.
fn judge<K: RowKeys>(
    alloc: Global,
    keys: &K,
    schema: &Schema,
    page: &KeptPage,
    at: usize,
    last: &mut Option<Vec<u8>>,
    noted: &mut NotedRows,
) -> Result<Vec<u8>, CheckError>
    ensures judged { JudgesPage schema.now (K.key_of keys.now) at page.now last.old result last.new }
    ensures noted { OnOk result (noted.new.listed.value ≡ noted.old.listed.value ++ page.now.rows) }
    ensures bytes { OnOk result (AllByRecursion AreBytes page.now.rows) }
    ensures cause { (n : ℕ) → CountsCheck result n n }
{
    if page.page_ref().kind() != PageKind::Rows {
        return Err(CheckError::Damaged { at });
    }
    let key = match first_in(alloc, keys, page) {
        Ok(Some(key)) => key,
        Ok(None) => return Err(CheckError::Damaged { at }),
        Err(_) => return Err(CheckError::NoMemory),
    };
    match are_rows(alloc, keys, schema, page, last, noted) {
        Ok(true) => Ok(key),
        Ok(false) => Err(CheckError::Damaged { at }),
        Err(_) => Err(CheckError::NoMemory),
    }
}

/// The key of the first row of the page at an offset. Its rows go on behind the last key, or it is
/// damaged. They are noted.
pub(crate) fn check_page<K: RowKeys, D: Disk>(
    alloc: Global,
    keys: &K,
    schema: &Schema,
    pager: &mut Pager<D>,
    at: usize,
    last: &mut Option<Vec<u8>>,
    noted: &mut NotedRows,
) -> Result<Vec<u8>, CheckError>
    requires { at + page_bytes ≤ length (D.life pager.old).seen }
    ensures judged { IsTrue D.is_modelled → JudgesBytes schema.now (K.key_of keys.now) at (part (D.life pager.old).seen at page_bytes) last.old result last.new }
    ensures noted { (rows : List (List ℕ)) → IsTrue D.is_modelled → IsPage (record { kind = PageKind.Rows; rows = rows }) (part (D.life pager.old).seen at page_bytes)
        → OnOk result (noted.new.listed.value ≡ noted.old.listed.value ++ rows) }
    ensures goes { OnOk result (NotesRows schema.now (K.key_of keys.now) (copied last.old) (copied last.new) noted.old.listed.value noted.new.listed.value) }
    ensures stays { Stays (D.life pager.old) (D.life pager.new) }
    ensures cause { CountsCheck result (D.life pager.old).faults (D.life pager.new).faults }
{
    row_pages::laws::one_page();
    match pager.page(alloc, at) {
        Ok(page) => judge(alloc, keys, schema, page, at, last, noted),
        Err(fault) => Err(error_at(at, fault)),
    }
}

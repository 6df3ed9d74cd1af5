//! The rows of one page, put behind others with the changes in front of each.
ghost use Rattle.std.specs.Prelude.{◌≡◌, ◌+◌, ◌<◌, ◌≤◌, ◌++◌, ◌∷◌, [], ℕ, List, IsTrue, IfErr, IfOk, OnOk, Some, length, map, option_map, true};
ghost use Rattle.std.specs.Arc.{arc_value};
ghost use Rattle.drda_words.specs.Place.{part};
ghost use Rattle.drda_disk.specs.Disk.{Stays};
ghost use Rattle.drda_disk.specs.Layout.{page_bytes};
ghost use Rattle.row_pages.specs.Page.{IsPage};
ghost use Rattle.row_pages.specs.Keeping.{CountsPageFault};
ghost use Rattle.row_pages.specs.declared.kept.PageFault.TheVariants.{NoMemory};
ghost use Rattle.key_map.specs.Merging.{InOrder, merged};
ghost use Rattle.key_map.specs.Overlay.{change_of};
ghost use Rattle.table_map.specs.Damage.{DamagedWhere, HasNoRows};
ghost use Rattle.row_pages.specs.Judging.{AreJudged};
ghost use Rattle.row_values.specs.Schema.{Schema};
ghost use Rattle.table_map.specs.Judged.{LieWithin, PassesJudged};
ghost use Rattle.table_map.specs.Keyed.{seen};
ghost use Rattle.table_map.specs.Passing.{Passes, row_said};
ghost use Rattle.table_map.specs.Table.{without_keys};

use crate::RowKeys;
use crate::changes::ChangesLeft;
use crate::pages::Bounds;
use drda_disk::Disk;
use row_pages::{JudgedPage, KeptPage, PageFault, PageKind, Pager};
use row_values::Schema;
use std::alloc::{AllocError, Global};
use std::cmp::Ordering;
use std::sync::Arc;
use tables::Rows;

/// Puts the row of a change behind others, if it is one.
fn push_change(rows: &mut Rows, entry: Option<(&[u8], &[u8])>) -> Result<(), AllocError>
    ensures { OnOk result (rows.new ≡ rows.old ++ row_said entry.entry) }
{
    match entry {
        None => Ok(()),
        Some((_, [])) => Ok(()),
        Some((_, row)) => rows.push(row),
    }
}

/// Puts a row behind others, with the changes in front of it or in its place.
fn push_row<K: RowKeys>(
    keys: &K,
    row: &[u8],
    changes: &mut ChangesLeft<'_>,
    rows: &mut Rows,
) -> Result<(), AllocError>
    ensures { OnOk result (Passes (K.key_of keys.now) (row.now ∷ []) changes.old changes.new rows.old rows.new) }
{
    key_map::laws::changes_and_rows_in_turn();
    loop {
        match changes.stands_to(keys, row) {
            Ordering::Less => push_change(rows, changes.take())?,
            Ordering::Equal => return push_change(rows, changes.take()),
            Ordering::Greater => return rows.push(row),
        }
    }
}

/// Puts the rows of a page behind others, with the changes in front of them or in their place.
fn push_page<K: RowKeys>(
    keys: &K,
    page: &KeptPage,
    changes: &mut ChangesLeft<'_>,
    rows: &mut Rows,
) -> Result<(), AllocError>
    ensures { OnOk result (Passes (K.key_of keys.now) page.now.rows changes.old changes.new rows.old rows.new) }
{
    for i in 0..page.len() {
        push_row(keys, page.row(i), changes, rows)?;
    }
    Ok(())
}

/// Whether the rows of a page lie between these keys: the first one's does not come before the first, and
/// the last one's comes before the end.
fn lie_within<K: RowKeys>(keys: &K, page: &KeptPage, bounds: Bounds<'_>) -> bool
    requires { 0 < length page.now.rows }
    ensures { IsTrue result → LieWithin (K.key_of keys.now) bounds.entry.first.now (seen bounds.entry.end) page.now.rows }
{
    if keys.compare(bounds.first, page.row(0)).is_gt() {
        return false;
    }
    match bounds.end {
        Some(end) => keys.compare(end, page.row(page.len() - 1)).is_gt(),
        None => true,
    }
}

/// Whether a page carries the mark of this schema, where there is one, and its rows lie between these
/// keys.
fn is_good<K: RowKeys>(
    keys: &K,
    page: &JudgedPage,
    by: Option<&Arc<Schema, Global>>,
    bounds: Bounds<'_>,
) -> bool
    requires { 0 < length page.now.rows }
    ensures judged { (schema : Schema) → option_map (λ s. arc_value s.now) by.entry ≡ Some schema → IsTrue result → AreJudged schema page.now.rows }
    ensures within { IsTrue result → LieWithin (K.key_of keys.now) bounds.entry.first.now (seen bounds.entry.end) page.now.rows }
{
    match by {
        Some(schema) => page.is_marked(schema) && lie_within(keys, page.page(), bounds),
        None => false,
    }
}

/// Puts the rows of the page at an offset behind others, with the changes in front of them or in their
/// place. A page without rows is damaged. Whether the page carries the mark of the schema, where there is
/// one, and lies between these keys.
pub(crate) fn scan_page<K: RowKeys, D: Disk>(
    alloc: Global,
    keys: &K,
    pager: &mut Pager<D>,
    at: usize,
    by: Option<&Arc<Schema, Global>>,
    bounds: Bounds<'_>,
    changes: &mut ChangesLeft<'_>,
    rows: &mut Rows,
) -> Result<bool, PageFault>
    requires { at + page_bytes ≤ length (D.life pager.old).seen }
    ensures rows { (page : List (List ℕ)) → IsTrue D.is_modelled → IsPage (record { kind = PageKind.Rows; rows = page }) (part (D.life pager.old).seen at page_bytes)
        → OnOk result (Passes (K.key_of keys.now) page changes.old changes.new rows.old rows.new) }
    ensures judged { (schema : Schema) → option_map (λ s. arc_value s.now) by.entry ≡ Some schema
        → IfOk result (λ good. IsTrue good → PassesJudged (K.key_of keys.now) schema bounds.entry.first.now (seen bounds.entry.end) changes.old changes.new rows.old rows.new) }
    ensures damaged { IsTrue D.is_modelled → DamagedWhere (HasNoRows (part (D.life pager.old).seen at page_bytes)) result }
    ensures stays { Stays (D.life pager.old) (D.life pager.new) }
    ensures cause { CountsPageFault result (D.life pager.old).faults (D.life pager.new).faults }
{
    let kept = pager.judged_page(alloc, at, by)?;
    let page = kept.page();
    if page.len() == 0 {
        return Err(PageFault::Damaged);
    }
    let good = is_good(keys, kept, by, bounds);
    match push_page(keys, page, changes, rows) {
        Ok(()) => Ok(good),
        Err(_) => Err(PageFault::NoMemory),
    }
}

/// Puts the rows of all changes that are left behind others.
fn push_changes(changes: &mut ChangesLeft<'_>, rows: &mut Rows) -> Result<(), AllocError>
    ensures { OnOk result (InOrder (map change_of changes.old) → rows.new ≡ rows.old ++ without_keys (merged [] (map change_of changes.old))) }
{
    key_map::laws::changes_and_rows_in_turn();
    while let Some(entry) = changes.take() {
        push_change(rows, Some(entry))?;
    }
    Ok(())
}

/// The same, with the fault that it may be.
pub(crate) fn push_rest(changes: &mut ChangesLeft<'_>, rows: &mut Rows) -> Result<(), PageFault>
    ensures rows { OnOk result (InOrder (map change_of changes.old) → rows.new ≡ rows.old ++ without_keys (merged [] (map change_of changes.old))) }
    ensures fault { IfErr result (λ fault. fault ≡ NoMemory) }
    ensures cause { (n : ℕ) → CountsPageFault result n n }
{
    match push_changes(changes, rows) {
        Ok(()) => Ok(()),
        Err(_) => Err(PageFault::NoMemory),
    }
}

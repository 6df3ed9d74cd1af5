//! How many pages a table can take, without a look at any.
ghost use Rattle.std.specs.Prelude.{◌≡◌, ◌+◌, ◌*◌, ◌^◌, ◌≤◌, ℕ, List, length};
ghost use Rattle.drda_disk.specs.Layout.{page_bytes};
ghost use Rattle.row_pages.specs.Laying.{counted, laid};
ghost use Rattle.key_map.specs.Walk.{rows_left};
ghost use Rattle.table_map.specs.Room.{bytes_of, most_by_bytes};
ghost use Rattle.table_map.specs.Stored.{IsStored};
ghost use Rattle.table_map.specs.Table.{rows_of_table, without_keys};

use crate::TableMap;
use key_map::Rows;

/// How many changes there are, and how many bytes their rows take in pages, each up to 2^64 - 1.
#[derive(Clone, Copy)]
struct CountedChanges {
    count: usize,
    bytes: usize,
}

/// Counts changes.
fn count_changes(changes: Rows<'_>) -> CountedChanges
    ensures count { result.count ≡ counted (length (rows_left changes.entry)) }
    ensures bytes { result.bytes ≡ counted (bytes_of (rows_left changes.entry)) }
{
    let mut left = changes;
    let mut counts = CountedChanges { count: 0, bytes: 0 };
    while let Some((_, row)) = left.next() {
        counts.count = counts.count.saturating_add(1);
        counts.bytes = counts.bytes.saturating_add(row.len()).saturating_add(2);
    }
    counts
}

/// At most so many pages rows take that filled so many pages, with rows of so many bytes besides: of two pages one
/// behind another the rows have more bytes than one page has room for. 2^64 - 1 where the bytes, counted up to that, are
/// more than 2^60.
fn most_with(pages: usize, bytes: usize) -> usize
    requires { page_bytes * pages ≤ 2 ^ 40 }
    ensures { (all : ℕ) → bytes ≡ counted all → counted (most_by_bytes pages all) ≤ result }
{
    if bytes > 1 << 60 {
        return usize::MAX;
    }
    1 + 2 * (8_189 * pages + bytes) / 8_190
}

impl TableMap {
    /// At most so many pages all rows take when they are laid anew, one behind another: those that the
    /// table has, and two for each change since; or what the bytes of all rows take at most, where that is
    /// less. It stops at 2^64 - 1. No page is read.
    pub fn most_pages(&self) -> usize
        ensures { (key_of : List ℕ → List ℕ) (pages : List (List (List ℕ))) (file : List ℕ) → IsStored key_of self.now.places pages file
            → counted (length (laid (without_keys (rows_of_table key_of self.now pages)))) ≤ result }
    {
        let changes = count_changes(self.overlay.entries());
        let pages = self.pages.count();
        let _at = self.pages.at();
        let by_count = pages.saturating_add(changes.count.saturating_mul(2));
        by_count.min(most_with(pages, changes.bytes))
    }
}

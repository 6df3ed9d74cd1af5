//! Finding a key among first keys, and in a page.
ghost use Rattle.std.specs.Prelude.{◌≡◌, ℕ, IfSome, List, map};
ghost use Rattle.key_map.specs.Merging.{InOrder, row_at};
ghost use Rattle.table_map.specs.Judged.{IsFound};
ghost use Rattle.table_map.specs.Keyed.{keyed_rows, seen};
ghost use Rattle.table_map.specs.Places.{IsPlace};

use crate::RowKeys;
use row_pages::KeptPage;
use std::cmp::Ordering;

/// How many of the keys, which rise, come in front of the place of this one. Halves the keys that are
/// left at each step.
pub(crate) fn place_of(keys: &[Vec<u8>], key: &[u8]) -> usize
    ensures { IsPlace key.now (map (λ k. k.items) keys.now) result }
{
    let mut low = 0;
    let mut high = keys.len();
    while low < high {
        let middle = low + (high - low) / 2;
        if key.cmp(keys[middle].as_slice()) == Ordering::Less {
            high = middle;
        } else {
            low = middle + 1;
        }
    }
    low
}

/// The row of a key in a page whose keys rise. Halves the rows that are left at each step, and takes no
/// memory.
pub(crate) fn find_row<'p, K: RowKeys>(keys: &K, page: &'p KeptPage, key: &[u8]) -> Option<&'p [u8]>
    ensures found { InOrder (keyed_rows (K.key_of keys.now) page.now.rows) → seen result ≡ row_at key.now (keyed_rows (K.key_of keys.now) page.now.rows) }
    ensures here { IfSome result (λ row. IsFound (K.key_of keys.now) key.now page.now.rows row.now) }
{
    let mut low = 0;
    let mut high = page.len();
    while low < high {
        let middle = low + (high - low) / 2;
        let row = page.row(middle);
        match keys.compare(key, row) {
            Ordering::Less => high = middle,
            Ordering::Equal => return Some(row),
            Ordering::Greater => low = middle + 1,
        }
    }
    None
}

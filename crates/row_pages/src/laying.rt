//! How many pages rows take.

ghost use Rattle.std.specs.Prelude.{◌≡◌, ℕ, List, [], ◌∷◌, length};
ghost use Rattle.row_pages.specs.Laying.{IsShort, counted, laid, pages_with};

use crate::page::HEADER_BYTES;
use drda_disk::PAGE_BYTES;
use std::marker::Model;

/// How many pages rows take when they are laid one behind another, so that a page ends only where
/// the next row does not fit. The count stops at 2^64 - 1.
///
/// Contracts see the pages that are full and the bytes of the rows in the last one.
#[derive(Drop)]
pub struct PageCount {
    full: usize,
    filled: usize,
}

impl Model for PageCount {
    ghost use Rattle.std.specs.Prelude.{◌≤◌, ◌<◌, ◌^◌};
    ghost use Rattle.row_pages.specs.Laying.{Count};

    ghost Value = { Count };

    ghost view = { λ c. record { full = c.full; filled = c.filled } };

    ghost invariant = { λ c. (c.full < 2 ^ 64) × (c.filled ≤ 8189) };
}

impl PageCount {
    /// No rows, and no page.
    pub fn new() -> PageCount
        ensures { (rows : List (List ℕ)) → pages_with result rows ≡ counted (length (laid rows)) }
    {
        PageCount { full: 0, filled: 0 }
    }

    /// One row more, behind the others.
    pub fn push(&mut self, row: &[u8])
        requires { IsShort row.now }
        ensures { (rows : List (List ℕ)) → pages_with self.new rows ≡ pages_with self.old (row.now ∷ rows) }
    {
        let bytes = 2 + row.len();
        if HEADER_BYTES + self.filled + bytes <= PAGE_BYTES {
            self.filled += bytes;
        } else {
            self.full = self.full.saturating_add(1);
            self.filled = bytes;
        }
    }

    /// How many pages there are.
    pub fn pages(&self) -> usize
        ensures { result ≡ pages_with self.now [] }
    {
        if self.filled == 0 {
            self.full
        } else {
            self.full.saturating_add(1)
        }
    }
}

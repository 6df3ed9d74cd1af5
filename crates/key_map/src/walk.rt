//! Rows, one after another.

ghost use Rattle.std.specs.Prelude.{length};
ghost use Rattle.std.specs.Iterator.{at_most};
ghost use Rattle.key_map.specs.Walk.{GivesRow};

use std::collections::btree_map;
use std::iter::Iterator;

/// The keys and rows that are left to give, in the order of the keys.
#[derive(Drop)]
pub struct Rows<'a> {
    pub(crate) slots: btree_map::Range<'a, Vec<u8>, Option<Vec<u8>>>,
}

impl<'a> Iterator for Rows<'a> {
    type Item = (&'a [u8], &'a [u8]);

    ghost next_gives = { GivesRow };

    ghost remaining = { λ r. at_most (length r.slots) };

    fn next(&mut self) -> Option<(&'a [u8], &'a [u8])> {
        while let Some((key, slot)) = self.slots.next() {
            if let Some(row) = slot {
                return Some((key.as_slice(), row.as_slice()));
            }
        }
        None
    }
}

//! The changes that are left, the first of which can be looked at.
ghost use Rattle.std.specs.Prelude.{◌≡◌};
ghost use Rattle.key_map.specs.Walk.{rows_left};
ghost use Rattle.table_map.specs.Walk.{IsFirstEntry, TakesEntry};
ghost use Rattle.table_map.specs.Passing.{order_to};

use crate::RowKeys;
use key_map::Rows;
use std::cmp::Ordering;
use std::iter::Iterator;
use std::marker::Model;

/// The keys and entries of changes that are left.
#[derive(Drop)]
pub(crate) struct ChangesLeft<'a> {
    first: Option<(&'a [u8], &'a [u8])>,
    rest: Rows<'a>,
}

impl<'a> Model for ChangesLeft<'a> {
    ghost use Rattle.key_map.specs.Merging.{Rows};
    ghost use Rattle.key_map.specs.Walk.{rows_left};
    ghost use Rattle.table_map.specs.Walk.{IsLast, before};

    ghost Value = { Rows };

    ghost view = { λ c. before c.first (rows_left c.rest) };

    ghost invariant = { λ c. IsLast c.first (rows_left c.rest) };
}

impl<'a> ChangesLeft<'a> {
    /// All of these.
    pub(crate) fn new(rows: Rows<'a>) -> ChangesLeft<'a>
        ensures { result ≡ rows_left rows.entry }
    {
        let mut rest = rows;
        let first = rest.next();
        ChangesLeft { first, rest }
    }

    /// The first one.
    pub(crate) fn first(&self) -> Option<(&'a [u8], &'a [u8])>
        ensures { IsFirstEntry self.now result }
    {
        self.first
    }

    /// How the first one stands to a row: behind it where none is left.
    pub(crate) fn stands_to<K: RowKeys>(&self, keys: &K, row: &[u8]) -> Ordering
        ensures { result ≡ order_to (K.key_of keys.now row.now) self.now }
    {
        match self.first {
            Some((key, _)) => keys.compare(key, row),
            None => Ordering::Greater,
        }
    }

    /// Gives the first one.
    pub(crate) fn take(&mut self) -> Option<(&'a [u8], &'a [u8])>
        ensures { TakesEntry self.old result self.new }
    {
        let first = self.first;
        self.first = self.rest.next();
        first
    }
}

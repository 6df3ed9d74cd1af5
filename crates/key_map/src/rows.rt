//! Rows by their keys.

ghost use Rattle.std.specs.Prelude.{◌≡◌, ℕ, List, [], None, OnErr, OnOk, false, filter, option_map};
ghost use Rattle.std.specs.List.Sorted.{IsStrictlySortedBy};
ghost use Rattle.std.specs.Map.{keys_of, lookup, remove_entry};
ghost use Rattle.std.specs.BTreeMap.{insert_entry};
ghost use Rattle.key_map.specs.Slots.{Slots, HasRoom, by_bytes, by_key, has_room, IsInOrder, rows_of, slots_in};
ghost use Rattle.key_map.specs.Walk.{from_key, rows_left};

use crate::slots::{drop_slot, is_blank, make_slot, put_slot, write_slot};
use crate::walk::Rows;
use std::alloc::{AllocError, Global};
use std::collections::BTreeMap;
use std::marker::Model;
use std::ops::Bound;

/// Rows by their keys, both byte lists. A key may have room for a row that is not there yet.
///
/// Contracts see it as its slots, a list of keys that rise by their bytes, each with its row or
/// with room for one. What it stands for is `rows_of` that list: the rows that are there.
#[derive(Debug, Drop)]
pub struct OrderedRows {
    slots: BTreeMap<Vec<u8>, Option<Vec<u8>>>,
}

impl Model for OrderedRows {
    ghost Value = { Slots };

    ghost view = { λ t. slots_in t.slots.entries };

    ghost invariant = { λ t. IsInOrder t.slots };
}

impl OrderedRows {
    /// No rows, and no room. Takes no memory.
    pub fn new(alloc: Global) -> Self
        ensures { result ≡ [] }
    {
        OrderedRows {
            slots: BTreeMap::new(alloc),
        }
    }

    /// The row of a key, where there is one. Takes no memory.
    pub fn get(&self, key: &[u8]) -> Option<&[u8]>
        ensures { option_map (λ row. row.now) result ≡ lookup (by_key key.now) (rows_of self.now) }
    {
        match self.slots.get(key) {
            Some(slot) => match slot {
                Some(row) => Some(row.as_slice()),
                None => None,
            },
            None => None,
        }
    }

    /// Whether a key has room for a row, with or without one in it.
    pub fn has_room(&self, key: &[u8]) -> bool
        ensures { result ≡ has_room key.now self.now }
    {
        self.slots.contains_key(key)
    }

    /// Makes room for a row of this key, so that what is done to the key later takes no memory.
    /// Whether or not it finds that, all rows and all room stay.
    pub fn reserve(&mut self, alloc: Global, key: &[u8]) -> Result<(), AllocError>
        ensures rows { rows_of self.new ≡ rows_of self.old }
        ensures room { OnOk result (HasRoom key.now self.new) }
        ensures others { (q : List ℕ) → HasRoom q self.old → HasRoom q self.new }
    {
        let copy = Vec::from_slice(alloc, key)?;
        make_slot(&mut self.slots, copy)?;
        Ok(())
    }

    /// Puts a row at a key that has room, in place of the one that is there.
    pub fn put_reserved(&mut self, key: &[u8], row: Vec<u8>)
        requires { HasRoom key.now self.old }
        ensures rows { rows_of self.new ≡ insert_entry by_bytes (rows_of self.old) key.now row.items }
        ensures room { (q : List ℕ) → HasRoom q self.old → HasRoom q self.new }
    {
        write_slot(&mut self.slots, key, Some(row));
    }

    /// Puts a row at a key, in place of the one that is there, by one search. Only a key without
    /// room takes memory; where that is refused, the rows stay. All room stays.
    pub fn put(&mut self, key: Vec<u8>, row: Vec<u8>) -> Result<(), AllocError>
        ensures rows { OnOk result (rows_of self.new ≡ insert_entry by_bytes (rows_of self.old) key.items row.items) }
        ensures kept { OnErr result (rows_of self.new ≡ rows_of self.old) }
        ensures absent { OnErr result (has_room key.items self.old ≡ false) }
        ensures room { (q : List ℕ) → HasRoom q self.old → HasRoom q self.new }
    {
        put_slot(&mut self.slots, key, row)?;
        Ok(())
    }

    /// Takes the row of a key out, where there is one. The key keeps its room.
    pub fn remove(&mut self, key: &[u8])
        ensures rows { rows_of self.new ≡ remove_entry (by_key key.now) (rows_of self.old) }
        ensures room { (q : List ℕ) → HasRoom q self.old → HasRoom q self.new }
        ensures rising { IsStrictlySortedBy by_bytes (keys_of (rows_of self.old)) }
    {
        write_slot(&mut self.slots, key, None);
    }

    /// Gives up the room of a key that has no row; a row that is there stays.
    pub fn release(&mut self, key: &[u8])
        ensures rows { rows_of self.new ≡ rows_of self.old }
        ensures gone { lookup (by_key key.now) (rows_of self.old) ≡ None → lookup (by_key key.now) self.new ≡ None }
        ensures room { (q : List ℕ) → by_key key.now q ≡ false → HasRoom q self.old → HasRoom q self.new }
    {
        if is_blank(&self.slots, key) {
            drop_slot(&mut self.slots, key);
        }
    }

    /// The rows from a key on, in the order of their keys.
    pub fn rows_from<'a>(&'a self, start: &Vec<u8>) -> Rows<'a>
        ensures { rows_left result ≡ filter (from_key start.now.items) (rows_of self.now) }
    {
        Rows {
            slots: self.slots.range((Bound::Included(start), Bound::Unbounded)),
        }
    }

    /// All rows, in the order of their keys, which rise.
    pub fn rows(&self) -> Rows<'_>
        ensures all { rows_left result ≡ rows_of self.now }
        ensures rising { IsStrictlySortedBy by_bytes (keys_of (rows_of self.now)) }
    {
        let all: (Bound<&Vec<u8>>, Bound<&Vec<u8>>) = (Bound::Unbounded, Bound::Unbounded);
        Rows {
            slots: self.slots.range(all),
        }
    }
}

//! The changes of a table since its pages were written.

ghost use Rattle.std.specs.Prelude.{◌≡◌, ◌<◌, ℕ, List, [], Some, None, OnErr, OnOk, false, length, map, option_map};
ghost use Rattle.std.specs.BTreeMap.{insert_entry};
ghost use Rattle.key_map.specs.Slots.{HasRoom, by_bytes, by_key, has_room};
ghost use Rattle.key_map.specs.Walk.{rows_left};
ghost use Rattle.key_map.specs.Merging.{InOrder, Rows, changed, merged, over, row_at};
ghost use Rattle.key_map.specs.Overlay.{change_of, changes_of, said, seen};

use crate::{OrderedRows, Rows as RowsLeft};
use std::alloc::{AllocError, Global};
use std::marker::Model;

/// Changes by their keys: a row that was put, or the mark that the row was taken out. A key may
/// have room for a change that is not there yet. Keys are ordered by their bytes.
///
/// Contracts see its slots; `changes_of` them are the changes, and `merged` says what these make of
/// the rows of the table's pages.
#[derive(Debug, Drop)]
pub struct Overlay {
    entries: OrderedRows,
}

impl Model for Overlay {
    ghost use Rattle.key_map.specs.Slots.{Slots};

    ghost Value = { Slots };

    ghost view = { λ o. o.entries };
}

impl Overlay {
    /// No changes. Takes no memory.
    pub fn new(alloc: Global) -> Overlay
        ensures { result ≡ [] }
    {
        Overlay {
            entries: OrderedRows::new(alloc),
        }
    }

    /// Makes room for a change of this key, so that what is said of the key later takes no memory.
    /// Whether or not it finds that, all changes and all room stay.
    pub fn reserve(&mut self, alloc: Global, key: &[u8]) -> Result<(), AllocError>
        ensures changes { changes_of self.new ≡ changes_of self.old }
        ensures room { OnOk result (HasRoom key.now self.new) }
        ensures others { (q : List ℕ) → HasRoom q self.old → HasRoom q self.new }
    {
        self.entries.reserve(alloc, key)
    }

    /// Puts a row, of one byte at least, at a key that has room.
    pub fn put_reserved(&mut self, key: &[u8], row: Vec<u8>)
        requires room { HasRoom key.now self.old }
        requires row { 0 < length row.items }
        ensures changes { changes_of self.new ≡ insert_entry by_bytes (changes_of self.old) key.now (Some row.items) }
        ensures rows { (rows : Rows) → InOrder rows → merged rows (changes_of self.new) ≡ changed (merged rows (changes_of self.old)) key.now (Some row.items) }
        ensures room { (q : List ℕ) → HasRoom q self.old → HasRoom q self.new }
    {
        self.entries.put_reserved(key, row);
    }

    /// Marks the row of a key as taken out, where the key has room. Takes no memory.
    pub fn remove_reserved(&mut self, alloc: Global, key: &[u8])
        requires { HasRoom key.now self.old }
        ensures changes { changes_of self.new ≡ insert_entry by_bytes (changes_of self.old) key.now None }
        ensures rows { (rows : Rows) → InOrder rows → merged rows (changes_of self.new) ≡ changed (merged rows (changes_of self.old)) key.now None }
        ensures room { (q : List ℕ) → HasRoom q self.old → HasRoom q self.new }
    {
        self.entries.put_reserved(key, Vec::new(alloc));
    }

    /// Puts a row, of one byte at least, at a key, by one search. Only a key without room takes memory;
    /// where that is refused, the changes stay. All room stays.
    pub fn put(&mut self, key: Vec<u8>, row: Vec<u8>) -> Result<(), AllocError>
        requires { 0 < length row.items }
        ensures changes { OnOk result (changes_of self.new ≡ insert_entry by_bytes (changes_of self.old) key.items (Some row.items)) }
        ensures rows { OnOk result ((rows : Rows) → InOrder rows → merged rows (changes_of self.new) ≡ changed (merged rows (changes_of self.old)) key.items (Some row.items)) }
        ensures kept { OnErr result (changes_of self.new ≡ changes_of self.old) }
        ensures absent { OnErr result (has_room key.items self.old ≡ false) }
        ensures room { (q : List ℕ) → HasRoom q self.old → HasRoom q self.new }
    {
        self.entries.put(key, row)?;
        Ok(())
    }

    /// Marks the row of a key as taken out, by one search. Only a key without room takes memory; where
    /// that is refused, the changes stay. All room stays.
    pub fn remove(&mut self, alloc: Global, key: Vec<u8>) -> Result<(), AllocError>
        ensures changes { OnOk result (changes_of self.new ≡ insert_entry by_bytes (changes_of self.old) key.items None) }
        ensures rows { OnOk result ((rows : Rows) → InOrder rows → merged rows (changes_of self.new) ≡ changed (merged rows (changes_of self.old)) key.items None) }
        ensures kept { OnErr result (changes_of self.new ≡ changes_of self.old) }
        ensures absent { OnErr result (has_room key.items self.old ≡ false) }
        ensures room { (q : List ℕ) → HasRoom q self.old → HasRoom q self.new }
    {
        self.entries.put(key, Vec::new(alloc))?;
        Ok(())
    }

    /// Gives up the room of a key of which there is no change. A change that is there stays: a row that
    /// was put, or the mark of one that was taken out.
    pub fn release(&mut self, key: &[u8])
        ensures changes { changes_of self.new ≡ changes_of self.old }
        ensures room { (q : List ℕ) → by_key key.now q ≡ false → HasRoom q self.old → HasRoom q self.new }
    {
        self.entries.release(key);
    }

    /// What the changes say of a key: the row that was put there, that the row was taken out
    /// (`Some(None)`), or nothing. Takes no memory.
    pub fn change<'a>(&'a self, key: &[u8]) -> Option<Option<&'a [u8]>>
        ensures { option_map seen result ≡ row_at key.now (changes_of self.now) }
    {
        said_by(self.entries.get(key))
    }

    /// The row of a key in the table, where `base` is the row that the table's pages have there: a
    /// change of the key wins. Takes no memory.
    pub fn get<'a>(&'a self, key: &[u8], base: Option<&'a [u8]>) -> Option<&'a [u8]>
        ensures { (rows : Rows) → InOrder rows → seen base.entry ≡ row_at key.now rows
            → seen result ≡ row_at key.now (merged rows (changes_of self.now)) }
    {
        choose(self.entries.get(key), base)
    }

    /// All changes, in the order of their keys, which rise: the row that was put at a key, or no bytes
    /// where the row was taken out. Takes no memory.
    pub fn entries(&self) -> RowsLeft<'_>
        ensures all { map change_of (rows_left result) ≡ changes_of self.now }
        ensures rising { InOrder (changes_of self.now) }
    {
        self.entries.rows()
    }
}

// What an entry says, or, where there is none, the row of the pages.
fn choose<'a>(change: Option<&'a [u8]>, base: Option<&'a [u8]>) -> Option<&'a [u8]>
    ensures { seen result ≡ over (option_map said (seen change.entry)) (seen base.entry) }
{
    match change {
        Some([]) => None,
        Some(row) => Some(row),
        None => base,
    }
}

// What an entry says of its key.
fn said_by(entry: Option<&[u8]>) -> Option<Option<&[u8]>>
    ensures { option_map seen result ≡ option_map said (seen entry.entry) }
{
    match entry {
        Some([]) => Some(None),
        Some(row) => Some(Some(row)),
        None => None,
    }
}

//! A cursor, and the block of rows that it sends next.

ghost use Rattle.std.specs.Prelude.{◌≡◌, ◌≤◌, length};
ghost use Rattle.sections.specs.Units.{cursor_ended};
ghost use Rattle.tables.specs.RowList.{RowList};

use sqlam_replies::block;
use std::marker::Model;
use tables::RowList;

/// The rows of a query as they were at its opening, and how many of them were sent.
#[derive(Drop)]
pub struct Cursor {
    rows: RowList,
    place: usize,
    instance: u64,
    is_held: bool,
    block_size: u32,
}

impl Model for Cursor {
    ghost use Rattle.std.specs.Prelude.{◌≤◌, length};
    ghost use Rattle.sections.specs.Kept.{Cursor};

    ghost Value = { Cursor };

    ghost view = { λ c. record { rows = c.rows; place = c.place; instance = c.instance; is_held = c.is_held; block_size = c.block_size } };

    ghost invariant = { λ c. c.place ≤ length c.rows.rows };
}

/// The rows that a cursor sends next: so many of its rows from one on, counted from 0.
#[derive(Clone, Copy, Debug)]
pub struct Block<'a> {
    /// The rows of the cursor, with what describes them.
    pub rows: &'a RowList,
    /// The first row of the block.
    pub start: usize,
    /// How many rows the block has: 0 where none remains.
    pub count: usize,
    /// The size of the block in bytes (QRYBLKSZ), which a longer single row passes.
    pub size: u32,
    /// Whether no row remains behind the block.
    pub is_last: bool,
    /// Whether the cursor stays open over a commit (SQLCSRHLD).
    pub is_held: bool,
}

impl Cursor {
    pub(crate) fn new(rows: RowList, instance: u64, is_held: bool, block_size: u32) -> Cursor
        ensures { result ≡ record { rows = rows; place = 0; instance = instance; is_held = is_held; block_size = block_size } }
    {
        Cursor {
            rows,
            place: 0,
            instance,
            is_held,
            block_size,
        }
    }
}

impl Cursor {
    ghost use Rattle.sections.specs.Cursors.{is_meant};

    pub(crate) fn is_meant(&self, instance: Option<u64>) -> bool
        ensures { result ≡ is_meant instance self.now }
    {
        match instance {
            Some(instance) => instance == self.instance,
            None => true,
        }
    }

    // The cursor, if it stays open at the end of a unit.
    pub(crate) fn ended(self, keeps_held: bool) -> Option<Cursor>
        ensures { result ≡ cursor_ended keeps_held self }
    {
        if keeps_held && self.is_held {
            Some(self)
        } else {
            None
        }
    }
}

impl Cursor {
    ghost use Rattle.sections.specs.Blocks.{advanced, IsBlockOf};
    ghost use Rattle.sections.specs.Room.{IsShort};

    pub(crate) fn block(&self, size: Option<u32>) -> Block<'_>
        ensures next { IsBlockOf self.now size result }
        ensures short { IsShort result }
    {
        // Both say that the rows are those of a schema, so none is long.
        let _columns = self.rows.schema().columns();
        let _places = self.rows.selected();
        let size = size.unwrap_or(self.block_size);
        let rows = self.rows.len();
        let count = block(&self.rows, self.place, size as usize);
        Block {
            rows: &self.rows,
            start: self.place,
            count,
            size,
            is_last: rows <= self.place + count,
            is_held: self.is_held,
        }
    }

    // The cursor behind so many more rows, if any remains.
    pub(crate) fn advanced(self, count: usize, size: u32) -> Option<Cursor>
        ensures { result ≡ advanced count size self }
    {
        let end = self.place.saturating_add(count);
        if self.rows.len() <= end {
            return None;
        }
        let mut cursor = self;
        cursor.place = end;
        cursor.block_size = size;
        Some(cursor)
    }
}

//! Merging a table step by step.
ghost use Rattle.std.specs.Prelude.{◌≡◌, ◌⊎◌, ◌+◌, ◌*◌, ◌<◌, ◌≤◌, ◌++◌, ℕ, List, IsTrue, IfOk, length};
ghost use Rattle.std.specs.List.{AllByRecursion};
ghost use Rattle.drda_disk.specs.Layout.{page_bytes};
ghost use Rattle.row_pages.specs.Laying.{IsShort, laid};
ghost use Rattle.key_map.specs.Merging.{Rows};
ghost use Rattle.half_store.specs.Writing.{from_of, half_bytes_of};
ghost use Rattle.table_map.specs.Cursor.{IsLeft, weight};
ghost use Rattle.table_map.specs.Damage.{HasNoRows, SomePage};
ghost use Rattle.table_map.specs.Table.{without_keys};
ghost use Rattle.checkpoint_writer.specs.Adding.{AddsPages, end_of_half};
ghost use Rattle.checkpoint_writer.specs.Errors.{CountsImage, DamagedWhere, TellsFull};
ghost use Rattle.checkpoint_writer.specs.Writing.{HasLaid};

use crate::ImageError;
use crate::merging::TableWriter;
use drda_disk::Disk;
use half_store::ImageWriter;
use std::alloc::Global;
use table_map::{NotedRows, RowCursor, RowKeys};

/// A table that is merged: the rows that are left, and those that were laid and noted.
#[derive(Drop)]
pub(crate) struct Merging<'a> {
    pub(crate) cursor: RowCursor<'a>,
    pub(crate) writer: TableWriter,
    pub(crate) noted: NotedRows,
}

impl<'a> Merging<'a> {
    ghost use Rattle.checkpoint_writer.specs.Steps.{Steps};

    /// Lays the next rows that are left, and notes them: a page whole, where all of its rows are the next ones
    /// and the first begins a page, else one row. False where none was left.
    pub(crate) fn step<K: RowKeys, D: Disk>(
        &mut self,
        alloc: Global,
        keys: &K,
        disk: &mut D,
        image: &mut ImageWriter,
    ) -> Result<bool, ImageError>
        requires there { self.old.cursor.base.at + page_bytes * self.old.cursor.base.pages ≤ length (D.life disk.old).seen }
        requires inside { from_of image.old + half_bytes_of image.old ≤ length (D.life disk.old).seen }
        ensures adds { AddsPages D.is_modelled (D.life disk.old) (D.life disk.new) image.old image.new }
        ensures steps { IfOk result (λ some. Steps D.is_modelled (D.life disk.old).seen (D.life disk.new).seen (K.key_of keys.now) some image.old image.new self.old self.new) }
        ensures fewer { IfOk result (λ some. IsTrue some → weight self.new.cursor < weight self.old.cursor) }
        ensures full { (left : Rows) (start : ℕ) (rows : List (List ℕ)) → IsTrue D.is_modelled → IsLeft (K.key_of keys.now) (D.life disk.old).seen self.old.cursor left
            → HasLaid D.is_modelled (K.key_of keys.now) (D.life disk.old).seen start image.old self.old.writer rows
            → TellsFull result (end_of_half image.old) (start + page_bytes * length (laid (rows ++ without_keys left))) }
        ensures damaged { (left : Rows) → IsTrue D.is_modelled → IsLeft (K.key_of keys.now) (D.life disk.old).seen self.old.cursor left
            → DamagedWhere (SomePage HasNoRows (D.life disk.old).seen self.old.cursor.base.at self.old.cursor.base.pages ⊎ (AllByRecursion IsShort (without_keys left) → ⊥)) result }
        ensures cause { CountsImage result (D.life disk.old).faults (D.life disk.new).faults }
    {
        let room = self.writer.room();
        if let Some(page) = self.cursor.next_page(alloc, keys, disk, room)? {
            self.noted.note_page(&page);
            self.writer.add_page(alloc, keys, disk, image, page)?;
            return Ok(true);
        }
        let Some(row) = self.cursor.next(alloc, keys, disk)? else {
            return Ok(false);
        };
        self.writer.add(alloc, keys, disk, image, row)?;
        self.noted.note(row);
        Ok(true)
    }
}

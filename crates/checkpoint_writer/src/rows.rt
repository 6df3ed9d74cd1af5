//! Rows that are laid into pages one behind another.
ghost use Rattle.std.specs.Prelude.{◌≡◌, ◌+◌, ◌*◌, ◌≤◌, ◌++◌, ◌∷◌, [], ℕ, List, true, IsTrue, OnOk, IfOk, length};
ghost use Rattle.drda_disk.specs.Layout.{page_bytes};
ghost use Rattle.row_pages.specs.Laying.{IsShort, laid};
ghost use Rattle.half_store.specs.Writing.{from_of, half_bytes_of, next_of};
ghost use Rattle.table_map.specs.Keyed.{first_key, first_keys};
ghost use Rattle.table_map.specs.Whole.{TakesMore};
ghost use Rattle.checkpoint_writer.specs.Adding.{AddsPages, end_of_half};
ghost use Rattle.checkpoint_writer.specs.Errors.{CountsImage, DamagedWhere, TellsFull};

use crate::ImageError;
use crate::page::write_page;
use drda_disk::Disk;
use half_store::ImageWriter;
use row_pages::{KeptPage, PageBuilder, PageKind};
use std::alloc::{AllocError, Global};

/// Lays rows into the pages of an image, so that a page ends only where the next row does not fit. A
/// page is written once it is full; the one that is being filled is in memory.
#[derive(Drop)]
pub(crate) struct RowWriter {
    pub(crate) page: PageBuilder,
    pub(crate) is_empty: bool,
}

impl RowWriter {
    ghost use Rattle.checkpoint_writer.specs.Laying.{BeginsPage, IsLaying, StandAt, key_if};

    /// No rows yet. The memory of a page is taken here.
    pub(crate) fn new(alloc: Global, kind: PageKind) -> Result<RowWriter, AllocError>
        ensures page { IfOk result (λ writer. writer.page ≡ record { kind = kind; rows = [] }) }
        ensures empty { IfOk result (λ writer. writer.is_empty ≡ true) }
    {
        Ok(RowWriter {
            page: PageBuilder::new(alloc, kind)?,
            is_empty: true,
        })
    }

    /// Lays a row behind the others. Whether it is the first of its page.
    pub(crate) fn add<D: Disk>(
        &mut self,
        alloc: Global,
        disk: &mut D,
        image: &mut ImageWriter,
        row: &[u8],
    ) -> Result<bool, ImageError>
        requires row { IsShort row.now }
        requires inside { from_of image.old + half_bytes_of image.old ≤ length (D.life disk.old).seen }
        ensures adds { AddsPages D.is_modelled (D.life disk.old) (D.life disk.new) image.old image.new }
        ensures laid { (start : ℕ) (rows : List (List ℕ)) → IsLaying D.is_modelled (D.life disk.old).seen start image.old self.old rows
            → OnOk result (IsLaying D.is_modelled (D.life disk.new).seen start image.new self.new (rows ++ row.now ∷ [])) }
        ensures kind { OnOk result (self.new.page.kind ≡ self.old.page.kind) }
        ensures first { (start : ℕ) (rows : List (List ℕ)) (key_of : List ℕ → List ℕ) → IsLaying D.is_modelled (D.life disk.old).seen start image.old self.old rows
            → IfOk result (λ first. first_keys key_of (laid (rows ++ row.now ∷ [])) ≡ first_keys key_of (laid rows) ++ key_if first (key_of row.now)) }
        ensures full { (start : ℕ) (rows rest : List (List ℕ)) → IsLaying D.is_modelled (D.life disk.old).seen start image.old self.old rows
            → TellsFull result (end_of_half image.old) (start + page_bytes * length (laid (rows ++ row.now ∷ rest))) }
        ensures damaged { DamagedWhere ⊥ result }
        ensures cause { CountsImage result (D.life disk.old).faults (D.life disk.new).faults }
    {
        match self.page.lay(alloc, row)? {
            None => {
                let first = self.is_empty;
                self.is_empty = false;
                Ok(first)
            }
            Some(full) => {
                write_page(disk, image, &full)?;
                self.is_empty = false;
                Ok(true)
            }
        }
    }

    /// The bytes that a row may take, with two for its length, to stand in the page that is being filled; none
    /// where that has no rows.
    pub(crate) fn room(&self) -> usize
        ensures { (rows : List (List ℕ)) → TakesMore result rows → BeginsPage self.now rows }
    {
        if self.is_empty { 0 } else { self.page.room() }
    }

    /// Lays the rows of a page behind the others, where they begin a page: the one that is being filled is
    /// written, if it has rows, and that page goes on to be filled in place of it. No row is copied, and no
    /// memory is taken.
    pub(crate) fn add_page<D: Disk>(
        &mut self,
        disk: &mut D,
        image: &mut ImageWriter,
        page: KeptPage,
    ) -> Result<(), ImageError>
        requires begins { BeginsPage self.old page.rows }
        requires inside { from_of image.old + half_bytes_of image.old ≤ length (D.life disk.old).seen }
        ensures adds { AddsPages D.is_modelled (D.life disk.old) (D.life disk.new) image.old image.new }
        ensures laid { (start : ℕ) (rows : List (List ℕ)) → IsLaying D.is_modelled (D.life disk.old).seen start image.old self.old rows
            → OnOk result (IsLaying D.is_modelled (D.life disk.new).seen start image.new self.new (rows ++ page.rows)) }
        ensures kind { OnOk result (self.new.page.kind ≡ self.old.page.kind) }
        ensures first { (start : ℕ) (rows : List (List ℕ)) (key_of : List ℕ → List ℕ) → IsLaying D.is_modelled (D.life disk.old).seen start image.old self.old rows
            → OnOk result (first_keys key_of (laid (rows ++ page.rows)) ≡ first_keys key_of (laid rows) ++ first_key key_of page.rows ∷ []) }
        ensures full { (start : ℕ) (rows rest : List (List ℕ)) → IsLaying D.is_modelled (D.life disk.old).seen start image.old self.old rows
            → TellsFull result (end_of_half image.old) (start + page_bytes * length (laid (rows ++ (page.rows ++ rest)))) }
        ensures damaged { DamagedWhere ⊥ result }
        ensures cause { CountsImage result (D.life disk.old).faults (D.life disk.new).faults }
    {
        let former = self.page.replace(page);
        let had_none = self.is_empty;
        self.is_empty = false;
        if had_none {
            return Ok(());
        }
        write_page(disk, image, &former.finish())?;
        Ok(())
    }

    /// Writes the page that is being filled, where it has rows.
    pub(crate) fn finish<D: Disk>(
        self,
        disk: &mut D,
        image: &mut ImageWriter,
    ) -> Result<(), ImageError>
        requires inside { from_of image.old + half_bytes_of image.old ≤ length (D.life disk.old).seen }
        ensures adds { AddsPages D.is_modelled (D.life disk.old) (D.life disk.new) image.old image.new }
        ensures stand { (start : ℕ) (rows : List (List ℕ)) → IsLaying D.is_modelled (D.life disk.old).seen start image.old self rows
            → OnOk result (IsTrue D.is_modelled → StandAt self.page.kind (D.life disk.new).seen start (laid rows)) }
        ensures pages { (start : ℕ) (rows : List (List ℕ)) → IsLaying D.is_modelled (D.life disk.old).seen start image.old self rows
            → OnOk result (next_of image.new ≡ start + page_bytes * length (laid rows)) }
        ensures full { (start : ℕ) (rows : List (List ℕ)) → IsLaying D.is_modelled (D.life disk.old).seen start image.old self rows
            → TellsFull result (end_of_half image.old) (start + page_bytes * length (laid rows)) }
        ensures damaged { DamagedWhere ⊥ result }
        ensures cause { CountsImage result (D.life disk.old).faults (D.life disk.new).faults }
    {
        if self.is_empty {
            return Ok(());
        }
        write_page(disk, image, &self.page.finish())?;
        Ok(())
    }
}

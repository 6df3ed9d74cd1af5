//! Tables over the pages of a store.
use checkpoint_writer::ImageError;
use drda_disk::{Disk, PAGE_BYTES};
use half_store::{Active, OpenError, open};
use paged_checkpoints::{open_checkpoint, write_checkpoint};
use paged_tables::PagedTables;
use row_pages::{PageFault, Pager};
use std::alloc::{AllocError, Global};
use std::marker::Model;
use store_check::CheckError;
use tables::{Change, Rows};

/// The bytes of a store.
pub const STORE_BYTES: usize = 2_097_152;

/// Tables, the disk on which their pages lie, and its active half.
#[derive(Drop)]
pub struct Held<D: Disk> {
    tables: PagedTables,
    pager: Pager<D>,
    active: Active,
}

impl<D: Disk> Model for Held<D> {
    ghost use Rattle.std.specs.Prelude.{length};
    ghost use Rattle.paged_tables.specs.declared.store.PagedTables.{PagedTables};
    ghost use Rattle.paged_tables.specs.TablesByName.{LieInside};

    ghost Value = { PagedTables };

    ghost view = { λ h. h.tables };

    ghost invariant = { λ h. LieInside (length (D.life h.pager).seen) h.tables.tables };
}

// The active half of a store.
fn active_in<D: Disk>(alloc: Global, disk: &mut D) -> Result<Active, CheckError> {
    match open(alloc, disk) {
        Ok(active) => Ok(active),
        Err(OpenError::NoMemory) => Err(CheckError::NoMemory),
        Err(_) => Err(CheckError::DeviceFailed),
    }
}

impl<D: Disk + Drop> Held<D> {
    /// The tables of a store's last checkpoint.
    pub fn open(alloc: Global, pager: Pager<D>) -> Result<Held<D>, CheckError> {
        let mut pager = pager;
        let active = active_in(alloc, &mut pager)?;
        let pages = active.pages as usize;
        let end = active.region.at;
        if end > STORE_BYTES || end > pager.size() || PAGE_BYTES * pages > end {
            return Err(CheckError::DeviceFailed);
        }
        let tables = open_checkpoint(alloc, &mut pager, &active)?;
        Ok(Held {
            tables,
            pager,
            active,
        })
    }

    /// Makes changes, for which room is made first.
    pub fn commit(&mut self, alloc: Global, changes: Vec<Change>) -> Result<(), AllocError> {
        self.tables.reserve(alloc, &changes)?;
        self.tables.apply_reserved(alloc, changes);
        Ok(())
    }

    /// Writes a checkpoint that holds so many bytes back, and goes on over its pages.
    pub fn checkpoint(&mut self, alloc: Global, held: usize) -> Result<(), ImageError> {
        if self.pager.size() != STORE_BYTES {
            return Err(ImageError::Damaged);
        }
        let relaid = write_checkpoint(
            alloc,
            &mut self.pager,
            &self.active,
            &self.tables,
            &[],
            held,
        )?;
        self.tables.relaid(alloc, relaid.pages);
        self.active = relaid.switched.active;
        Ok(())
    }

    /// Makes this the generation of the active half, as if there had been so many checkpoints.
    pub fn age(&mut self, generation: u64) {
        self.active.generation = generation;
    }

    /// Makes the byte at an offset another one.
    pub fn damage(&mut self, at: usize) {
        if at < STORE_BYTES && at < self.pager.size() {
            let _ = self.pager.write_at(at, &[9]);
        }
    }

    /// All rows of a table.
    pub fn rows(&mut self, alloc: Global, name: &str) -> Result<Rows, PageFault> {
        self.tables.rows(alloc, &mut self.pager, name)
    }

    /// How many tables there are.
    pub fn count(&self) -> usize {
        self.tables.count()
    }

    /// The disk.
    pub fn into_disk(self) -> D {
        self.pager.into_disk()
    }
}

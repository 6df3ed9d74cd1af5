//! A disk that stands in its syncs.

ghost use Rattle.std.specs.Prelude.{◌≡◌, false};
ghost use Rattle.drda_disk.specs.File.{no_image};

use crate::boards::Board;
use drda_disk::{Disk, DiskFault, Flushed, Flusher};
use std::alloc::Global;

/// Passes each call on to the disk inside, of which it is not known that it gives back what was written. In front of a sync it does what a
/// board asks for, with the lock held by the one whose sync it is. Threads get it, so it has the host itself to look who sleeps: what it
/// had by a type parameter would be known in the thread that made it alone. It waits for nobody's lock.
#[derive(Drop)]
pub struct StandingDisk<'r, D: Disk> {
    files: HostRuntime,
    alloc: Global,
    board: &'r Board,
    inner: D,
}

impl<'r, D: Disk> StandingDisk<'r, D> {
    /// Over this disk, by this board.
    pub fn new(
        files: HostRuntime,
        alloc: Global,
        board: &'r Board,
        inner: D,
    ) -> StandingDisk<'r, D> {
        StandingDisk {
            files,
            alloc,
            board,
            inner,
        }
    }

    /// The disk inside.
    pub fn into_inner(self) -> D {
        self.inner
    }
}

impl<D: Disk> Disk for StandingDisk<'_, D> {
    ghost is_modelled = { false };

    ghost life = { λ d. D.life d.inner };

    ghost read_is_image = { λ _ told. no_image told };

    ghost now_counts = { λ d. D.now_counts d.inner };

    fn size(&self) -> usize {
        self.inner.size()
    }

    fn failures(&self) -> u64 {
        self.inner.failures()
    }

    fn read_at(&mut self, at: usize, into: &mut [u8]) -> Result<(), DiskFault> {
        self.inner.read_at(at, into)
    }

    fn write_at(&mut self, at: usize, bytes: &[u8]) -> Result<(), DiskFault> {
        self.inner.write_at(at, bytes)
    }

    fn sync(&mut self) -> Result<(), DiskFault> {
        self.board.reach_sync(&self.files, self.alloc);
        self.inner.sync()
    }

    fn flusher(&self) -> Flusher {
        Flusher::nothing()
    }

    fn settle(&mut self, _flushed: Flushed) -> Result<(), DiskFault> {
        self.sync()
    }
}

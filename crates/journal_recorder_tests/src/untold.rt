//! A disk of which nothing is known.

ghost use Rattle.std.specs.Prelude.{◌≡◌, false};
ghost use Rattle.drda_disk.specs.File.{no_image};

use drda_disk::{Disk, DiskFault, Flushed, Flusher};

/// A disk that passes each call on to the one inside, and of which it is not known that it gives back what was written.
#[derive(Drop)]
pub struct Untold<D: Disk> {
    inner: D,
}

impl<D: Disk> Untold<D> {
    /// Over this disk.
    pub fn new(inner: D) -> Untold<D> {
        Untold { inner }
    }

    /// The disk inside.
    pub fn into_inner(self) -> D {
        self.inner
    }
}

impl<D: Disk> Disk for Untold<D> {
    ghost is_modelled = { false };

    ghost life = { λ d. D.life d.inner };

    ghost read_is_image = { λ _ told. no_image told };

    ghost now_counts = { λ d. D.now_counts d.inner };

    fn size(&self) -> usize {
        self.inner.size()
    }

    fn failures(&self) -> u64 {
        self.inner.failures()
    }

    fn read_at(&mut self, at: usize, into: &mut [u8]) -> Result<(), DiskFault> {
        self.inner.read_at(at, into)
    }

    fn write_at(&mut self, at: usize, bytes: &[u8]) -> Result<(), DiskFault> {
        self.inner.write_at(at, bytes)
    }

    fn sync(&mut self) -> Result<(), DiskFault> {
        self.inner.sync()
    }

    fn flusher(&self) -> Flusher {
        Flusher::nothing()
    }

    fn settle(&mut self, _flushed: Flushed) -> Result<(), DiskFault> {
        self.sync()
    }
}

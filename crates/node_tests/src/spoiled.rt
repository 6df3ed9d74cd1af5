//! A disk that gives back another byte than was written.

ghost use Rattle.std.specs.Prelude.{◌≡◌, false};
ghost use Rattle.drda_disk.specs.File.{no_image};

use drda_disk::{Disk, DiskFault, Flushed, Flusher};

/// A disk that passes each call on to the one inside. What it reads of one place, if any, is another byte from the second time on that
/// the place is read.
#[derive(Drop)]
pub struct SpoiledDisk<D: Disk> {
    inner: D,
    place: Option<usize>,
    was_read: bool,
}

impl<D: Disk> SpoiledDisk<D> {
    /// Over this disk, of which this byte is given back wrongly.
    pub fn new(inner: D, place: Option<usize>) -> SpoiledDisk<D> {
        SpoiledDisk {
            inner,
            place,
            was_read: false,
        }
    }

    /// The disk inside.
    pub fn into_inner(self) -> D {
        self.inner
    }

    // Spoils what was read from `at` on.
    fn spoil(&mut self, at: usize, read: &mut [u8])
        ensures { self.new.inner ≡ self.old.inner }
    {
        let Some(place) = self.place else {
            return;
        };
        let Some(offset) = place.checked_sub(at) else {
            return;
        };
        let Some(byte) = read.get_mut(offset) else {
            return;
        };
        if self.was_read {
            *byte ^= 0xFF;
        }
        self.was_read = true;
    }
}

impl<D: Disk> Disk for SpoiledDisk<D> {
    ghost is_modelled = { false };

    ghost life = { λ d. D.life d.inner };

    ghost read_is_image = { λ _ told. no_image told };

    ghost now_counts = { λ d. D.now_counts d.inner };

    fn size(&self) -> usize {
        self.inner.size()
    }

    fn failures(&self) -> u64 {
        self.inner.failures()
    }

    fn read_at(&mut self, at: usize, into: &mut [u8]) -> Result<(), DiskFault> {
        match self.inner.read_at(at, into) {
            Ok(()) => {
                self.spoil(at, into);
                Ok(())
            }
            Err(fault) => Err(fault),
        }
    }

    fn write_at(&mut self, at: usize, bytes: &[u8]) -> Result<(), DiskFault> {
        self.inner.write_at(at, bytes)
    }

    fn sync(&mut self) -> Result<(), DiskFault> {
        self.inner.sync()
    }

    fn flusher(&self) -> Flusher {
        Flusher::nothing()
    }

    fn settle(&mut self, _flushed: Flushed) -> Result<(), DiskFault> {
        self.sync()
    }
}

//! A disk that wears out.

ghost use Rattle.std.specs.Prelude.{false};
ghost use Rattle.drda_disk.specs.File.{no_image};

use drda_disk::{Disk, DiskFault, Flushed, Flusher};
use std::alloc::Global;

/// Passes each call on to the disk inside, of which it is not known that it gives back what was written: from some call
/// on reads give other bytes at one place.
#[derive(Drop)]
pub struct WornDisk<D: Disk> {
    inner: D,
    /// How many calls are those of the disk inside.
    left: u64,
    at: usize,
    bytes: Vec<u8>,
}

// Puts the bytes that stand at a place of the disk over those that were read from `at` on.
fn wear(into: &mut [u8], at: usize, place: usize, bytes: &[u8]) {
    let mut here = place;
    for byte in bytes {
        match here.checked_sub(at) {
            Some(offset) => set(into, offset, *byte),
            None => {}
        }
        here = here.saturating_add(1);
    }
}

fn set(into: &mut [u8], offset: usize, byte: u8) {
    match into.get_mut(offset) {
        Some(cell) => *cell = byte,
        None => {}
    }
}

// Counts a call, and says whether none is left.
fn is_over(left: &mut u64) -> bool {
    if *left == 0 {
        return true;
    }
    *left -= 1;
    false
}

impl<D: Disk> WornDisk<D> {
    /// Over this disk. It never gives other bytes.
    pub fn new(alloc: Global, inner: D) -> WornDisk<D> {
        WornDisk {
            inner,
            left: u64::MAX,
            at: 0,
            bytes: Vec::new(alloc),
        }
    }

    /// Over this disk. Behind so many calls reads give these bytes from the offset on.
    pub fn worn(inner: D, left: u64, at: usize, bytes: Vec<u8>) -> WornDisk<D> {
        WornDisk {
            inner,
            left,
            at,
            bytes,
        }
    }

    /// The disk inside.
    pub fn into_inner(self) -> D {
        self.inner
    }
}

impl<D: Disk> Disk for WornDisk<D> {
    ghost is_modelled = { false };

    ghost life = { λ d. D.life d.inner };

    ghost read_is_image = { λ _ told. no_image told };

    ghost now_counts = { λ d. D.now_counts d.inner };

    fn size(&self) -> usize {
        self.inner.size()
    }

    fn failures(&self) -> u64 {
        self.inner.failures()
    }

    fn read_at(&mut self, at: usize, into: &mut [u8]) -> Result<(), DiskFault> {
        let is_worn = is_over(&mut self.left);
        self.inner.read_at(at, into)?;
        if is_worn {
            wear(into, at, self.at, &self.bytes);
        }
        Ok(())
    }

    fn write_at(&mut self, at: usize, bytes: &[u8]) -> Result<(), DiskFault> {
        let _is_worn = is_over(&mut self.left);
        self.inner.write_at(at, bytes)
    }

    fn sync(&mut self) -> Result<(), DiskFault> {
        let _is_worn = is_over(&mut self.left);
        self.inner.sync()
    }

    fn flusher(&self) -> Flusher {
        Flusher::nothing()
    }

    fn settle(&mut self, _flushed: Flushed) -> Result<(), DiskFault> {
        self.sync()
    }
}

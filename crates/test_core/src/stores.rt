//! Stores in memory.

use drda_disk::MemDisk;
use half_store::format;
use std::alloc::Global;

/// The least store.
const TWO_MIB: usize = 2_097_152;

/// A disk of this many bytes with a fresh store of the name SHOP. None where that is no size of a store, and without memory.
pub fn store_of(alloc: Global, size: usize) -> Option<MemDisk> {
    let mut disk = MemDisk::new(alloc, size).ok()?;
    format(alloc, &mut disk, "SHOP").ok()?;
    Some(disk)
}

/// The same of 2 MiB.
pub fn fresh_store(alloc: Global) -> Option<MemDisk> {
    store_of(alloc, TWO_MIB)
}

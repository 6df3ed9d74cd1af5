//! Stores, made and opened.

ghost use Rattle.std.specs.Prelude.{◌≡◌, false, IsTrue, List, ℕ, OnErr, OnOk, length, true};
ghost use Rattle.drda_disk.specs.Disk.{LeavesOnly, Only};
ghost use Rattle.half_store.specs.Fresh.{IsFresh, IsNoneOrFresh, IsUnmarked, is_store_of};
ghost use Rattle.recovery.specs.Durable.{fresh as fresh_store};
ghost use Rattle.recovery.specs.Opens.{OpensTo};
ghost use Rattle.store_files.specs.Endings.{fault_for};
ghost use Rattle.store_files.specs.InMemory.{BeginsFresh};
ghost use Rattle.store_files.specs.Opening.{HasSettled, IsMade, IsOpened, LeavesNone, OpensSettled, OpensStore};
ghost use Rattle.store_files.specs.Stores.{FindsFresh, MakesFile, MakesNamed};

use crate::blocks::reserve_blocks;
use crate::fault::Fault;
use crate::files::StoreFiles;
use drda_disk::{Disk, MemDisk};
use durable_core::{DurableCore, OpenError};
use half_store::{FormatError, format, is_store};
use std::alloc::Global;

/// The bytes of a store in memory.
const MEMORY_SIZE: usize = 2_097_152;

/// More writes than a store in memory makes between two syncs: a checkpoint of 127 pages makes most.
const WRITES_AT_ONCE: usize = 256;

/// Makes a store of this name on a disk. A disk that has no store's size is reported as a fault of the
/// device: it was made with another one.
fn make<D: Disk>(alloc: Global, disk: &mut D, rdb: &str) -> Result<(), Fault>
    ensures made { OnOk result (IsTrue D.is_modelled → Only (D.life disk.new) × IsFresh rdb.now (D.life disk.new).seen) }
    ensures moments { IsTrue D.is_modelled → IsUnmarked (D.life disk.old) → LeavesOnly (D.life disk.old) (D.life disk.new) (IsNoneOrFresh rdb.now) }
    ensures named { MakesNamed rdb.now result }
{
    match format(alloc, disk, rdb) {
        Ok(()) => Ok(()),
        Err(FormatError::BadName) => Err(Fault::BadArguments),
        Err(FormatError::BadSize) | Err(FormatError::DeviceFailed) => Err(Fault::Device),
        Err(FormatError::NoMemory) => Err(Fault::NoMemory),
    }
}

/// Makes a store of this name on a disk that has its blocks then, all of them; it is a fault of the device where it has not, or has
/// another size than this.
fn make_on<D: Disk>(alloc: Global, disk: &mut D, size: usize, rdb: &str) -> Result<(), Fault>
    ensures made { OnOk result (IsTrue D.is_modelled → Only (D.life disk.new) × IsFresh rdb.now (D.life disk.new).seen) }
    ensures sized { OnOk result (length (D.life disk.new).seen ≡ size) }
    ensures moments { IsTrue D.is_modelled → IsUnmarked (D.life disk.old) → LeavesOnly (D.life disk.old) (D.life disk.new) (IsNoneOrFresh rdb.now) }
    ensures named { MakesNamed rdb.now result }
{
    reserve_blocks(alloc, disk)?;
    make(alloc, disk, rdb)?;
    if disk.size() != size {
        return Err(Fault::Device);
    }
    Ok(())
}

/// Makes a file of so many bytes, all of whose blocks the system has, and a store of this name in it. A size or a name that no store has
/// is refused before any file is made; a file that has another size is a fault of the device. Where no store is made of it no file
/// is left.
pub fn make_file<F: StoreFiles>(
    alloc: Global,
    files: &mut F,
    path: &str,
    size: u64,
    rdb: &str,
) -> Result<(), Fault>
    ensures made { OnOk result (IsMade F.Disk.is_modelled F.Disk.life F.calls files.old path.now size rdb.now files.new) }
    ensures refused { is_store_of size rdb.now ≡ false → files.new ≡ files.old }
    ensures none_left { is_store_of size rdb.now ≡ true → OnErr result (LeavesNone F.Disk.is_modelled F.Disk.life F.calls files.old path.now size files.new) }
    ensures cause { MakesFile size rdb.now result }
{
    if !is_store(size as usize, rdb) {
        return Err(Fault::BadArguments);
    }
    let Ok(mut disk) = files.create(path, size as usize) else {
        return Err(Fault::Device);
    };
    match make_on(alloc, &mut disk, size as usize, rdb) {
        Ok(()) => Ok(()),
        Err(fault) => {
            drop(disk);
            files.discard(path);
            Err(fault)
        }
    }
}

/// The core over the store that a disk is.
fn open_disk<D: Disk + Drop>(alloc: Global, disk: D) -> Result<DurableCore<D>, Fault>
    ensures opened { IsOpened D.is_modelled D.life disk result }
    ensures settled { HasSettled D.is_modelled D.life D.syncs disk result }
    ensures fresh { (name : List ℕ) → IsTrue D.is_modelled → OpensTo name fresh_store (D.life disk).seen → FindsFresh name result }
{
    match durable_core::open(alloc, disk) {
        Ok(core) => Ok(core),
        Err(refused) => Err(fault_of(refused.error)),
    }
}

/// What is reported of it: no fault of a store as want of memory.
pub fn fault_of(error: OpenError) -> Fault
    ensures { result ≡ fault_for error }
{
    match error {
        OpenError::NotAStore => Fault::NotAStore,
        OpenError::Damaged { at } => Fault::Damaged { at },
        OpenError::DeviceFailed => Fault::Device,
        OpenError::NoMemory => Fault::NoMemory,
    }
}

/// The core over the store of a path.
pub fn open_file<F: StoreFiles>(
    alloc: Global,
    files: &mut F,
    path: &str,
) -> Result<DurableCore<F::Disk>, Fault>
    ensures { OpensStore F.Disk.is_modelled F.Disk.life F.calls files.old path.now result files.new }
{
    open_to_run(alloc, files, path)
}

/// The core over the store of a path, for a run: the first call that its disk had was a sync, before anything was read.
pub fn open_to_run<F: StoreFiles>(
    alloc: Global,
    files: &mut F,
    path: &str,
) -> Result<DurableCore<F::Disk>, Fault>
    ensures { OpensSettled F.Disk.is_modelled F.Disk.life F.calls F.Disk.syncs files.old path.now result files.new }
{
    match files.open(path) {
        Ok(disk) => open_disk(alloc, disk),
        Err(_) => Err(Fault::Device),
    }
}

/// The core over a store in memory that is just made. A name that no store has is refused first. The memory
/// that its device takes is asked for here, so that none of its writes fails.
pub fn fresh(alloc: Global, rdb: &str) -> Result<DurableCore<MemDisk>, Fault>
    ensures { BeginsFresh rdb.now result }
{
    if !is_store(MEMORY_SIZE, rdb) {
        return Err(Fault::BadArguments);
    }
    recovery::laws::fresh_stores_open();
    let mut disk = MemDisk::new(alloc, MEMORY_SIZE)?;
    disk.set_aside(WRITES_AT_ONCE, MEMORY_SIZE)?;
    match make(alloc, &mut disk, rdb) {
        Ok(()) => open_disk(alloc, disk),
        Err(fault) => Err(fault),
    }
}

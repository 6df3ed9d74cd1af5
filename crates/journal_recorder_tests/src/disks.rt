//! Recorders over disks in memory behind a fuse.

ghost use Rattle.std.specs.Prelude.{IsTrue, length};
ghost use Rattle.unit_journal.specs.Adding.{IsPlace};

use crate::keeper::Keeper;
use crate::untold::Untold;
use drda_disk::{Disk, FuseDisk, MemDisk, Region};
use half_store::{Layout, format, open};
use journal_recorder::{CACHED_PAGES, DiskRecorder};
use row_pages::{PageCache, Pager};
use std::alloc::Global;
use unit_journal::{Journal, Record};

/// A recorder over such a disk, with the tables of its store.
pub type Keeping = Keeper<Untold<FuseDisk<MemDisk>>>;

/// The least store.
const TWO_MIB: usize = 2_097_152;

/// The last byte of the number of its first half's layout.
const LAYOUT_AT: usize = 8_216;

fn may_be_a_journal<D: Disk>(disk: &D, region: Region) -> bool
    ensures { IsTrue result → IsPlace (length (D.life disk.now).seen) region }
{
    0 < region.length && region.length <= 1 << 32 && region.end() <= disk.size()
}

// The journal of a region, and its records.
fn journal_on(alloc: Global, disk: &mut MemDisk, region: Region) -> Option<(Journal, Vec<Record>)> {
    let Ok(()) = disk.sync() else {
        return None;
    };
    if !may_be_a_journal(disk, region) {
        return None;
    }
    Journal::open(alloc, disk, region).ok()
}

// An empty journal.
fn journal_in(disk: &mut MemDisk, region: Region) -> Option<Journal> {
    if !may_be_a_journal(disk, region) {
        return None;
    }
    Journal::start(disk, region).ok()
}

// A recorder over a fuse of so many calls, and no tables.
fn keeping(
    alloc: Global,
    disk: MemDisk,
    journal: Journal,
    layout: Layout,
    calls: u64,
) -> Option<Keeping> {
    let disk = Untold::new(FuseDisk::new(disk, calls, false));
    let cache = PageCache::new(alloc, CACHED_PAGES).ok()?;
    let pager = Pager::over(disk, cache);
    Some(Keeper::new(alloc, DiskRecorder::new(alloc, pager, journal, layout)))
}

/// A recorder of a layout with an empty journal of so many bytes at 3 of a disk of 192, over a fuse of so many calls.
pub fn recorder_over(alloc: Global, layout: Layout, length: usize, calls: u64) -> Option<Keeping> {
    let mut disk = MemDisk::new(alloc, 192).ok()?;
    if length > disk.size() {
        return None;
    }
    let journal = journal_in(&mut disk, Region { at: 3, length })?;
    keeping(alloc, disk, journal, layout, calls)
}

// A store without tables whose active half has layout 1.
fn store_of_layout_1(alloc: Global) -> Option<MemDisk> {
    let mut disk = MemDisk::new(alloc, TWO_MIB).ok()?;
    format(alloc, &mut disk, "RDB").ok()?;
    if LAYOUT_AT >= disk.size() {
        return None;
    }
    disk.write_at(LAYOUT_AT, &[0]).ok()?;
    Some(disk)
}

/// The recorder of a store without tables whose active half has layout 1, over a fuse of so many calls.
pub fn recorder_of_layout_1(alloc: Global, calls: u64) -> Option<Keeping> {
    let mut disk = store_of_layout_1(alloc)?;
    let active = open(alloc, &mut disk).ok()?;
    let (journal, _) = journal_on(alloc, &mut disk, active.region)?;
    keeping(alloc, disk, journal, active.layout, calls)
}

/// The records that a recorder's disk has in the recorder's region.
pub fn records_of(alloc: Global, keeper: Keeping) -> Option<Vec<Record>> {
    let recorder = keeper.into_recorder();
    let region = recorder.region();
    let mut disk = recorder.into_disk().into_inner().into_inner();
    let (_, records) = journal_on(alloc, &mut disk, region)?;
    Some(records)
}

//! A disk in memory, which can tell what a crash may leave.
ghost use Rattle.std.specs.Prelude.{◌≡◌, ◌+◌, ◌-◌, ◌^◌, ◌≤◌, ◌∷◌, ℕ, length, true, is_ok, IsTrue, IsOk, OnOk, IfOk, replicate};
ghost use Rattle.drda_words.specs.Place.{part};
ghost use Rattle.drda_disk.specs.Replay.{replayed, read_after, synced_after, unsynced, counts};
ghost use Rattle.drda_disk.specs.Recorded.{steps_of, recorded_len};
ghost use Rattle.drda_disk.specs.Images.{read_is_image};
ghost use Rattle.drda_disk.specs.Disk.{overlaid, Stays, Tears, Now, Only, CountsFault};
ghost use Rattle.drda_disk.specs.Count.{count_of};

use crate::count::FaultCount;
use crate::history::History;
use crate::replay::{Write, history_of, leave_all, overwrite, record_write, redo_all};
use crate::{Disk, DiskFault, Flushed, Flusher};
use std::alloc::{AllocError, Global};

/// A disk in memory. It keeps what was read at the last sync and a record of the writes since, so
/// that `after_crash` can give what a crash may leave; a sync empties the record. A write whose record
/// finds no memory is a fault; none is where `set_aside` made room for it. No read and no sync fails.
#[derive(Drop)]
pub struct MemDisk {
    size: usize,
    bytes: Vec<u8>,
    synced: Vec<u8>,
    writes: Vec<Write>,
    written: Vec<u8>,
    history: History,
    faults: FaultCount,
    ghost whole: { recorded_len writes.items ≡ length written.items },
    ghost read: { bytes.items ≡ read_after (replicate size 0) history.steps.value },
    ghost durable: { synced.items ≡ synced_after (replicate size 0) history.steps.value },
    ghost since: { steps_of writes.items written.items ≡ unsynced history.steps.value },
}

impl MemDisk {
    ghost use Rattle.drda_disk.specs.MemDisk.{life_of, read_of, synced_of, HasRoom, IsCopy};

    /// A disk of `size` zeros.
    pub fn new(alloc: Global, size: usize) -> Result<MemDisk, AllocError>
        ensures read { IfOk result (λ disk. read_of disk ≡ replicate size 0) }
        ensures synced { IfOk result (λ disk. synced_of disk ≡ replicate size 0) }
        ensures settled { IfOk result (λ disk. Only (life_of disk)) }
        ensures faults { IfOk result (λ disk. (life_of disk).faults ≡ 0) }
    {
        Ok(MemDisk {
            size,
            bytes: vec![in alloc; 0; size]?,
            synced: vec![in alloc; 0; size]?,
            writes: Vec::new(alloc),
            written: Vec::new(alloc),
            history: History::new(),
            faults: FaultCount::new(),
        })
    }

    /// A copy, of which no call has failed.
    pub fn copy(&self, alloc: Global) -> Result<MemDisk, AllocError>
        ensures copy { IfOk result (λ disk. IsCopy self.now disk) }
        ensures faults { IfOk result (λ disk. (life_of disk).faults ≡ 0) }
    {
        Ok(MemDisk {
            size: self.size,
            bytes: Vec::from_slice(alloc, &self.bytes)?,
            synced: Vec::from_slice(alloc, &self.synced)?,
            writes: Vec::from_slice(alloc, &self.writes)?,
            written: Vec::from_slice(alloc, &self.written)?,
            history: history_of(&self.synced, &self.writes, &self.written),
            faults: FaultCount::new(),
        })
    }

    /// Makes room for the record of so many more writes, which have so many bytes in all. No such
    /// write is a fault then.
    pub fn set_aside(&mut self, writes: usize, bytes: usize) -> Result<(), AllocError>
        ensures room { OnOk result (HasRoom self.new writes bytes) }
        ensures stays { Stays (life_of self.old) (life_of self.new) }
        ensures read { read_of self.new ≡ read_of self.old }
        ensures synced { synced_of self.new ≡ synced_of self.old }
        ensures faults { (life_of self.new).faults ≡ (life_of self.old).faults }
    {
        self.writes.reserve(writes)?;
        self.written.reserve(bytes)?;
        Ok(())
    }

    /// What a crash now may leave, as a disk. Of the writes since the last sync it has none where
    /// `pick` is 0 and all where it is 1. Any other `pick` settles for each write by itself whether a
    /// crash leaves none of it, all of it, each byte old or new, or each byte old, new or any other.
    pub fn after_crash(self, pick: u64) -> MemDisk
        ensures image { Now (life_of self) (read_of result) }
        ensures none { pick ≡ 0 → read_of result ≡ synced_of self }
        ensures all { pick ≡ 1 → read_of result ≡ read_of self }
        ensures synced { synced_of result ≡ read_of result }
        ensures settled { Only (life_of result) }
        ensures faults { (life_of result).faults ≡ (life_of self).faults }
    {
        let MemDisk {
            size,
            mut bytes,
            mut synced,
            mut writes,
            mut written,
            history: _,
            faults,
        } = self;
        leave_all(&writes, &written, &mut synced, pick);
        bytes.copy_from_slice(&synced);
        writes.clear();
        written.clear();
        let history = History::of(&bytes);
        MemDisk {
            size,
            bytes,
            synced,
            writes,
            written,
            history,
            faults,
        }
    }
}

impl Disk for MemDisk {
    ghost use Rattle.drda_disk.specs.MemDisk.{life_of, synced_of, read_of, HasRoom, IsWritten};

    ghost is_modelled = { true };

    ghost life = { λ m. replayed (replicate m.size 0) m.bytes.items m.history.steps.value (count_of m.faults) };

    ghost reads = { λ m at bytes ok m'. m' ≡ m };

    ghost writes = { λ m at bytes ok m'. IsWritten at bytes m ok m' };

    ghost syncs = { λ m ok m'. (read_of m' ≡ read_of m) × (synced_of m' ≡ read_of m) };

    ghost read_is_image = { λ m _. read_is_image (replicate m.size 0) m.bytes.items m.history.steps.value m.read };

    ghost now_counts = { λ m t c le now. counts (replicate m.size 0) m.history.steps.value t c le now };

    fn size(&self) -> usize {
        self.bytes.len()
    }

    fn failures(&self) -> u64 {
        self.faults.get()
    }

    fn read_at(&mut self, at: usize, into: &mut [u8]) -> Result<(), DiskFault>
        requires { at + length into.old ≤ length (read_of self.old) }
        ensures read { OnOk result (into.new ≡ part (read_of self.old) at (length into.old)) }
        ensures stays { Stays (life_of self.old) (life_of self.new) }
        ensures call { self.new ≡ self.old }
        ensures faults { CountsFault result (life_of self.old).faults (life_of self.new).faults }
        ensures never { IsOk result }
    {
        into.copy_from_slice(&self.bytes[at..at + into.len()]);
        Ok(())
    }

    fn write_at(&mut self, at: usize, bytes: &[u8]) -> Result<(), DiskFault>
        requires { at + length bytes.now ≤ length (read_of self.old) }
        ensures written { OnOk result (read_of self.new ≡ overlaid (read_of self.old) at bytes.now) }
        ensures tears { Tears at (length bytes.now) (life_of self.old) (life_of self.new) }
        ensures call { IsWritten at bytes.now self.old (is_ok result) self.new }
        ensures faults { CountsFault result (life_of self.old).faults (life_of self.new).faults }
        ensures synced { synced_of self.new ≡ synced_of self.old }
        ensures room { (writes n : ℕ) → HasRoom self.old (writes + 1) (n + length bytes.now) → IsOk result × HasRoom self.new writes n }
    {
        match record_write(&mut self.writes, &mut self.written, at, bytes) {
            Ok(()) => {
                self.history.note_write(at, bytes);
                overwrite(&mut self.bytes, at, bytes);
                Ok(())
            }
            Err(_) => {
                self.faults.raise();
                Err(DiskFault)
            }
        }
    }

    fn sync(&mut self) -> Result<(), DiskFault>
        ensures durable { OnOk result (Only (life_of self.new)) }
        ensures stays { Stays (life_of self.old) (life_of self.new) }
        ensures call { (read_of self.new ≡ read_of self.old) × (synced_of self.new ≡ read_of self.old) }
        ensures faults { CountsFault result (life_of self.old).faults (life_of self.new).faults }
        ensures never { IsOk result }
        ensures room { (writes n : ℕ) → HasRoom self.old writes n → HasRoom self.new writes n }
    {
        redo_all(&self.writes, &self.written, &mut self.synced);
        self.writes.clear();
        self.written.clear();
        self.history.note_sync();
        Ok(())
    }

    fn flusher(&self) -> Flusher {
        Flusher::nothing()
    }

    fn settle(&mut self, _flushed: Flushed) -> Result<(), DiskFault>
        ensures durable { OnOk result (Only (life_of self.new)) }
        ensures stays { Stays (life_of self.old) (life_of self.new) }
        ensures call { (read_of self.new ≡ read_of self.old) × (synced_of self.new ≡ read_of self.old) }
        ensures faults { CountsFault result (life_of self.old).faults (life_of self.new).faults }
        ensures never { IsOk result }
        ensures room { (writes n : ℕ) → HasRoom self.old writes n → HasRoom self.new writes n }
    {
        self.sync()
    }
}

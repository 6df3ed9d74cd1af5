//! A disk that fails on purpose.
ghost use Rattle.std.specs.Prelude.{◌≡◌, ◌≢◌, ◌+◌, ◌-◌, ◌^◌, ◌≤◌, ◌↔◌, min, is_ok, IsTrue, IsErr, OnOk, IfOk, Some, length};
ghost use Rattle.drda_words.specs.Place.{part};
ghost use Rattle.drda_disk.specs.Disk.{overlaid, Stays, Tears, Only, CountsFault};
ghost use Rattle.drda_disk.specs.Fuse.{with_more_faults, left_after};
ghost use Rattle.drda_disk.specs.Count.{count_of};

use crate::count::FaultCount;
use crate::{Disk, DiskFault, Flushed, Flusher, MemDisk};
use std::alloc::{AllocError, Global};

/// Passes so many calls of `read_at`, `write_at` and `sync` on to the disk inside, and then fails:
/// the next one alone, or all later ones. A call that it fails does not reach the disk inside, so a
/// write that it fails changes nothing there.
#[derive(Drop)]
pub struct FuseDisk<D: Disk> {
    inner: D,
    fuse: Fuse,
    faults: FaultCount,
}

/// What is left of the fuse. `left` is how many calls still pass; none of them fails any more once it
/// is `None`.
#[derive(Clone, Copy)]
struct Fuse {
    left: Option<u64>,
    once: bool,
    calls: u64,
}

impl Fuse {
    /// Counts one call, and says whether it passes.
    fn passes(&mut self) -> bool
        ensures passes { IsTrue result ↔ (self.old.left ≢ Some 0) }
        ensures left { self.new.left ≡ left_after self.old.once self.old.left }
        ensures once { self.new.once ≡ self.old.once }
        ensures calls { self.new.calls ≡ min (self.old.calls + 1) (2 ^ 64 - 1) }
    {
        self.calls = self.calls.saturating_add(1);
        match self.left {
            None => true,
            Some(0) => {
                if self.once {
                    self.left = None;
                }
                false
            }
            Some(more) => {
                self.left = Some(more - 1);
                true
            }
        }
    }
}

impl<D: Disk> FuseDisk<D> {
    ghost use Rattle.drda_disk.specs.FuseDisk.{inner_of, left_of, is_once, calls_of, own_faults_of};

    /// Passes `k` calls on. Then it fails one call if `once`, and else all.
    pub fn new(inner: D, k: u64, once: bool) -> FuseDisk<D>
        ensures inner { inner_of result ≡ inner }
        ensures left { left_of result ≡ Some k }
        ensures once { is_once result ≡ once }
        ensures calls { calls_of result ≡ 0 }
        ensures faults { own_faults_of result ≡ 0 }
    {
        FuseDisk {
            inner,
            fuse: Fuse {
                left: Some(k),
                once,
                calls: 0,
            },
            faults: FaultCount::new(),
        }
    }

    /// The disk inside.
    pub fn into_inner(self) -> D
        ensures { result ≡ inner_of self }
    {
        let FuseDisk {
            inner,
            fuse: _,
            faults: _,
        } = self;
        inner
    }

    /// The disk inside, to be looked at.
    pub fn inner(&self) -> &D
        ensures { result.now ≡ inner_of self.now }
    {
        &self.inner
    }

    /// How many calls of `read_at`, `write_at` and `sync` have come, those that failed included. It
    /// stays at its greatest value.
    pub fn calls(&self) -> u64
        ensures { result ≡ calls_of self.now }
    {
        self.fuse.calls
    }
}

impl FuseDisk<MemDisk> {
    ghost use Rattle.drda_disk.specs.FuseDisk.{inner_of, left_of, is_once, calls_of, own_faults_of};
    ghost use Rattle.drda_disk.specs.MemDisk.{IsCopy};

    /// The same fuse over a copy of the disk inside, of which no call has failed.
    pub fn copy(&self, alloc: Global) -> Result<FuseDisk<MemDisk>, AllocError>
        ensures inner { IfOk result (λ disk. IsCopy (inner_of self.now) (inner_of disk)) }
        ensures left { IfOk result (λ disk. left_of disk ≡ left_of self.now) }
        ensures once { IfOk result (λ disk. is_once disk ≡ is_once self.now) }
        ensures calls { IfOk result (λ disk. calls_of disk ≡ calls_of self.now) }
        ensures faults { IfOk result (λ disk. own_faults_of disk ≡ 0) }
    {
        let inner = self.inner.copy(alloc)?;
        Ok(FuseDisk {
            inner,
            fuse: self.fuse,
            faults: FaultCount::new(),
        })
    }
}

impl<D: Disk> Disk for FuseDisk<D> {
    ghost use Rattle.drda_disk.specs.FuseDisk.{life_of, inner_of, left_of, IsCalled, IsRefused, IsPassed};

    ghost is_modelled = { D.is_modelled };

    ghost life = { λ f. with_more_faults (D.life f.inner) (count_of f.faults) };

    ghost reads = { λ f at bytes ok f'. left_of f ≢ Some 0 → D.reads (inner_of f) at bytes ok (inner_of f') };

    ghost writes = { λ f at bytes ok f'. left_of f ≢ Some 0 → D.writes (inner_of f) at bytes ok (inner_of f') };

    ghost syncs = { λ f ok f'. left_of f ≢ Some 0 → D.syncs (inner_of f) ok (inner_of f') };

    ghost read_is_image = { λ f. D.read_is_image f.inner };

    ghost now_counts = { λ f. D.now_counts f.inner };

    fn size(&self) -> usize {
        self.inner.size()
    }

    fn failures(&self) -> u64 {
        self.inner.failures().saturating_add(self.faults.get())
    }

    fn read_at(&mut self, at: usize, into: &mut [u8]) -> Result<(), DiskFault>
        requires { at + length into.old ≤ length (life_of D.life self.old).seen }
        ensures read { OnOk result (IsTrue D.is_modelled → into.new ≡ part (life_of D.life self.old).seen at (length into.old)) }
        ensures stays { Stays (life_of D.life self.old) (life_of D.life self.new) }
        ensures faults { CountsFault result (life_of D.life self.old).faults (life_of D.life self.new).faults }
        ensures called { IsCalled self.old self.new }
        ensures blown { left_of self.old ≡ Some 0 → IsErr result × IsRefused self.old self.new }
        ensures passed { left_of self.old ≢ Some 0 → IsPassed D.life result self.old self.new }
        ensures call { left_of self.old ≢ Some 0 → D.reads (inner_of self.old) at into.new (is_ok result) (inner_of self.new) }
    {
        if !self.fuse.passes() {
            self.faults.raise();
            return Err(DiskFault);
        }
        self.inner.read_at(at, into)
    }

    fn write_at(&mut self, at: usize, bytes: &[u8]) -> Result<(), DiskFault>
        requires { at + length bytes.now ≤ length (life_of D.life self.old).seen }
        ensures written { OnOk result (IsTrue D.is_modelled → (life_of D.life self.new).seen ≡ overlaid (life_of D.life self.old).seen at bytes.now) }
        ensures tears { Tears at (length bytes.now) (life_of D.life self.old) (life_of D.life self.new) }
        ensures faults { CountsFault result (life_of D.life self.old).faults (life_of D.life self.new).faults }
        ensures called { IsCalled self.old self.new }
        ensures blown { left_of self.old ≡ Some 0 → IsErr result × IsRefused self.old self.new }
        ensures passed { left_of self.old ≢ Some 0 → IsPassed D.life result self.old self.new }
        ensures call { left_of self.old ≢ Some 0 → D.writes (inner_of self.old) at bytes.now (is_ok result) (inner_of self.new) }
    {
        if !self.fuse.passes() {
            self.faults.raise();
            return Err(DiskFault);
        }
        self.inner.write_at(at, bytes)
    }

    fn sync(&mut self) -> Result<(), DiskFault>
        ensures durable { OnOk result (Only (life_of D.life self.new)) }
        ensures stays { Stays (life_of D.life self.old) (life_of D.life self.new) }
        ensures faults { CountsFault result (life_of D.life self.old).faults (life_of D.life self.new).faults }
        ensures called { IsCalled self.old self.new }
        ensures blown { left_of self.old ≡ Some 0 → IsErr result × IsRefused self.old self.new }
        ensures passed { left_of self.old ≢ Some 0 → IsPassed D.life result self.old self.new }
        ensures call { left_of self.old ≢ Some 0 → D.syncs (inner_of self.old) (is_ok result) (inner_of self.new) }
    {
        if !self.fuse.passes() {
            self.faults.raise();
            return Err(DiskFault);
        }
        self.inner.sync()
    }

    fn flusher(&self) -> Flusher {
        self.inner.flusher()
    }

    fn settle(&mut self, flushed: Flushed) -> Result<(), DiskFault>
        ensures durable { OnOk result (Only (life_of D.life self.new)) }
        ensures stays { Stays (life_of D.life self.old) (life_of D.life self.new) }
        ensures faults { CountsFault result (life_of D.life self.old).faults (life_of D.life self.new).faults }
        ensures called { IsCalled self.old self.new }
        ensures blown { left_of self.old ≡ Some 0 → IsErr result × IsRefused self.old self.new }
        ensures passed { left_of self.old ≢ Some 0 → IsPassed D.life result self.old self.new }
        ensures call { left_of self.old ≢ Some 0 → D.syncs (inner_of self.old) (is_ok result) (inner_of self.new) }
    {
        if !self.fuse.passes() {
            self.faults.raise();
            return Err(DiskFault);
        }
        self.inner.settle(flushed)
    }
}

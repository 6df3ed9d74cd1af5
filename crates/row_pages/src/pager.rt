//! A disk, with the pages of it that are kept in memory.

ghost use Rattle.std.specs.Prelude.{◌≡◌, ◌≤◌, ◌+◌, [], IsTrue, IfOk, length};
ghost use Rattle.std.specs.Borrow.{sem};
ghost use Rattle.std.specs.Io.BufRead.{Rests};
ghost use Rattle.drda_words.specs.Place.{part};
ghost use Rattle.drda_disk.specs.Disk.{Stays};
ghost use Rattle.drda_disk.specs.Layout.{page_bytes};
ghost use Rattle.row_pages.specs.Page.{IsPage};
ghost use Rattle.row_pages.specs.Keeping.{CountsPageFault, TellsDamage};

use crate::cache::PageCache;
use crate::judged::JudgedPage;
use crate::kept::{KeptPage, PageFault};
use drda_disk::{Disk, DiskFault, Flushed, Flusher};
use row_values::Schema;
use std::alloc::Global;
use std::marker::Model;
use std::sync::Arc;

/// A disk that is lent as one with the pages of it that are kept in memory: each of these is what the disk
/// reads. It is a disk itself, and a write through it lets go of what is kept where it writes. Contracts see
/// it as the disk.
#[derive(Drop)]
pub struct Pager<D: Disk> {
    disk: D,
    cache: PageCache,
}

impl<D: Disk> Model for Pager<D> {
    ghost use Rattle.std.specs.Prelude.{IsTrue};
    ghost use Rattle.row_pages.specs.Keeping.{AreRead};

    ghost Value = { D };

    ghost view = { λ p. p.disk };

    ghost invariant = { λ p. IsTrue D.is_modelled → AreRead p.cache (D.life p.disk).seen };
}

impl<D: Disk> Pager<D> {
    ghost use Rattle.row_pages.specs.contracts.pager.Pager.{the_row};

    /// A disk, with a cache that has no pages yet.
    pub fn over(disk: D, cache: PageCache) -> Pager<D>
        requires { cache ≡ [] }
        ensures { result ≡ disk }
    {
        Pager { disk, cache }
    }

    /// The disk, to be looked at.
    pub fn disk(&self) -> &D
        ensures { result.now ≡ self.now }
    {
        &self.disk
    }

    /// The disk, without the pages that were kept.
    pub fn into_disk(self) -> D
        ensures { result ≡ self }
    {
        let Pager { disk, cache: _ } = self;
        disk
    }

    /// The page at an offset, as the disk reads now; it is read where it is not kept. The range lies inside
    /// the disk. `Damaged` is told only where the bytes there are no page.
    pub fn page<'s>(&'s mut self, alloc: Global, at: usize) -> Result<&'s KeptPage, PageFault>
        requires { at + page_bytes ≤ length (D.life self.old).seen }
        ensures* after { sem 𝓛 (Rests (the_row D.row D.Disk) self.entry (λ now. Stays (D.life self.old) (D.life now) × CountsPageFault result (D.life self.old).faults (D.life now).faults)) }
        ensures page { IsTrue D.is_modelled → IfOk result (λ page. IsPage page.now (part (D.life self.old).seen at page_bytes)) }
        ensures damaged { IsTrue D.is_modelled → TellsDamage (part (D.life self.old).seen at page_bytes) result }
    {
        match self.cache.fetch(alloc, &mut self.disk, at) {
            Ok(()) => Ok(self.cache.kept(at).page()),
            Err(fault) => Err(fault),
        }
    }

    /// The same page, judged by a schema where there is one. A page that carries the schema's mark already
    /// is not judged again.
    pub fn judged_page<'s>(
        &'s mut self,
        alloc: Global,
        at: usize,
        by: Option<&Arc<Schema, Global>>,
    ) -> Result<&'s JudgedPage, PageFault>
        requires { at + page_bytes ≤ length (D.life self.old).seen }
        ensures* after { sem 𝓛 (Rests (the_row D.row D.Disk) self.entry (λ now. Stays (D.life self.old) (D.life now) × CountsPageFault result (D.life self.old).faults (D.life now).faults)) }
        ensures page { IsTrue D.is_modelled → IfOk result (λ page. IsPage page.now (part (D.life self.old).seen at page_bytes)) }
        ensures damaged { IsTrue D.is_modelled → TellsDamage (part (D.life self.old).seen at page_bytes) result }
    {
        match self.cache.fetch(alloc, &mut self.disk, at) {
            Ok(()) => {
                self.cache.judge(at, by);
                Ok(self.cache.kept(at))
            }
            Err(fault) => Err(fault),
        }
    }

    /// Keeps no page from now on. Takes no memory.
    pub fn forget(&mut self)
        ensures { self.new ≡ self.old }
    {
        self.cache.clear();
    }
}

impl<D: Disk> Disk for Pager<D> {
    ghost is_modelled = { D.is_modelled };

    ghost life = { D.life };

    ghost reads = { D.reads };

    ghost writes = { D.writes };

    ghost syncs = { D.syncs };

    ghost read_is_image = { D.read_is_image };

    ghost now_counts = { D.now_counts };

    fn size(&self) -> usize {
        self.disk.size()
    }

    fn failures(&self) -> u64 {
        self.disk.failures()
    }

    fn read_at(&mut self, at: usize, into: &mut [u8]) -> Result<(), DiskFault> {
        self.disk.read_at(at, into)
    }

    /// Pages that are kept where it writes are let go of first, by `PageCache::keep_apart`.
    fn write_at(&mut self, at: usize, bytes: &[u8]) -> Result<(), DiskFault> {
        self.cache.keep_apart(at, bytes.len());
        self.disk.write_at(at, bytes)
    }

    fn sync(&mut self) -> Result<(), DiskFault> {
        self.disk.sync()
    }

    fn flusher(&self) -> Flusher {
        self.disk.flusher()
    }

    fn settle(&mut self, flushed: Flushed) -> Result<(), DiskFault> {
        self.disk.settle(flushed)
    }

    ghost allows = { D.allows };

    fn write_early(&mut self, at: usize, byte: u8) -> Result<bool, DiskFault> {
        self.disk.write_early(at, byte)
    }
}

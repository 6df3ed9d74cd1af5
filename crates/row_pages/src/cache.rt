//! Pages of a disk that are kept in memory.

ghost use Rattle.std.specs.Prelude.{◌≡◌, ◌⊎◌, ◌≤◌, ◌<◌, ◌+◌, ℕ, List, [], true, IsTrue, IsSome, IfOk, IfErr, OnOk, length, nat_eq};
ghost use Rattle.std.specs.Map.{lookup};
ghost use Rattle.drda_words.specs.Place.{part};
ghost use Rattle.drda_disk.specs.Disk.{Stays, Torn};
ghost use Rattle.drda_disk.specs.Layout.{page_bytes};
ghost use Rattle.row_pages.specs.Page.{IsPage};
ghost use Rattle.row_pages.specs.Keeping.{AreRead, CountsPageFault, TellsDamage};
ghost use Rattle.row_pages.specs.declared.kept.PageFault.TheVariants.{NoMemory};

use crate::judged::JudgedPage;
use crate::kept::{KeptPage, PageFault};
use crate::memory::PageMemory;
use drda_disk::{Disk, PAGE_BYTES};
use lru::LruCache;
use row_values::Schema;
use std::alloc::{AllocError, Global};
use std::marker::Model;
use std::num::NonZeroUsize;
use std::sync::Arc;

/// Pages by the offsets at which they were read, so many at most; the one that was asked for
/// longest ago goes first. Contracts see it as the list of them.
///
/// It does not see what is written to the disk: a `Pager` tells it, so that each page kept is what
/// that disk reads (`AreRead`).
#[derive(Drop)]
pub struct PageCache {
    pages: LruCache<usize, JudgedPage>,
    /// No page that is kept begins in front of this offset,
    first: usize,
    /// and none behind this one.
    last: usize,
}

impl Model for PageCache {
    ghost use Rattle.row_pages.specs.Keeping.{BeginWithin, Kept};

    ghost Value = { Kept };

    ghost view = { λ c. c.pages.entries };

    ghost invariant = { λ c. BeginWithin c.first c.last c.pages.entries };
}

impl PageCache {
    /// A cache without pages, that keeps so many at most, 1 at least.
    pub fn new(alloc: Global, most: usize) -> Result<PageCache, AllocError>
        requires { 0 < most }
        ensures { IfOk result (λ cache. cache ≡ []) }
    {
        let most = match NonZeroUsize::new(most) {
            Some(most) => most,
            None => unreachable!(),
        };
        Ok(PageCache {
            pages: LruCache::new(alloc, most)?,
            first: usize::MAX,
            last: 0,
        })
    }

    /// Keeps no page from now on. Takes no memory.
    pub(crate) fn clear(&mut self)
        ensures { self.new ≡ [] }
    {
        self.pages.clear();
        self.first = usize::MAX;
        self.last = 0;
    }

    /// Something is written to so many bytes of the disk, from this offset on. All pages are kept, where
    /// these bytes lie in front of all that were asked for since the last `clear`, or behind them; else none
    /// is. Which of the two comes is tested, and no clause says it. Takes no memory.
    pub(crate) fn keep_apart(&mut self, at: usize, len: usize)
        ensures all_or_none { (self.new ≡ self.old) ⊎ (self.new ≡ []) }
        ensures read { (old new : List ℕ) → Torn at len old new → AreRead self.old old → AreRead self.new new }
    {
        if !lies_apart(self.first, self.last, at, len) {
            self.clear();
        }
    }

    /// Keeps the page at an offset, as the one that was asked for last. It is read where it is not kept: into the memory
    /// of the page that was asked for longest ago, where no more can be kept. That page is kept no longer then, also
    /// where there is none in its place.
    pub(crate) fn fetch<D: Disk>(
        &mut self,
        alloc: Global,
        disk: &mut D,
        at: usize,
    ) -> Result<(), PageFault>
        requires { at + page_bytes ≤ length (D.life disk.old).seen }
        ensures kept { IsTrue D.is_modelled → AreRead self.old (D.life disk.old).seen → AreRead self.new (D.life disk.new).seen }
        ensures there { OnOk result (IsSome (lookup (nat_eq at) self.new)) }
        ensures damaged { IsTrue D.is_modelled → TellsDamage (part (D.life disk.old).seen at page_bytes) result }
        ensures stays { Stays (D.life disk.old) (D.life disk.new) }
        ensures faults { CountsPageFault result (D.life disk.old).faults (D.life disk.new).faults }
    {
        if self.promote(at) {
            return Ok(());
        }
        let page = self.take_memory(alloc)?.read(disk, at)?;
        self.keep(at, page)
    }

    // Makes the page at an offset the one that was asked for last, if it is kept.
    fn promote(&mut self, at: usize) -> bool
        ensures kept { (file : List ℕ) → AreRead self.old file → AreRead self.new file }
        ensures there { result ≡ true → IsSome (lookup (nat_eq at) self.new) }
    {
        self.pages.promote(&at)
    }

    // Memory for one more page: where no more can be kept, that of the page that was asked for longest ago, which is
    // kept no longer then; else new memory.
    fn take_memory(&mut self, alloc: Global) -> Result<PageMemory, PageFault>
        ensures kept { (file : List ℕ) → AreRead self.old file → AreRead self.new file }
        ensures fault { IfErr result (λ fault. fault ≡ NoMemory) }
    {
        match self.make_room() {
            Some(page) => Ok(PageMemory::of(page.into_page())),
            None => new_memory(alloc),
        }
    }

    // The page that was asked for longest ago, where no more can be kept: it is kept no longer.
    fn make_room(&mut self) -> Option<JudgedPage>
        ensures { (file : List ℕ) → AreRead self.old file → AreRead self.new file }
    {
        if self.pages.len() < self.pages.cap().get() {
            return None;
        }
        match self.pages.pop_lru() {
            Some((_, page)) => Some(page),
            None => None,
        }
    }

    // Keeps a page, as the one that was asked for last.
    fn keep(&mut self, at: usize, page: KeptPage) -> Result<(), PageFault>
        ensures kept { (file : List ℕ) → AreRead self.old file → IsPage page (part file at page_bytes) → AreRead self.new file }
        ensures there { OnOk result (IsSome (lookup (nat_eq at) self.new)) }
        ensures fault { IfErr result (λ fault. fault ≡ NoMemory) }
    {
        self.first = earlier_of(self.first, at);
        self.last = later_of(self.last, at);
        match self.pages.put(at, JudgedPage::new(page)) {
            Ok(_) => Ok(()),
            Err(_) => Err(PageFault::NoMemory),
        }
    }

    /// The page that is kept at an offset is judged by a schema, where there is one: it carries its mark
    /// then, where its rows are rows of the schema whose keys rise. Takes no memory.
    pub(crate) fn judge(&mut self, at: usize, by: Option<&Arc<Schema, Global>>)
        ensures { self.new ≡ self.old }
    {
        if let Some(schema) = by {
            judge_at(&mut self.pages, at, schema);
        }
    }

    /// The page that is kept at an offset.
    pub(crate) fn kept(&self, at: usize) -> &JudgedPage
        requires { IsSome (lookup (nat_eq at) self.now) }
        ensures { (file : List ℕ) → AreRead self.now file → IsPage result.now (part file at page_bytes) }
    {
        match self.pages.peek(&at) {
            Some(page) => page,
            None => unreachable!(),
        }
    }
}

// New memory for a page.
fn new_memory(alloc: Global) -> Result<PageMemory, PageFault>
    ensures { IfErr result (λ fault. fault ≡ NoMemory) }
{
    match PageMemory::new(alloc) {
        Ok(memory) => Ok(memory),
        Err(_) => Err(PageFault::NoMemory),
    }
}

// The page at an offset is judged by a schema.
fn judge_at(pages: &mut LruCache<usize, JudgedPage>, at: usize, schema: &Arc<Schema, Global>)
    ensures { pages.new ≡ pages.old }
{
    match pages.peek_mut(&at) {
        Some(page) => page.judge(schema),
        None => {}
    }
}

// Whether so many bytes from an offset on lie in front of all pages that begin within two others, or behind them.
fn lies_apart(first: usize, last: usize, at: usize, len: usize) -> bool
    ensures { IsTrue result → (at + len ≤ first) ⊎ (last + page_bytes ≤ at) }
{
    if at >= PAGE_BYTES && last <= at - PAGE_BYTES {
        return true;
    }
    len <= first && at <= first - len
}

// The earlier of two offsets.
fn earlier_of(first: usize, second: usize) -> usize
    ensures first { result ≤ first }
    ensures second { result ≤ second }
{
    if first < second { first } else { second }
}

// The later of two offsets.
fn later_of(first: usize, second: usize) -> usize
    ensures first { first ≤ result }
    ensures second { second ≤ result }
{
    if first < second { second } else { first }
}

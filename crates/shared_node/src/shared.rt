//! A book under a lock.

use crate::held::Held;
use crate::keeping::Keeping;
use crate::origin::Origin;
use crate::turn::time;
use crate::waiting::Waiting;
use core_history::{Book, PLACES, Pass};
use drda_disk::Disk;
use durable_core::DurableCore;
use std::alloc::Global;
use std::hint::spin_loop;
use std::sync::{Mutex, MutexGuard, Wait};
use std::thread::yield_now;
use std::time::Clock;
use turns::Turn;

/// So often the lock is looked for before it is slept for: a turn at it is far shorter than a sleep with the waking behind it, but for
/// those with a slow sync or a checkpoint.
const LOOKS: u32 = 200;

/// So many looks come one soon after another. Behind a later one the processor is left to others: whoever has the lock may want it.
const SOON: u32 = 4;

/// So long is between two looks that come soon, in pauses of the processor.
const PAUSES: u32 = 10;

/// A book under the one lock, to be shared by the threads of its conversations. Which book a call found under the
/// lock can't be said outside of it, where other threads have made calls before and after it; but over which core it was
/// opened, that it was kept, what the call made of it, and that it was kept then.
#[derive(Drop)]
pub struct Shared<D: Disk, B: Origin<D>> {
    pub(crate) held: Mutex<Held<D, B>>,
    pub(crate) waiting: Waiting,
    pub(crate) keeping: Keeping,
}

impl<D: Disk, B: Origin<D>> Shared<D, B> {
    ghost use Rattle.std.specs.Prelude.{◌≡◌, ◌<◌, [], IfErr, IfOk, IfSome, IsTrue, MatchResult, None};
    ghost use Rattle.durable_core.specs.Ahead.{LetsOpenEarly};
    ghost use Rattle.core_history.specs.Passes.{AreJust, AreListed, calls_in};
    ghost use Rattle.shared_node.specs.Locked.{Considers, GivesLeave, GivesNone, Retires, UnderLock};

    /// Opens a book over a core, under a lock. All conversations together keep no more than so many bytes of commands that came and of
    /// rows for cursors. Out of memory, the core is handed back.
    pub fn new(
        alloc: Global,
        core: DurableCore<D>,
        all_bytes: u64,
    ) -> Result<Shared<D, B>, DurableCore<D>>
        requires origin { B.is core }
        requires early { IsTrue D.is_modelled → LetsOpenEarly D.allows }
        ensures { IfErr result (λ back. back ≡ core) }
    {
        let Ok(waiting) = Waiting::new(alloc) else {
            return Err(core);
        };
        let Ok(wishes) = Vec::with_capacity(alloc, PLACES) else {
            return Err(core);
        };
        let Ok(next) = Vec::with_capacity(alloc, PLACES) else {
            return Err(core);
        };
        let book = Book::open(alloc, core)?;
        Ok(Shared {
            held: Mutex::new(Held::new(book, wishes, next)),
            waiting,
            keeping: Keeping::new(all_bytes),
        })
    }

    /// The lock, for a call.
    pub(crate) fn take<R: Wait>(&self, rt: &R) -> MutexGuard<'_, Held<D, B>> {
        for look in 0..LOOKS {
            if let Some(guard) = self.held.try_lock() {
                return guard;
            }
            pause(look);
        }
        self.held.lock(rt)
    }

    /// Leave for one conversation more; None where 64 have it, or no number is left.
    pub fn admit<R: Wait>(&self, rt: &R) -> Option<Pass>
        ensures some { IfSome result (λ pass. (pass.place < 64) × (pass.count ≡ 0) × (calls_in pass ≡ [])) }
        ensures given { IfSome result (λ pass. UnderLock D.is_modelled D.life B.is (GivesLeave pass)) }
        ensures none { result ≡ None → UnderLock D.is_modelled D.life B.is GivesNone }
    {
        let mut guard = self.held.lock(rt);
        let held = &mut *guard;
        held.admit()
    }

    /// Writes a checkpoint where one is due, and tells what its turn at the lock was like.
    pub fn consider_checkpoint<R: Wait + Clock>(&self, rt: &R) -> Turn
        ensures { UnderLock D.is_modelled D.life B.is (Considers result) }
    {
        let came = time(rt);
        let mut guard = self.held.lock(rt);
        let held = &mut *guard;
        held.consider_checkpoint(rt, came)
    }

    /// Takes a pass back, whose conversation was lost, and its place is free. False where the book does not count as
    /// the pass does: then nothing is done.
    pub fn retire<R: Wait>(&self, rt: &R, pass: Pass) -> bool
        ensures { UnderLock D.is_modelled D.life B.is (Retires pass result) }
    {
        let mut guard = self.held.lock(rt);
        let held = &mut *guard;
        held.retire(pass)
    }

    /// The book, once nobody shares it, as it was found. `Ok` comes exactly where these passes are all that have leave
    /// at it, each once and counted as the book counts: so it lists just as many calls of each as the pass does. Else
    /// `Err` comes, with the book: some of the passes are a stranger's, or some are missing.
    pub fn close(self, passes: Vec<Pass>) -> Result<Book<D>, Book<D>>
        ensures origin { MatchResult result (λ book. B.is book.opening) (λ book. B.is book.opening) }
        ensures just { IfOk result (AreJust passes.items) }
        ensures listed { IfOk result (AreListed passes.items) }
        ensures stranger { IfErr result (λ book. AreJust passes.items book → ⊥) }
    {
        let book = self.held.into_inner().into_book();
        if book.is_just(&passes) {
            return Ok(book);
        }
        Err(book)
    }
}

// What is done behind a look, by how many were before it.
fn pause(look: u32) {
    if look >= SOON {
        yield_now();
        return;
    }
    for _ in 0..PAUSES {
        spin_loop();
    }
}

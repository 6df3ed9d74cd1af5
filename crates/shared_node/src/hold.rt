//! The lock, while it is held for a call.

ghost use Rattle.shared_node.specs.Locked.{LaysAhead, UnderLock};

use crate::held::Held;
use crate::origin::Origin;
use crate::shared::Shared;
use crate::turn::{Begun, full_of, time};
use crate::waiting::Led;
use core_history::Acted;
use drda_disk::{Disk, Flusher};
use std::sync::{MutexGuard, Wait};
use std::time::{Clock, Instant};
use turns::Turn;

/// The lock, which is held, and what its turn was like when it began.
#[derive(Drop)]
pub(crate) struct Hold<'a, D: Disk, B: Origin<D>> {
    pub(crate) guard: MutexGuard<'a, Held<D, B>>,
    begun: Begun,
}

impl<'a, D: Disk, B: Origin<D>> Hold<'a, D, B> {
    /// The lock was waited for since this time, and is held now.
    pub(crate) fn new<R: Clock>(
        rt: &R,
        since: Option<Instant>,
        mut guard: MutexGuard<'a, Held<D, B>>,
    ) -> Hold<'a, D, B> {
        let held = &mut *guard;
        let begun = Begun::new(rt, since, &held.book);
        Hold { guard, begun }
    }
}

/// Lays the group that is led ahead of being made, where it does not lie there, and has it count on the disk, with the next group behind it: a
/// step each, behind which the disk is flushed. Where a step was taken, the lock is given back meanwhile, and then held again; else it is held
/// still.
pub(crate) fn lay_ahead<'a, D: Disk, B: Origin<D>, R: Wait + Clock>(
    rt: &R,
    shared: &'a Shared<D, B>,
    hold: Hold<'a, D, B>,
    led: Led,
) -> Hold<'a, D, B>
    ensures { UnderLock D.is_modelled D.life B.is LaysAhead }
{
    match led {
        Led::Laid => {}
        Led::Gathered => return lay_first(rt, shared, hold),
    }
    open_early(rt, shared, hold)
}

// The group that is led is laid behind all that counts on the disk, and counts there once that is flushed.
fn lay_first<'a, D: Disk, B: Origin<D>, R: Wait + Clock>(
    rt: &R,
    shared: &'a Shared<D, B>,
    hold: Hold<'a, D, B>,
) -> Hold<'a, D, B>
    ensures { UnderLock D.is_modelled D.life B.is LaysAhead }
{
    let Hold { mut guard, begun } = hold;
    let held = &mut *guard;
    let Some(flusher) = held.lay_ahead(rt, &shared.waiting) else {
        return Hold { guard, begun };
    };
    let hold = flush(rt, shared, Hold { guard, begun }, flusher);
    open_early(rt, shared, hold)
}

// What lies there counts on the disk before it is made, and what is flushed with it lies behind it.
fn open_early<'a, D: Disk, B: Origin<D>, R: Wait + Clock>(
    rt: &R,
    shared: &'a Shared<D, B>,
    hold: Hold<'a, D, B>,
) -> Hold<'a, D, B>
    ensures { UnderLock D.is_modelled D.life B.is LaysAhead }
{
    let Hold { mut guard, begun } = hold;
    let held = &mut *guard;
    let Some(flusher) = held.open_early(rt, &shared.waiting) else {
        return Hold { guard, begun };
    };
    flush(rt, shared, Hold { guard, begun }, flusher)
}

// The lock is given back while the disk is flushed, and held again; the disk is told what became of it.
fn flush<'a, D: Disk, B: Origin<D>, R: Wait + Clock>(
    rt: &R,
    shared: &'a Shared<D, B>,
    hold: Hold<'a, D, B>,
    flusher: Flusher,
) -> Hold<'a, D, B>
    ensures { UnderLock D.is_modelled D.life B.is LaysAhead }
{
    let Hold { guard, begun } = hold;
    let begun = begun.pause(rt);
    drop(guard);
    let flushed = flusher.flush();
    let came = time(rt);
    let mut guard = shared.take(rt);
    let held = &mut *guard;
    let begun = begun.resume(rt, came, &held.book);
    held.settle(flushed);
    Hold { guard, begun }
}

/// The lock is given back: what the turn was like, at the end of which this was answered, if it ends behind a call.
pub(crate) fn end<'a, D: Disk, B: Origin<D>, R: Wait + Clock>(
    rt: &R,
    hold: Hold<'a, D, B>,
    acted: Option<&Acted>,
) -> Turn {
    let Hold { mut guard, begun } = hold;
    let held = &mut *guard;
    let full = match acted {
        Some(acted) => full_of(acted, &held.book),
        None => None,
    };
    let turn = begun.end(rt, &held.book);
    Turn { full, ..turn }
}

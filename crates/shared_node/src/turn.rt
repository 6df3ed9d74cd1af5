//! What a turn at the lock was like, for people.

ghost use Rattle.std.specs.Prelude.{◌≡◌, IfSome};

use core_calls::Answer;
use core_history::{Acted, Book};
use drda_disk::Disk;
use std::time::{Clock, Instant};
use turns::{Full, Turn};

/// Whether a call of this book was answered so.
pub(crate) fn full_of<D: Disk>(acted: &Acted, book: &Book<D>) -> Option<Full> {
    match acted {
        Acted::Answered(Answer::Full { need, room }) => Some(Full {
            need: *need,
            room: *room,
            lack: book.lack(),
        }),
        Acted::Answered(_) | Acted::StrangerPass => None,
    }
}

/// A turn that has begun, with what the book was like then; and for how long the lock was held before it was given back meanwhile.
#[derive(Clone, Copy)]
pub(crate) struct Begun {
    waited: u64,
    held: u64,
    at: Option<Instant>,
    written: u64,
    is_failed: bool,
}

impl Begun {
    ghost use Rattle.std.specs.Prelude.{◌≡◌, IfSome, IsTrue, false, true};
    ghost use Rattle.durable_core.specs.Gauging.{IsGauge};
    ghost use Rattle.recovery.specs.Journaled.{shown_on};

    /// The lock was waited for since this time, and is held now.
    pub(crate) fn new<D: Disk, R: Clock>(rt: &R, since: Option<Instant>, book: &Book<D>) -> Begun
        ensures { result.is_failed ≡ book.now.core.is_failed }
    {
        let at = time(rt);
        Begun {
            waited: micros_between(since, at),
            held: 0,
            at,
            written: book.checkpoints(),
            is_failed: book.core().is_failed(),
        }
    }

    /// The lock is given back for a while.
    pub(crate) fn pause<R: Clock>(self, rt: &R) -> Begun {
        Begun {
            held: micros_between(self.at, time(rt)),
            ..self
        }
    }

    /// The lock was waited for since this time, and is held again; what the book was like before is forgotten. Of both times that the turn
    /// waited for the lock, and held it, it tells the longer.
    pub(crate) fn resume<D: Disk, R: Clock>(
        self,
        rt: &R,
        since: Option<Instant>,
        book: &Book<D>,
    ) -> Begun
        ensures { result.is_failed ≡ book.now.core.is_failed }
    {
        let again = Begun::new(rt, since, book);
        Begun {
            waited: self.waited.max(again.waited),
            held: self.held,
            ..again
        }
    }

    /// The turn, which ends now.
    pub(crate) fn end<D: Disk, R: Clock>(self, rt: &R, book: &Book<D>) -> Turn
        ensures room { IfSome result.checkpointed (λ room. room ≡ book.now.core.room) }
        ensures gauge { IsTrue D.is_modelled → book.now.core.is_failed ≡ false → IsGauge (shown_on D.life book.now.core) result.gauge }
        ensures failed { result.has_failed ≡ true → (self.is_failed ≡ false) × (book.now.core.is_failed ≡ true) }
        ensures unfailed { self.is_failed ≡ false → book.now.core.is_failed ≡ true → result.has_failed ≡ true }
    {
        Turn {
            waited: self.waited,
            held: self.held.max(micros_between(self.at, time(rt))),
            checkpointed: room_where(book, book.checkpoints() != self.written),
            gauge: book.core().gauge(),
            has_failed: book.core().is_failed() && !self.is_failed,
            full: None,
        }
    }
}

// The bytes that are left for records, where they are asked for.
fn room_where<D: Disk>(book: &Book<D>, is_asked: bool) -> Option<usize>
    ensures { IfSome result (λ room. room ≡ book.now.core.room) }
{
    if is_asked {
        return Some(book.core().room());
    }
    None
}

/// The time, where the clock can be read.
pub(crate) fn time<R: Clock>(rt: &R) -> Option<Instant> {
    Instant::now(rt).ok()
}

/// The microseconds from one time to another, 0 where one of them is not known.
pub(crate) fn micros_between(from: Option<Instant>, to: Option<Instant>) -> u64 {
    match (from, to) {
        (Some(from), Some(to)) => {
            u64::try_from(to.duration_since(from).as_micros()).unwrap_or(u64::MAX)
        }
        _ => 0,
    }
}

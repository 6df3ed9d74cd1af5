//! The threads of conversations, each at its conversation's place.

ghost use Rattle.std.specs.Prelude.{◌≡◌, ◌<◌, ℕ, IfOk, IfSome, None, Some, length, slice_get, slice_set};
ghost use Rattle.drda_server.specs.Threads.{IsAttended};

use crate::attendance::Attendance;
use crate::attended::Attended;
use core_history::PLACES;
use drda_disk::Disk;
use shared_node::Origin;
use std::alloc::{AllocError, Global};
use std::io::{Read, Write};
use std::thread::{PromisedHandle, Threads};

/// The thread that attends to a conversation.
pub(crate) type Attendant<D, B, I, O> = PromisedHandle<Attended<I, O>, Attendance<D, B, I, O>>;

/// A place for the thread of each conversation.
pub(crate) fn no_threads<D: Disk, B: Origin<D>, I: Read + Drop, O: Write + Drop>(
    alloc: Global,
) -> Result<Vec<Option<Attendant<D, B, I, O>>>, AllocError>
    ensures { IfOk result (λ threads. length threads.items ≡ 64) }
{
    let mut threads = Vec::new(alloc);
    for _ in 0..PLACES {
        threads.push(None)?;
    }
    Ok(threads)
}

/// Joins the thread at a place, if there is one.
pub(crate) fn join_at<D: Disk, B: Origin<D>, R: Threads, I: Read + Drop, O: Write + Drop>(
    rt: &R,
    threads: &mut Vec<Option<Attendant<D, B, I, O>>>,
    place: usize,
)
    requires { place < length threads.old.items }
    ensures emptied { threads.new.items ≡ slice_set threads.old.items place None }
    ensures kept { IfSome (slice_get threads.old.items place) (λ there. IfSome there (λ h. IsAttended D.is_modelled D.life B.is I.remaining O.contents h.promise.settings.value h.promise.pass.value h.promise.reader.value h.promise.writer.value)) }
{
    if let Some(thread) = threads[place].take() {
        thread.join(rt);
    }
}

/// Joins all of them.
pub(crate) fn join_all<D: Disk, B: Origin<D>, R: Threads, I: Read + Drop, O: Write + Drop>(
    rt: &R,
    threads: &mut Vec<Option<Attendant<D, B, I, O>>>,
)
    requires { length threads.old.items ≡ 64 }
    ensures { (place : ℕ) → place < 64 → IfSome (slice_get threads.old.items place) (λ there. IfSome there (λ h. IsAttended D.is_modelled D.life B.is I.remaining O.contents h.promise.settings.value h.promise.pass.value h.promise.reader.value h.promise.writer.value)) }
{
    for place in 0..PLACES {
        join_at(rt, threads, place);
    }
}

/// Puts a thread at a place that nobody has.
pub(crate) fn put_at<D: Disk, B: Origin<D>, I: Read + Drop, O: Write + Drop>(
    threads: &mut Vec<Option<Attendant<D, B, I, O>>>,
    place: usize,
    thread: Attendant<D, B, I, O>,
)
    requires { place < length threads.old.items }
    ensures { threads.new.items ≡ slice_set threads.old.items place (Some thread) }
{
    threads[place] = Some(thread);
}

//! The calls of a book.

use crate::acted::Acted;
use crate::asking::{ask, is_done};
use crate::book::Book;
use crate::calls::CallList;
use crate::chosen::Chosen;
use crate::count::Count;
use crate::listing::list;
use crate::numbering::{free_places, is_out_of_numbers, knows};
use crate::pass::Pass;
use crate::renewals::Renewals;
use core_calls::{Answer, CoreCall};
use drda_disk::Disk;
use durable_core::DurableCore;
use std::alloc::Global;
use std::snapshot::Snapshot;
use turns::Lack;

impl<D: Disk> Book<D> {
    ghost use Rattle.std.specs.Prelude.{◌≡◌, ◌<◌, ◌↔◌, IfErr, IfOk, IfSome, IsTrue, None, false, true};
    ghost use Rattle.core_calls.specs.Call.{call_of};
    ghost use Rattle.recovery.specs.Journaled.{Journaled, shown_on};
    ghost use Rattle.core_history.specs.Books.{IsIdle, newly_opened};
    ghost use Rattle.core_history.specs.Passes.{Acts, Admits, HasNoLeave, Knows, Rests, retired};

    /// Opens a book over a core. Out of memory, the core is handed back.
    pub fn open(alloc: Global, core: DurableCore<D>) -> Result<Book<D>, DurableCore<D>>
        ensures book { IfOk result (λ b. b ≡ newly_opened core) }
        ensures back { IfErr result (λ back. back ≡ core) }
    {
        recovery::laws::calls_go_on::<D>();
        serializability::laws::answers_are_serial();
        core.is_durable();
        let Ok(places) = free_places(alloc) else {
            return Err(core);
        };
        let Ok(left) = free_places(alloc) else {
            return Err(core);
        };
        let Ok(chosen) = Chosen::new(alloc) else {
            return Err(core);
        };
        Ok(Book {
            opening: Snapshot::of(&core),
            core,
            calls: CallList::none(),
            places,
            left,
            next: 1,
            renewals: Renewals::none(),
            chosen,
        })
    }

    /// The core.
    pub fn core(&self) -> &DurableCore<D>
        ensures { result.now ≡ self.now.core }
    {
        &self.core
    }

    /// The core, as the last call left it.
    pub fn into_core(self) -> DurableCore<D>
        ensures { result ≡ self.core }
    {
        self.core
    }

    /// From now on the rows of an answer take so many bytes at most, each 8 beside its own: a query whose rows take more is answered
    /// `NoMemory`, and not listed. Before, there is no bound.
    pub fn bound_rows(&mut self, bytes: usize)
        ensures { self.new ≡ self.old }
    {
        self.core.bound_rows(bytes);
    }

    /// How many checkpoints were written since the book was opened, modulo 2^64. No clause says anything of it.
    pub fn checkpoints(&self) -> u64 {
        self.renewals.written()
    }

    /// What a record has no room in that the core has none for. No clause says anything of it.
    pub fn lack(&self) -> Lack {
        self.renewals.lack(&self.core)
    }

    /// Leave for one conversation more, under a number that was not given before. None where 64 have leave,
    /// or no number is left; then nothing changes. Takes no memory.
    pub fn admit(&mut self) -> Option<Pass>
        ensures some { IfSome result (λ pass. Admits self.old pass self.new) }
        ensures place { IfSome result (λ pass. pass.place < 64) }
        ensures none { result ≡ None → (self.new ≡ self.old) × HasNoLeave self.old }
        ensures journaled { Journaled D.is_modelled (shown_on D.life self.old.core) (shown_on D.life self.new.core) }
    {
        recovery::laws::calls_go_on::<D>();
        self.core.is_durable();
        let next = self.next.checked_add(1)?;
        let place = free_place(&self.places)?;
        let conversation = self.next;
        enroll(&mut self.places, place, conversation);
        self.next = next;
        Some(Pass {
            conversation,
            place,
            count: 0,
            calls: CallList::none(),
        })
    }

    /// Does one call of the pass's conversation and lists it, as one step. It is answered as the core answers:
    /// by its step, or by an excuse. Where the journal has no room for its record, a checkpoint is written first, unless
    /// nothing was recorded since the last one.
    ///
    /// `NoMemory`, which is not listed, comes where the core wants memory and none is there, and where the
    /// conversation has made 2^64 - 2 calls; of a loss only behind 2^64 - 1. `StrangerPass` comes where the book
    /// does not count as many calls of the conversation as the pass: then nothing was done.
    pub fn act(&mut self, pass: &mut Pass, call: &CoreCall<'_, '_, '_>) -> Acted
        ensures acts { Acts D.is_modelled D.life self.old pass.old (call_of call.now) result self.new pass.new }
        ensures journaled { Journaled D.is_modelled (shown_on D.life self.old.core) (shown_on D.life self.new.core) }
    {
        recovery::laws::calls_go_on::<D>();
        serializability::laws::answers_are_serial();
        serializability::laws::answers_belong_to_calls();
        self.core.is_durable();
        if !knows(&self.places, pass) {
            return Acted::StrangerPass;
        }
        if is_out_of_numbers(pass.count, call) {
            return Acted::Answered(Answer::NoMemory);
        }
        match ask(&mut self.core, &mut self.renewals, pass.conversation, call) {
            Answer::NoMemory => Acted::Answered(Answer::NoMemory),
            answer => {
                let is_taken = is_done(&answer);
                list(
                    &mut self.calls,
                    &mut self.places,
                    pass,
                    call,
                    &answer,
                    is_taken,
                );
                Acted::Answered(answer)
            }
        }
    }

    /// Writes a checkpoint where one is due, and something was recorded since the last one. Nothing is listed; where it
    /// has no room, or memory is refused, the book goes on without; where the device fails, the next call tells.
    pub fn consider_checkpoint(&mut self)
        ensures rests { Rests self.old.core self.new.core }
        ensures rest { self.new ≡ record self.old { core = self.new.core } }
        ensures journaled { Journaled D.is_modelled (shown_on D.life self.old.core) (shown_on D.life self.new.core) }
    {
        recovery::laws::calls_go_on::<D>();
        self.core.is_durable();
        if self.renewals.is_due(&self.core) {
            self.renewals.renew(&mut self.core);
        }
    }

    /// Behind a group: writes a checkpoint where the records since the last one take more than 16 MiB and a sixteenth of a half. Else
    /// as `consider_checkpoint`.
    pub fn consider_behind_group(&mut self)
        ensures rests { Rests self.old.core self.new.core }
        ensures rest { self.new ≡ record self.old { core = self.new.core } }
        ensures journaled { Journaled D.is_modelled (shown_on D.life self.old.core) (shown_on D.life self.new.core) }
    {
        recovery::laws::calls_go_on::<D>();
        self.core.is_durable();
        if self.renewals.is_overdue(&self.core) {
            self.renewals.renew(&mut self.core);
        }
    }

    /// Takes a pass back, and its place is free, where the book counts as many calls as the pass; else nothing
    /// changes, and the answer is false. The conversation's loss is to be asked before.
    pub fn retire(&mut self, pass: Pass) -> bool
        ensures known { IsTrue result ↔ Knows self.old pass }
        ensures done { result ≡ true → self.new ≡ retired self.old pass }
        ensures stranger { result ≡ false → self.new ≡ self.old }
        ensures journaled { Journaled D.is_modelled (shown_on D.life self.old.core) (shown_on D.life self.new.core) }
    {
        recovery::laws::calls_go_on::<D>();
        self.core.is_durable();
        if !knows(&self.places, &pass) {
            return false;
        }
        leave(&mut self.places, pass.place);
        true
    }

    /// Whether no conversation has leave: each pass that was given came back, and counted as the book did.
    pub fn is_idle(&self) -> bool
        ensures { IsTrue result ↔ IsIdle self.now }
    {
        self.places.iter().all(|place| place.is_none())
    }
}

ghost use Rattle.std.specs.Prelude.{◌≡◌, ◌≢◌, ◌<◌, ◌≤◌, ◌+◌, [], IfSome, None, Some, length, slice_get, slice_set};
ghost use Rattle.core_history.specs.Books.{AreCounted};

// A place that is free.
fn free_place(places: &[Option<Count>]) -> Option<usize>
    ensures some { IfSome result (λ place. slice_get places.now place ≡ Some None) }
    ensures none { result ≡ None → (place : _) → place < length places.now → slice_get places.now place ≢ Some None }
{
    places.iter().position(|place| place.is_none())
}

// A conversation has leave at a place, and has made no call.
fn enroll(places: &mut Vec<Option<Count>>, place: usize, conversation: u64)
    requires { slice_get places.old.items place ≡ Some None }
    ensures places { places.new.items ≡ slice_set places.old.items place (Some (record { conversation = conversation; calls = 0 })) }
    ensures counted { (calls : _) → AreCounted calls places.old.items conversation → AreCounted calls places.new.items (conversation + 1) }
{
    places[place] = Some(Count {
        conversation,
        calls: 0,
    });
}

// A place is free again.
fn leave(places: &mut Vec<Option<Count>>, place: usize)
    requires { place < length places.old.items }
    ensures places { places.new.items ≡ slice_set places.old.items place None }
    ensures counted { (calls next : _) → AreCounted calls places.old.items next → AreCounted calls places.new.items next }
{
    places[place] = None;
}

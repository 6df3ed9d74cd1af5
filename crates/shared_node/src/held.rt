//! What lies under the lock.

use crate::origin::Origin;
use crate::turn::Begun;
use crate::waiting::Waiting;
use core_calls::CoreCall;
use core_history::{Acted, Book, Pass, Wish};
use drda_disk::{Disk, Flushed, Flusher};
use std::marker::{Model, PhantomData};
use std::mem::swap;
use std::sync::Wait;
use std::time::{Clock, Instant};
use turns::Turn;
use unit_records::Asked;

/// What lies under the lock: the book, which was opened over a core of which this is known, and the wishes that the leader of a
/// group has taken, and those of the next group that are laid behind: lists that are used again. To clauses it is the book.
#[derive(Drop)]
pub(crate) struct Held<D: Disk, B: Origin<D>> {
    pub(crate) book: Book<D>,
    pub(crate) wishes: Vec<Wish>,
    pub(crate) next: Vec<Wish>,
    pub(crate) origin: PhantomData<B>,
}

impl<D: Disk, B: Origin<D>> Model for Held<D, B> {
    ghost use Rattle.std.specs.Coded.{codes};
    ghost use Rattle.std.specs.Prelude.{IsTrue};
    ghost use Rattle.core_history.specs.Books.{Told};
    ghost use Rattle.durable_core.specs.Ahead.{LetsOpenEarly};
    ghost use Rattle.sql_copies.specs.Stored.{coded_predicate};

    ghost Value = { Told D };

    ghost coded = { Prim.hlevel (codes, coded_predicate) };

    ghost view = { λ h. h.book };

    ghost invariant = { λ h. B.is h.book.opening × (IsTrue D.is_modelled → LetsOpenEarly D.allows) };
}

impl<D: Disk, B: Origin<D>> Held<D, B> {
    ghost use Rattle.std.specs.Prelude.{◌≡◌, ◌<◌, ◌↔◌, IfSome, IsTrue, None, Some, false, true};
    ghost use Rattle.core_calls.specs.Call.{call_of};
    ghost use Rattle.core_history.specs.Books.{IsKept};
    ghost use Rattle.core_history.specs.Passes.{Admits, HasNoLeave, Knows, retired};
    ghost use Rattle.unit_records.specs.Together.{call_for};
    ghost use Rattle.durable_core.specs.Ahead.{LetsOpenEarly};
    ghost use Rattle.recovery.specs.Journaled.{Journaled, shown_on};
    ghost use Rattle.shared_node.specs.Desks.{DeskActs};
    ghost use Rattle.shared_node.specs.Locked.{Considers, LaysAhead};
    ghost use Rattle.shared_node.specs.Standing.{Stands};
    ghost use Rattle.shared_node.specs.Turns.{MayFulfil, TakesTurn};

    /// The book lies there, and nothing is wished for.
    pub(crate) fn new(book: Book<D>, wishes: Vec<Wish>, next: Vec<Wish>) -> Held<D, B>
        requires origin { B.is book.opening }
        requires early { IsTrue D.is_modelled → LetsOpenEarly D.allows }
    {
        Held {
            book,
            wishes,
            next,
            origin: PhantomData,
        }
    }

    /// The book.
    pub(crate) fn into_book(self) -> Book<D>
        ensures book { result ≡ self }
        ensures origin { B.is result.opening }
    {
        self.book
    }

    /// Leave for one conversation more; None where 64 have it, or no number is left.
    pub(crate) fn admit(&mut self) -> Option<Pass>
        ensures some { IfSome result (λ pass. Admits self.old pass self.new) }
        ensures place { IfSome result (λ pass. pass.place < 64) }
        ensures none { result ≡ None → (self.new ≡ self.old) × HasNoLeave self.old }
        ensures was_kept { IsKept D.is_modelled D.life self.old }
        ensures is_kept { IsKept D.is_modelled D.life self.new }
        ensures origin { B.is self.old.opening }
        ensures journaled { Journaled D.is_modelled (shown_on D.life self.old.core) (shown_on D.life self.new.core) }
    {
        self.book.is_kept();
        let pass = self.book.admit();
        self.book.is_kept();
        pass
    }

    /// Writes a checkpoint where one is due, and tells what its turn at the lock was like, which was waited for since this time.
    pub(crate) fn consider_checkpoint<R: Clock>(&mut self, rt: &R, since: Option<Instant>) -> Turn
        ensures considers { Considers result self.old self.new }
        ensures was_kept { IsKept D.is_modelled D.life self.old }
        ensures is_kept { IsKept D.is_modelled D.life self.new }
        ensures origin { B.is self.old.opening }
        ensures journaled { Journaled D.is_modelled (shown_on D.life self.old.core) (shown_on D.life self.new.core) }
    {
        self.book.is_kept();
        let begun = Begun::new(rt, since, &self.book);
        self.book.consider_checkpoint();
        self.book.is_kept();
        begun.end(rt, &self.book)
    }

    /// Takes all wishes for the group that is led, and lays it ahead of being made: what flushes the disk, where it lies there then.
    pub(crate) fn lay_ahead<R: Wait + Clock>(
        &mut self,
        rt: &R,
        waiting: &Waiting,
    ) -> Option<Flusher>
        ensures lays { LaysAhead self.old self.new }
        ensures was_kept { IsKept D.is_modelled D.life self.old }
        ensures is_kept { IsKept D.is_modelled D.life self.new }
        ensures origin { B.is self.old.opening }
        ensures journaled { Journaled D.is_modelled (shown_on D.life self.old.core) (shown_on D.life self.new.core) }
    {
        self.book.is_kept();
        waiting.take(rt, &mut self.wishes);
        let flusher = self.book.lay_ahead(&self.wishes);
        self.book.is_kept();
        flusher
    }

    /// Has the group that is led count on the disk before it is made, where it lies there and the disk has settled since, and lays the next
    /// group behind it, of all who wish by then: what flushes the disk, where it counts.
    pub(crate) fn open_early<R: Wait + Clock>(
        &mut self,
        rt: &R,
        waiting: &Waiting,
    ) -> Option<Flusher>
        ensures lays { LaysAhead self.old self.new }
        ensures was_kept { IsKept D.is_modelled D.life self.old }
        ensures is_kept { IsKept D.is_modelled D.life self.new }
        ensures origin { B.is self.old.opening }
        ensures journaled { Journaled D.is_modelled (shown_on D.life self.old.core) (shown_on D.life self.new.core) }
    {
        recovery::laws::calls_go_on::<D>();
        self.book.is_kept();
        waiting.take_next(rt, &mut self.next);
        let book = &mut self.book;
        lay_behind(book, &self.next);
        let flusher = book.open_early(&self.wishes);
        self.book.is_kept();
        flusher
    }

    /// What became of the flush of what was laid ahead.
    pub(crate) fn settle(&mut self, flushed: Flushed)
        ensures lays { LaysAhead self.old self.new }
        ensures was_kept { IsKept D.is_modelled D.life self.old }
        ensures is_kept { IsKept D.is_modelled D.life self.new }
        ensures origin { B.is self.old.opening }
        ensures journaled { Journaled D.is_modelled (shown_on D.life self.old.core) (shown_on D.life self.new.core) }
    {
        self.book.is_kept();
        self.book.settle(flushed);
        self.book.is_kept();
    }

    /// Takes a pass back, where the book counts as many calls as the pass.
    pub(crate) fn retire(&mut self, pass: Pass) -> bool
        ensures known { IsTrue result ↔ Knows self.old pass }
        ensures done { result ≡ true → self.new ≡ retired self.old pass }
        ensures stranger { result ≡ false → self.new ≡ self.old }
        ensures was_kept { IsKept D.is_modelled D.life self.old }
        ensures is_kept { IsKept D.is_modelled D.life self.new }
        ensures origin { B.is self.old.opening }
        ensures journaled { Journaled D.is_modelled (shown_on D.life self.old.core) (shown_on D.life self.new.core) }
    {
        self.book.is_kept();
        let is_taken = self.book.retire(pass);
        self.book.is_kept();
        is_taken
    }

    /// The next answer has so many bytes of rows at most.
    pub(crate) fn bound_rows(&mut self, bytes: usize)
        ensures { self.new ≡ self.old }
    {
        self.book.bound_rows(bytes);
    }

    /// Does one call of a pass, which may lead a group, and behind a loss and a group considers a checkpoint.
    pub(crate) fn take_turn(
        &mut self,
        pass: &mut Pass,
        call: &CoreCall<'_, '_, '_>,
        wished: &Option<Asked>,
        leads: bool,
    ) -> Acted
        requires { (w : _) → wished.now ≡ Some w → call_of call.now ≡ call_for w }
        ensures shows { DeskActs pass.old (call_of call.now) result pass.new }
        ensures turn { TakesTurn D.is_modelled D.life pass.old (call_of call.now) result pass.new self.old self.new }
        ensures was_kept { IsKept D.is_modelled D.life self.old }
        ensures is_kept { IsKept D.is_modelled D.life self.new }
        ensures origin { B.is self.old.opening }
        ensures journaled { Journaled D.is_modelled (shown_on D.life self.old.core) (shown_on D.life self.new.core) }
    {
        recovery::laws::calls_go_on::<D>();
        self.book.is_kept();
        let acted = self.act(pass, call, wished, leads);
        rest_behind(&mut self.book, call, leads);
        self.book.is_kept();
        acted
    }

    // Does one call of a pass. What was wished for may have been made with others' calls meanwhile; else who leads makes it with
    // those of all whose wishes were taken; else it is made alone.
    fn act(
        &mut self,
        pass: &mut Pass,
        call: &CoreCall<'_, '_, '_>,
        wished: &Option<Asked>,
        leads: bool,
    ) -> Acted
        requires { (w : _) → wished.now ≡ Some w → call_of call.now ≡ call_for w }
        ensures shows { DeskActs pass.old (call_of call.now) result pass.new }
        ensures turn { TakesTurn D.is_modelled D.life pass.old (call_of call.now) result pass.new self.old self.new }
        ensures journaled { Journaled D.is_modelled (shown_on D.life self.old.core) (shown_on D.life self.new.core) }
    {
        recovery::laws::calls_go_on::<D>();
        serializability::laws::answers_belong_to_calls();
        self.book.is_kept();
        let Some(wished) = wished else {
            return self.book.act(pass, call);
        };
        if let Some(answer) = self.book.collect(pass, wished) {
            return Acted::Answered(answer);
        }
        self.fulfil(pass, wished, leads);
        self.book.is_kept();
        if let Some(answer) = self.book.collect(pass, wished) {
            return Acted::Answered(answer);
        }
        self.book.act(pass, call)
    }

    // Makes together what was taken, for who leads, who alone may, since what is laid ahead waits there for its flush; the next to lead finds
    // what was laid behind. Nothing is made where a wish at the pass's place is none of its own.
    fn fulfil(&mut self, pass: &Pass, wished: &Asked, leads: bool)
        ensures fulfils { MayFulfil D.life self.old self.new }
        ensures stands { Stands self.old pass.now wished.now → Stands self.new pass.now wished.now }
        ensures journaled { Journaled D.is_modelled (shown_on D.life self.old.core) (shown_on D.life self.new.core) }
    {
        recovery::laws::calls_go_on::<D>();
        self.book.core().is_durable();
        if leads {
            fulfil_where_fair(&mut self.book, &self.wishes, pass, wished);
            self.wishes.clear();
            swap(&mut self.wishes, &mut self.next);
        }
    }
}

ghost use Rattle.std.specs.Prelude.{◌≡◌, Some, slice_get, true};
ghost use Rattle.core_history.specs.Gathered.{Agrees};
ghost use Rattle.core_history.specs.Passes.{Rests};
ghost use Rattle.recovery.specs.Journaled.{Journaled, shown_on};
ghost use Rattle.shared_node.specs.Standing.{Stands};
ghost use Rattle.shared_node.specs.Turns.{MayFulfil};

// Lays what is wished for behind what lies ahead, if anything is.
fn lay_behind<D: Disk>(book: &mut Book<D>, wishes: &[Wish])
    ensures rests { Rests book.old.core book.new.core }
    ensures rest { book.new ≡ record book.old { core = book.new.core } }
    ensures journaled { Journaled D.is_modelled (shown_on D.life book.old.core) (shown_on D.life book.new.core) }
{
    recovery::laws::calls_go_on::<D>();
    book.core().is_durable();
    if !wishes.is_empty() {
        let _laid = book.lay_ahead(wishes);
    }
}

// Behind a loss, and behind a group, a checkpoint is considered.
fn rest_behind<D: Disk>(book: &mut Book<D>, call: &CoreCall<'_, '_, '_>, leads: bool)
    ensures rests { Rests book.old.core book.new.core }
    ensures rest { book.new ≡ record book.old { core = book.new.core } }
    ensures journaled { Journaled D.is_modelled (shown_on D.life book.old.core) (shown_on D.life book.new.core) }
{
    recovery::laws::calls_go_on::<D>();
    book.core().is_durable();
    if matches!(*call, CoreCall::Lost) {
        book.consider_checkpoint();
    } else if leads {
        book.consider_behind_group();
    }
}

// Whether each wish at the pass's place is its own.
fn are_fair(wishes: &[Wish], pass: &Pass, wished: &Asked) -> bool
    ensures { result ≡ true → (at : _) (wish : _) → slice_get wishes.now at ≡ Some wish → Agrees pass.now wished.now wish }
{
    wishes.iter().all(|wish| pass.agrees(wish, wished))
}

// Makes together what is wished for, where each wish at the pass's place is its own.
fn fulfil_where_fair<D: Disk>(book: &mut Book<D>, wishes: &[Wish], pass: &Pass, wished: &Asked)
    ensures fulfils { MayFulfil D.life book.old book.new }
    ensures stands { Stands book.old pass.now wished.now → Stands book.new pass.now wished.now }
    ensures journaled { Journaled D.is_modelled (shown_on D.life book.old.core) (shown_on D.life book.new.core) }
{
    recovery::laws::calls_go_on::<D>();
    book.core().is_durable();
    if are_fair(wishes, pass, wished) {
        book.make_together(wishes);
    }
}

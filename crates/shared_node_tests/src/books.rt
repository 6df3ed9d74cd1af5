//! A book, and passes, of which some may be another book's.

use core_calls::{Answer, CoreCall};
use drda_disk::{Flushed, FuseDisk, MemDisk};
use durable_core::{DurableCore, EarlyUnits};
use early_disk::EarlyDisk;
use shared_node::{Acted, Book, Pass, Wish};
use std::alloc::{AllocError, Global};
use test_calls::push_text;

/// A disk in memory that may fail, on which units may count before they are made.
pub type Device = EarlyDisk<FuseDisk<MemDisk>, EarlyUnits>;

/// A core over it.
pub type Core = DurableCore<Device>;

/// A book, passes in the order in which they were given, from 1 on, wishes to commit, and what became of the flush of a group that was laid
/// ahead.
#[derive(Drop)]
pub struct Desks {
    pub(crate) alloc: Global,
    pub(crate) book: Option<Book<Device>>,
    pub(crate) passes: Vec<Option<Pass>>,
    pub(crate) wishes: Vec<Wish>,
    pub(crate) aside: Vec<Wish>,
    pub(crate) flushed: Option<Flushed>,
    strangers: u64,
}

// How many passes there are, at how many places, and how many calls they count.
fn counts_of(passes: &[Option<Pass>]) -> (u64, usize, u64) {
    let (mut count, mut calls) = (0_u64, 0_u64);
    let mut taken = [false; 64];
    for pass in passes {
        if let Some(pass) = pass {
            count = count.saturating_add(1);
            calls = calls.saturating_add(pass.count());
            if let Some(place) = taken.get_mut(pass.place()) {
                *place = true;
            }
        }
    }
    (count, taken.iter().filter(|it| **it).count(), calls)
}

/// The place of what has this number, from 1 on.
pub fn place_of(number: u64) -> Option<usize> {
    usize::try_from(number.checked_sub(1)?).ok()
}

impl Desks {
    /// No book, and no pass.
    pub fn new(alloc: Global) -> Desks {
        Desks {
            alloc,
            book: None,
            passes: Vec::new(alloc),
            wishes: Vec::new(alloc),
            aside: Vec::new(alloc),
            flushed: None,
            strangers: 0,
        }
    }

    /// A new book over a core. The passes of the one before it stay.
    pub fn open(&mut self, core: Core) -> Option<()> {
        self.book = Book::open(self.alloc, core).ok();
        if self.book.is_some() { Some(()) } else { None }
    }

    /// There is no pass any more, and no wish.
    pub fn forget(&mut self) {
        self.passes.clear();
        self.wishes.clear();
        self.aside.clear();
        self.flushed = None;
    }

    /// What the book answers to a call with the pass of this number: to a stranger's, which is counted, as where it is closed.
    pub fn ask(&mut self, number: u64, call: &CoreCall<'_, '_, '_>) -> Option<Answer> {
        let Some(Some(pass)) = self.passes.get_mut(place_of(number)?) else {
            return None;
        };
        let Some(book) = &mut self.book else {
            return None;
        };
        match book.act(pass, call) {
            Acted::Answered(answer) => Some(answer),
            Acted::StrangerPass => {
                self.strangers = self.strangers.saturating_add(1);
                Some(Answer::Closed)
            }
        }
    }

    /// The book's core, as the last call left it.
    pub fn into_core(&mut self) -> Option<Core> {
        Some(self.book.take()?.into_core())
    }

    // How many calls the book's device has had. The book is gone then.
    fn said_calls(&mut self) -> Option<String> {
        let calls = self.into_core()?.into_disk().into_inner().calls();
        format!(in self.alloc; "{calls} calls of the device").ok()
    }

    // Leave for one conversation more, where the book gives it.
    fn admit(&mut self) -> Option<String> {
        let Some(book) = &mut self.book else {
            return None;
        };
        let Some(pass) = book.admit() else {
            return String::from_str(self.alloc, "no leave").ok();
        };
        let conversation = pass.conversation();
        self.passes.push(Some(pass)).ok()?;
        format!(in self.alloc; "conversation {conversation}").ok()
    }

    // The book takes the pass of this number back, if it knows it.
    fn retire(&mut self, number: &str) -> Option<&'static str> {
        let Some(slot) = self.passes.get_mut(place_of(number.parse::<u64>().ok()?)?) else {
            return None;
        };
        let pass = slot.take()?;
        let Some(book) = &mut self.book else {
            return None;
        };
        Some(if book.retire(pass) {
            "taken back"
        } else {
            "a stranger's"
        })
    }

    // How many passes there are, how many calls they count, and how many of strangers were shown.
    fn said_passes(&self) -> Result<String, AllocError> {
        let (count, places, calls) = counts_of(&self.passes);
        let strangers = self.strangers;
        format!(in self.alloc;
            "passes: {count}, places: {places}, calls: {calls}, strangers: {strangers}"
        )
    }

    // What is told of the book.
    fn said_book(&self) -> Option<String> {
        let Some(book) = &self.book else {
            return None;
        };
        let (room, is_idle, is_failed) = (
            book.core().room(),
            book.is_idle(),
            book.core().is_failed(),
        );
        format!(in self.alloc; "room: {room}, idle: {is_idle}, failed: {is_failed}").ok()
    }

    fn consider_checkpoint(&mut self) -> Option<()> {
        let Some(book) = &mut self.book else {
            return None;
        };
        book.consider_checkpoint();
        Some(())
    }

    /// `admit` and `retire N` give leave and take it back, `passes` and `told` tell of the passes and of the book, `checkpoint`
    /// considers one, and `calls` tells how often the device was called.
    pub fn tell(&mut self, verb: &str, rest: &str, out: &mut Vec<u8>) -> Option<()> {
        match verb {
            "admit" => push_text(out, &self.admit()?),
            "retire" => push_text(out, self.retire(rest)?),
            "passes" => push_text(out, &self.said_passes().ok()?),
            "checkpoint" => {
                self.consider_checkpoint()?;
                push_text(out, "considered")
            }
            "calls" => push_text(out, &self.said_calls()?),
            "told" => push_text(out, &self.said_book()?),
            _ => None,
        }
    }
}

//! A core, and books over it.

use crate::books::{Core, Desks};
use crate::locks::Locks;
use core_calls::{Answer, CoreCall};
use drda_disk::FuseDisk;
use durable_core::open;
use early_disk::EarlyDisk;
use std::alloc::Global;
use std::sync::Wait;
use std::time::Clock;
use test_calls::{Calls, Scripts, push_text};
use test_core::fresh_store;

/// A core, books that are asked, and passes.
#[derive(Drop)]
pub struct Bench<'r, R> {
    rt: &'r R,
    alloc: Global,
    core: Option<Core>,
    desks: Desks,
    locks: Locks,
}

// A core over a fresh store, whose device fails behind so many calls.
fn core_with(alloc: Global, calls: u64) -> Option<Core> {
    let disk = FuseDisk::new(fresh_store(alloc)?, calls, false);
    match open(alloc, EarlyDisk::new(disk)) {
        Ok(core) => Some(core),
        Err(_) => None,
    }
}

// The same, whose device fails behind so many calls more than those of the opening.
fn core_that_stops(alloc: Global, calls: &str) -> Option<Core> {
    let calls = calls.parse::<u64>().ok()?;
    let opening = core_with(alloc, u64::MAX)?.into_disk().into_inner().calls();
    core_with(alloc, opening.saturating_add(calls))
}

impl<'r, R: Wait + Clock> Bench<'r, R> {
    /// No core.
    pub fn new(rt: &'r R, alloc: Global) -> Bench<'r, R> {
        Bench {
            rt,
            alloc,
            core: None,
            desks: Desks::new(alloc),
            locks: Locks::new(alloc),
        }
    }

    // A new book over the core, under a lock or not.
    fn open_book(&mut self, is_locked: bool, out: &mut Vec<u8>) -> Option<()> {
        let core = self.core.take()?;
        if is_locked {
            self.locks.open(core)?;
        } else {
            self.desks.open(core)?;
        }
        push_text(out, "opened")
    }

    fn forget(&mut self, out: &mut Vec<u8>) -> Option<()> {
        self.desks.forget();
        self.locks.forget();
        push_text(out, "forgotten")
    }

    fn make(&mut self, core: Option<Core>, out: &mut Vec<u8>) -> Option<()> {
        self.core = core;
        if self.core.is_none() {
            return None;
        }
        push_text(out, "a core")
    }

    // A core over a fresh store, one whose device fails behind so many calls more, or that of the book.
    fn core_by(&mut self, verb: &str, rest: &str) -> Option<Core> {
        match verb {
            "fresh" => core_with(self.alloc, u64::MAX),
            "stops" => core_that_stops(self.alloc, rest),
            _ => self.desks.into_core(),
        }
    }
}

impl<'r, R: Wait + Clock> Calls for Bench<'r, R> {
    fn step(&mut self, conversation: u64, call: &CoreCall<'_, '_, '_>) -> Option<Answer> {
        self.desks.ask(conversation, call)
    }

    // `fresh` is a core over a fresh store, `stops N` one whose device fails behind so many calls more, and `core` that of the book; `book`
    // a new book over it, and `lock` one under a lock; `forget` leaves no pass.
    fn do_other(
        &mut self,
        _scripts: &Scripts,
        verb: &str,
        rest: &str,
        out: &mut Vec<u8>,
    ) -> Option<()> {
        match verb {
            "fresh" | "stops" | "core" => {
                let core = self.core_by(verb, rest);
                self.make(core, out)
            }
            "book" | "lock" => self.open_book(verb == "lock", out),
            "forget" => self.forget(out),
            "holds" | "writes" | "back" | "consider" | "close" => {
                self.locks.tell(self.rt, verb, rest, out)
            }
            "wish" | "lay" | "early" | "settle" | "aside" | "gather" | "collect" => self
                .desks
                .tell_of_groups(verb, rest, out),
            _ => self.desks.tell(verb, rest, out),
        }
    }
}

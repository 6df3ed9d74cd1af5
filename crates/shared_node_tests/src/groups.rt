//! Calls that are made together, and what is collected of them.

use crate::books::{Desks, place_of};
use core_calls::Answer;
use std::alloc::Global;
use std::mem::swap;
use test_calls::{push_answer, push_text, xid_of};
use unit_records::{Asked, Phase};
use xa_manager::Decision;

// The phase of two-phase commit that a word names.
fn phase_named(word: &str) -> Option<Phase> {
    match word {
        "prepare" => Some(Phase::Prepare),
        "commit" => Some(Phase::Decide(Decision::Commit)),
        "rollback" => Some(Phase::Decide(Decision::RollBack)),
        _ => None,
    }
}

// Whose wish it is, and what for: to commit, where no more is said, or a phase of a branch.
fn wish_in(alloc: Global, rest: &str) -> Option<(u64, Asked)> {
    let Some((number, words)) = rest.split_once(' ') else {
        return Some((rest.parse::<u64>().ok()?, Asked::Commit));
    };
    let (verb, word) = words.split_once(' ')?;
    let wished = Asked::Through(phase_named(verb)?, xid_of(alloc, word)?);
    Some((number.parse::<u64>().ok()?, wished))
}

impl Desks {
    // The conversation of the pass of this number has a wish.
    fn wish(&mut self, number: u64, wished: Asked) -> Option<()> {
        let Some(Some(pass)) = self.passes.get(place_of(number)?) else {
            return None;
        };
        self.wishes.push(pass.wish(wished)).ok()
    }

    // What was wished for is laid ahead of being made together, where that is possible, and flushed.
    fn lay(&mut self) -> Option<&'static str> {
        let Some(book) = &mut self.book else {
            return None;
        };
        let Some(flusher) = book.lay_ahead(&self.wishes) else {
            return Some("not laid");
        };
        self.flushed = Some(flusher.flush());
        Some("laid")
    }

    // What was laid counts before it is made, where that is possible, and is flushed.
    fn count_early(&mut self) -> Option<&'static str> {
        let Some(book) = &mut self.book else {
            return None;
        };
        let Some(flusher) = book.open_early(&self.wishes) else {
            return Some("not early");
        };
        self.flushed = Some(flusher.flush());
        Some("early")
    }

    // The book is told of the flush.
    fn settle(&mut self) -> Option<&'static str> {
        let Some(book) = &mut self.book else {
            return None;
        };
        let Some(flushed) = self.flushed.take() else {
            return Some("nothing to settle");
        };
        book.settle(flushed);
        Some("settled")
    }

    // What was wished for is made together, where that is possible. Then there are no wishes.
    fn gather(&mut self) -> Option<()> {
        let Some(book) = &mut self.book else {
            return None;
        };
        book.make_together(&self.wishes);
        self.wishes.clear();
        Some(())
    }

    // What is left for the pass of this number.
    fn collect(&mut self, number: u64, wished: Asked) -> Option<Option<Answer>> {
        let Some(Some(pass)) = self.passes.get_mut(place_of(number)?) else {
            return None;
        };
        let Some(book) = &mut self.book else {
            return None;
        };
        Some(book.collect(pass, &wished))
    }

    fn say_collected(&mut self, number: u64, wished: Asked, out: &mut Vec<u8>) -> Option<()> {
        match self.collect(number, wished)? {
            Some(answer) => push_answer(self.alloc, out, &answer),
            None => push_text(out, "nothing"),
        }
    }

    // What becomes of all wishes.
    fn tell_of_all(&mut self, verb: &str, out: &mut Vec<u8>) -> Option<()> {
        match verb {
            "lay" => push_text(out, self.lay()?),
            "early" => push_text(out, self.count_early()?),
            "settle" => push_text(out, self.settle()?),
            "aside" => {
                swap(&mut self.wishes, &mut self.aside);
                push_text(out, "aside")
            }
            _ => {
                self.gather()?;
                push_text(out, "gathered")
            }
        }
    }

    /// `wish N` is the wish of a pass to commit, and `wish N VERB XID` for a phase of a branch; `lay` lays ahead what was wished for and
    /// flushes it, `early` has it count and flushes that, and `settle` tells the book of a flush; `aside` puts these wishes and those that were put
    /// aside before in each other's place; `gather` makes it together, and `collect N`,
    /// or `collect N VERB XID`, gives what is left for a pass.
    pub fn tell_of_groups(&mut self, verb: &str, rest: &str, out: &mut Vec<u8>) -> Option<()> {
        if matches!(verb, "lay" | "early" | "settle" | "aside" | "gather") {
            return self.tell_of_all(verb, out);
        }
        let (number, wished) = wish_in(self.alloc, rest)?;
        if verb == "wish" {
            self.wish(number, wished)?;
            return push_text(out, "wished");
        }
        self.say_collected(number, wished, out)
    }
}

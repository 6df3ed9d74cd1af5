//! The calls that were asked, which clauses alone read.

ghost use Rattle.std.specs.Prelude.{◌≡◌, List, [], ◌∷◌, ◌++◌, if◌then◌else◌};
ghost use Rattle.std.specs.Borrow.{ftrue};
ghost use Rattle.std.specs.Coded.{codes};
ghost use Rattle.core_calls.specs.Answer.{answer_of};
ghost use Rattle.core_calls.specs.Call.{call_of};
ghost use Rattle.core_model.specs.Step.{Kept, Taken};
ghost use Rattle.serializability.specs.Answered.{AnsweredCall};
ghost use Rattle.sql_copies.specs.Stored.{coded_predicate};
ghost use Rattle.core_history.specs.Wishes.{listed_wish};

use core_calls::{Answer, CoreCall};
use std::marker::{Model, PhantomData, Send};
use unit_records::Asked;

/// The calls that were asked so far with what they were answered, in their order. It takes no memory.
#[derive(Drop)]
pub struct CallList {
    marker: PhantomData<u8>,
    pub ghost listed: { List AnsweredCall } by { Prim.hlevel (codes, coded_predicate) },
}

impl Model for CallList {
    ghost also_owns = { λ _. ftrue };
}

impl CallList {
    /// No calls.
    pub fn none() -> CallList
        ensures { result.listed ≡ [] }
    {
        CallList {
            marker: PhantomData,
        }
    }

    /// One call more.
    pub fn note(
        &mut self,
        _conversation: u64,
        _call: &CoreCall<'_, '_, '_>,
        _answer: &Answer,
        _is_taken: bool,
    )
        ensures { self.new.listed ≡ self.old.listed ++ record { conversation = _conversation; call = call_of _call.now; mark = if _is_taken then Taken else Kept; answer = answer_of _answer.now } ∷ [] }
    {}

    /// One call more, that was wished for and made together with others.
    pub(crate) fn note_wish(&mut self, _conversation: u64, _wished: &Asked, _has_failed: bool)
        ensures { self.new.listed ≡ self.old.listed ++ listed_wish _conversation _wished.now _has_failed ∷ [] }
    {}
}

// It holds nothing, so it may go to another thread.
unsafe impl Send for CallList {}

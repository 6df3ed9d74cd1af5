//! Who asks the book for one conversation.

use crate::hold::{Hold, end, lay_ahead};
use crate::keeping::Share;
use crate::origin::Origin;
use crate::owing::Owing;
use crate::shared::Shared;
use crate::turn::time;
use command_kit::Ask;
use core_calls::{Answer, CoreCall};
use core_history::{Acted, Pass, has_run_behind, wished_by};
use drda_disk::Disk;
use std::marker::Model;
use std::sync::Wait;
use std::time::Clock;
use turns::{Gate, Turn};
use unit_records::Asked;

/// The lock is kept for the end of a unit that comes behind a query with so many rows at most, since their reply is written
/// meanwhile.
const FEW_ROWS: usize = 16;

/// Who asks the book for one conversation, under the lock, call by call: its turn comes outside of the lock, the call and
/// what it lists are one step inside of it. Behind a short query the lock is kept for the end of its unit, where that has come
/// already and waits for nobody. To clauses it is its pass.
#[derive(Drop)]
pub(crate) struct Asker<'a, D: Disk, B: Origin<D>, R: Wait + Clock, G: Gate> {
    rt: &'a R,
    shared: &'a Shared<D, B>,
    gate: &'a G,
    pass: Pass,
    asked: u64,
    has_run: bool,
    expects_end: bool,
    // What was kept of the last turn, and whether a command was judged since that asked nothing.
    hold: Option<Hold<'a, D, B>>,
    is_idle: bool,
    waited: u64,
    held: u64,
    share: Share,
    owing: Owing,
}

impl<'a, D: Disk, B: Origin<D>, R: Wait + Clock, G: Gate> Model for Asker<'a, D, B, R, G> {
    ghost use Rattle.std.specs.Coded.{codes};
    ghost use Rattle.core_history.specs.declared.pass.Pass.{Pass};
    ghost use Rattle.sql_copies.specs.Stored.{coded_predicate};

    ghost Value = { Pass };

    ghost coded = { Prim.hlevel (codes, coded_predicate) };

    ghost view = { λ a. a.pass };
}

impl<'a, D: Disk, B: Origin<D>, R: Wait + Clock, G: Gate> Asker<'a, D, B, R, G> {
    ghost use Rattle.std.specs.Prelude.{◌≡◌};

    /// No call was made with the pass. The cursors of its conversation keep no more than so many bytes of rows.
    pub(crate) fn new(
        rt: &'a R,
        shared: &'a Shared<D, B>,
        gate: &'a G,
        pass: Pass,
        cursor_bytes: usize,
    ) -> Asker<'a, D, B, R, G>
        ensures { result ≡ pass }
    {
        Asker {
            rt,
            shared,
            gate,
            pass,
            asked: 0,
            has_run: false,
            expects_end: false,
            hold: None,
            is_idle: false,
            waited: 0,
            held: 0,
            share: Share::new(cursor_bytes),
            owing: Owing::new(),
        }
    }

    /// For how many microseconds one of its calls waited for the lock at most, and for how many one held it.
    pub(crate) fn longest(&self) -> (u64, u64) {
        (self.waited, self.held)
    }

    /// The pass. Nothing is kept any more.
    pub(crate) fn into_pass(self) -> Pass
        ensures { result ≡ self.entry }
    {
        self.share.end(&self.shared.keeping);
        self.pass
    }

    // The lock for a call, and whether it leads a group, which is laid ahead then. What waits with others must not hold it meanwhile.
    fn come(
        &mut self,
        call: &CoreCall<'_, '_, '_>,
        wished: &Option<Asked>,
    ) -> (Hold<'a, D, B>, bool)
        ensures { self.new ≡ self.old }
    {
        self.owing.pay(self.rt, &self.shared.waiting, call);
        if wished.is_some() {
            self.give_back();
        }
        if let Some(hold) = self.hold.take() {
            return (hold, false);
        }
        let came = time(self.rt);
        let shared = self.shared;
        let waiting = &shared.waiting;
        let leads = match wished {
            Some(wished) => waiting.wish(self.rt, self.pass.wish(*wished)),
            None => {
                waiting.come();
                None
            }
        };
        let guard = shared.take(self.rt);
        if leads.is_none() {
            waiting.go(self.rt);
        }
        let hold = Hold::new(self.rt, came, guard);
        match leads {
            Some(led) => (lay_ahead(self.rt, shared, hold, led), true),
            None => (hold, false),
        }
    }

    // Behind a call that was answered so the lock is kept, or given back.
    fn leave(&mut self, hold: Hold<'a, D, B>, acted: &Acted, leads: bool)
        ensures { self.new ≡ self.old }
    {
        if self.expects_end && !self.has_run && are_few_rows(acted) {
            self.hold = Some(hold);
            self.is_idle = false;
            return;
        }
        let others = self.shared.waiting.at_lock();
        let turn = end(self.rt, hold, Some(acted));
        if leads {
            self.shared.waiting.end(self.rt);
        }
        self.tell(&turn, !leads && others > 0);
    }

    // The lock is given back, where it was kept.
    fn give_back(&mut self)
        ensures { self.new ≡ self.old }
    {
        if let Some(hold) = self.hold.take() {
            let others = self.shared.waiting.at_lock();
            let turn = end(self.rt, hold, None);
            self.tell(&turn, others > 0);
        }
    }

    // A turn has ended, of which something is owed or nothing.
    fn tell(&mut self, turn: &Turn, owes: bool)
        ensures { self.new ≡ self.old }
    {
        if owes {
            self.owing.owe(self.rt, turn.held);
        }
        self.waited = self.waited.max(turn.waited);
        self.held = self.held.max(turn.held);
        self.gate.after(self.pass.conversation(), turn);
    }
}

impl<'a, D: Disk, B: Origin<D>, R: Wait + Clock, G: Gate> Ask for Asker<'a, D, B, R, G> {
    ghost use Rattle.shared_node.specs.Desks.{DeskAsks};

    ghost asks = { DeskAsks D.is_modelled D.life B.is };

    fn ask(&mut self, call: &CoreCall<'_, '_, '_>) -> Answer {
        if self.hold.is_none() {
            self.gate.turn(self.pass.conversation(), self.asked);
        }
        self.asked = self.asked.wrapping_add(1);
        let wished = wished_by(self.has_run, call);
        self.has_run = has_run_behind(self.has_run, call);
        let (mut hold, leads) = self.come(call, &wished);
        let held = &mut *hold.guard;
        let reserved = self.share.set_aside(&self.shared.keeping, call);
        held.bound_rows(reserved);
        let acted = held.take_turn(&mut self.pass, call, &wished, leads);
        self.share.settle(&self.shared.keeping, reserved, &acted);
        self.leave(hold, &acted, leads);
        told(acted)
    }

    fn expect_end(&mut self, is_expected: bool) {
        if self.is_idle {
            self.give_back();
        }
        self.is_idle = self.hold.is_some();
        self.expects_end = is_expected;
    }

    fn rest(&mut self) {
        self.give_back();
        self.expects_end = false;
    }

    fn keep(&mut self, bytes: usize) -> bool {
        let shared = self.shared;
        if self.share.set(&shared.keeping, bytes) {
            return true;
        }
        if self.hold.is_some() {
            return false;
        }
        // What is left may be reserved for a query, but not under the lock.
        let _guard = shared.take(self.rt);
        self.share.set(&shared.keeping, bytes)
    }
}

// Whether few rows were answered.
fn are_few_rows(acted: &Acted) -> bool {
    match acted {
        Acted::Answered(Answer::Rows(rows)) => rows.len() <= FEW_ROWS,
        _ => false,
    }
}

ghost use Rattle.std.specs.Prelude.{◌≡◌};
ghost use Rattle.core_calls.specs.Answer.{answer_of};
ghost use Rattle.shared_node.specs.Desks.{answer_told};

// What is answered.
fn told(acted: Acted) -> Answer
    ensures { answer_of result ≡ answer_told acted }
{
    match acted {
        Acted::Answered(answer) => answer,
        Acted::StrangerPass => Answer::Closed,
    }
}

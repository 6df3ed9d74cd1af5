//! One conversation.

use crate::access::{Access, is_checked, is_opened};
use crate::budget::Budget;
use crate::exchange::{Exchanged, do_command};
use crate::kept_cursors::KeptCursors;
use crate::settling::settle;
use crate::state::State;
use crate::told::{Told, UNTOLD};
use command_kit::{Ask, Replies, Statements};
use dss_frames::{Format, FrameFault, Segments, write_dss};
use session_commands::{Session, Settings, fresh_session};
use sqlam_replies::syntax_message;
use std::alloc::{AllocError, Global};
use std::marker::Model;

/// What a conversation needs next.
#[derive(Clone, Copy, Debug, PartialEq, Eq)]
pub enum Need {
    /// More bytes.
    Bytes,
    /// To be asked again: a command was answered, or passed over in a broken chain.
    Local,
    /// To be asked again: a command found no memory, and these bytes are its reply.
    Short([u8; 16]),
    /// Nothing: it is closed, and takes no more bytes.
    Closed,
}

/// One conversation: the bytes of a requester in, commands judged in the order of refusals, and
/// replies out.
#[derive(Drop)]
pub struct Front {
    alloc: Global,
    settings: Settings,
    segments: Segments,
    state: State,
    budget: Budget,
    // Up to so many bytes of a command are kept whatever the budget has for its stage.
    unasked: usize,
    // How many bytes of the command under way have come.
    kept: usize,
}

impl Model for Front {
    ghost use Rattle.std.specs.Coded.{codes};
    ghost use Rattle.sql_copies.specs.Stored.{coded_predicate};
    ghost use Rattle.conversation.specs.Held.{Held};
    ghost use Rattle.conversation.specs.Closing.{IsOpenAtFault};

    ghost Value = { Held };

    ghost coded = { Prim.hlevel (codes, coded_predicate) };

    ghost view = { λ f. record { settings = f.settings; rest = f.segments.rest; session = f.state.session; statements = f.state.statements } };

    ghost invariant = { λ f. IsOpenAtFault f.segments.at_fault f.state.session.is_closed };
}

impl Front {
    ghost use Rattle.std.specs.Prelude.{◌≡◌, ◌⊎◌, ◌≤◌, ◌+◌, ◌++◌, IfOk, IsTrue, length, take, vec_len, vec_capacity};
    ghost use Rattle.conversation.specs.Held.{newly_held};
    ghost use Rattle.dss_frames.specs.Fault.{IsUnfinished};
    ghost use Rattle.conversation.specs.Steps.{Steps, GoesFar, KeepsToFirst};
    ghost use Rattle.conversation.specs.Access as how_far;

    /// A conversation of which nothing has come.
    pub fn new(alloc: Global, settings: &Settings) -> Result<Front, AllocError>
        ensures { IfOk result (λ f. f ≡ newly_held settings.now) }
    {
        Ok(Front {
            alloc,
            settings: settings.copy(alloc)?,
            segments: Segments::new(alloc),
            state: fresh_state(alloc, usize::MAX),
            budget: Budget::unbounded(),
            unasked: UNTOLD,
            kept: 0,
        })
    }

    /// From now on no more of a command, and of rows for its cursors, is kept than this.
    pub fn keep_within(&mut self, budget: Budget)
        ensures { self.new ≡ self.old }
    {
        self.budget = budget;
        self.unasked = budget.least().min(UNTOLD);
        self.state.cursors.most = budget.cursor_bytes;
    }

    /// Begins anew, with the same settings: what came, what was agreed on and what was kept for its
    /// statements is forgotten, and its memory given back; that of the bytes that came, in which a password
    /// may stand, is overwritten first.
    pub fn restart(&mut self, alloc: Global)
        ensures { self.new ≡ newly_held self.old.settings }
    {
        self.alloc = alloc;
        self.segments.restart(alloc);
        self.state = fresh_state(alloc, self.budget.cursor_bytes);
        self.kept = 0;
    }

    /// Whether a fault of the framing, or of who is asked, closed the conversation.
    #[inline(always)]
    pub fn is_closed(&self) -> bool
        ensures { result ≡ self.now.session.is_closed }
    {
        self.state.session.is_closed
    }

    /// How far it has come towards the database.
    pub fn access(&self) -> Access
        ensures checked { result.is_checked ≡ how_far.is_checked self.now.session.stage }
        ensures opened { result.is_opened ≡ how_far.is_opened self.now.session.stage }
    {
        let stage = self.state.session.stage;
        Access {
            refused: self.state.refused,
            is_checked: is_checked(stage),
            is_opened: is_opened(stage),
        }
    }

    /// Takes the bytes in front of a piece that belong to the command under way, and says how many: up to
    /// its end, or to the end of the next header where that is to be judged first, and all of the piece
    /// where it ends before; none once it is closed, and none where memory is refused, or more of the command is
    /// kept already than the budget has, or whoever is asked lets no more of it be kept. So a caller that
    /// feeds by this between two calls of `next` never has a byte of a second command here.
    #[inline(always)]
    pub fn feed_command(&mut self, piece: &[u8]) -> usize
        ensures taken { self.new ≡ record self.old { rest = self.old.rest ++ take result piece.now } }
        ensures within { result ≤ length piece.now }
        ensures first { IsUnfinished self.old.rest → KeepsToFirst self.old.rest piece.now result }
        ensures far { IsUnfinished self.old.rest → (result ≡ 0) ⊎ GoesFar self.old.rest piece.now result }
        ensures closed { IsTrue self.old.session.is_closed → result ≡ 0 }
    {
        if self.is_closed() || self.kept > self.unasked && self.is_full() {
            return 0;
        }
        let taken = self.segments.feed_command(piece);
        self.kept = self.kept.wrapping_add(taken);
        taken
    }

    /// Whether a command may ask: the database is open.
    #[inline(always)]
    pub(crate) fn may_ask(&self) -> bool {
        is_opened(self.state.session.stage)
    }

    // Whether no more of a long command may be kept.
    fn is_full(&self) -> bool {
        self.kept > self.budget.at(self.state.session.stage) || self.state.told.is_refused
    }

    /// Does the next command, where all of it has come, asks `asker` what it asks for, and appends its
    /// replies to `out`, which has room for the 21 bytes that answer a fault of the framing. Such a
    /// fault closes the conversation, and so does an asker that can't go on (AGNPRMRM). Memory is taken
    /// before anything is asked.
    pub fn next<A: Ask>(&mut self, asker: &mut A, out: &mut Vec<u8>) -> Need
        requires room { vec_len out.old + 21 ≤ vec_capacity out.old }
        ensures { Steps A.asks self.old asker.old out.old.items result self.new asker.new out.new.items }
    {
        if self.is_closed() {
            return Need::Closed;
        }
        match self.segments.next() {
            Ok(None) => {
                self.state.told.go_on(asker, self.kept);
                Need::Bytes
            }
            Ok(Some(group)) => {
                self.kept = 0;
                let exchanged = do_command(
                    self.alloc,
                    &self.settings,
                    &mut self.state,
                    group,
                    asker,
                    out,
                );
                settle(self.alloc, &mut self.segments, &mut self.state, asker);
                match exchanged {
                    Exchanged::Done => behind_command(self.state.session),
                    Exchanged::Short(bytes) => Need::Short(bytes),
                }
            }
            Err(fault) => {
                self.state.session = closed(self.state.session);
                answer_fault(fault, out);
                Need::Closed
            }
        }
    }
}

ghost use Rattle.std.specs.Prelude.{◌≡◌, ◌≤◌, ◌+◌, ◌++◌, if◌then◌else◌, vec_len, vec_capacity};
ghost use Rattle.conversation.specs.Replies.{fault_bytes};
ghost use Rattle.session_commands.specs.Session.{fresh};
ghost use Rattle.conversation.specs.Steps as steps;
ghost use Rattle.command_kit.specs.Statements as statements;

// The state of a conversation of which nothing has come. Takes no memory.
fn fresh_state(alloc: Global, cursor_bytes: usize) -> State
    ensures session { result.session ≡ fresh }
    ensures statements { result.statements ≡ statements.fresh }
{
    State {
        session: fresh_session(),
        statements: Statements::new(alloc),
        replies: Replies::new(alloc),
        cursors: KeptCursors::new(alloc, cursor_bytes),
        told: Told::nothing(),
        refused: 0,
    }
}

// What a conversation needs behind a command.
#[inline(always)]
fn behind_command(session: Session) -> Need
    ensures { result ≡ (if session.is_closed then Need.Closed else Need.Local) }
{
    if session.is_closed {
        Need::Closed
    } else {
        Need::Local
    }
}

// A fault of the framing closes a conversation, and leaves all else.
fn closed(session: Session) -> Session
    ensures { result ≡ steps.closed session }
{
    Session {
        is_closed: true,
        ..session
    }
}

// SYNTAXRM with the code of the fault and the correlator of its DSS, in no chain.
fn answer_fault(fault: FrameFault, out: &mut Vec<u8>)
    requires { vec_len out.old + 21 ≤ vec_capacity out.old }
    ensures { out.new.items ≡ out.old.items ++ fault_bytes fault }
{
    let message = syntax_message(fault.code.synerrcd());
    let _ = write_dss(out, Format { byte: 0x02 }, fault.correlator, &message);
}

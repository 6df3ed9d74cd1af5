//! A core to be asked.

use crate::few::{Few, Given};
use ahead_view::ReadError;
use core_calls::Answer;
use rdb_core::{Core, PlainState};
use sql_text::{Command, SqlError, Statement, parse};
use std::alloc::Global;
use std::marker::Model;
use unit_changes::UnitChanges;
use unit_records::{DeviceFailed, GroupCall, RecordError};
use xa_calls::{InvalidRequest, Request, Xid};
use xa_manager::{BranchState, Decision};

/// A core whose tables have no pages.
#[derive(Drop)]
pub struct Bench {
    core: Core<Few>,
}

impl Model for Bench {
    ghost use Rattle.paged_tables.specs.TablesByName.{LieInside};
    ghost use Rattle.rdb_core.specs.State.{pages_of};
    ghost use Rattle.rdb_core.specs.declared.engine.Core.{Core};
    ghost use Rattle.rdb_core_tests.specs.declared.few.Few.{Few};

    ghost Value = { Core Few };

    ghost view = { λ b. b.core };

    ghost invariant = { λ b. LieInside 0 (pages_of b.core) };
}

fn parsed<'a>(alloc: Global, text: &'a str) -> Result<Statement<'a>, SqlError> {
    parse(alloc, text)
}

impl Bench {
    /// A core without tables, which makes so many records.
    pub fn new(alloc: Global, left: u32) -> Bench {
        Bench {
            core: Core::start(alloc, Few::new(left)),
        }
    }

    /// A core that makes a record, with a branch that is restored so.
    pub fn restored(alloc: Global, xid: Xid, outcome: Option<Decision>) -> Option<Bench> {
        let mut core = Core::start(alloc, Few::new(1));
        let none = UnitChanges::new(alloc);
        match core.restore(xid, outcome, none, Vec::new(alloc)) {
            Ok(()) => Some(Bench { core }),
            Err(_) => None,
        }
    }

    /// What a conversation is answered that asks this. It alone holds a statement, since a function that does so is dear to
    /// prove.
    pub fn ask(&mut self, alloc: Global, conversation: u64, text: &str) -> Option<Answer> {
        let statement = parsed(alloc, text).ok()?;
        let answer = match statement.command {
            Command::Select { .. } => self.core.query(conversation, &statement, &[]),
            _ => self.core.run(conversation, &statement, &[]),
        };
        drop(statement);
        Some(answer)
    }

    /// What a conversation is answered that commits.
    pub fn commit(&mut self, conversation: u64) -> Answer {
        self.core.commit(conversation)
    }

    /// What a conversation is answered that rolls back.
    pub fn roll_back(&mut self, conversation: u64) -> Answer {
        self.core.roll_back(conversation)
    }

    /// What a conversation is answered that makes an XA call.
    pub fn xa(&mut self, conversation: u64, request: &Result<Request, InvalidRequest>) -> Answer {
        self.core.xa(conversation, request)
    }

    /// Whether the records of these calls lie ahead, where they may be made together; and how many were laid last.
    pub fn lay_ahead(
        &mut self,
        calls: &[GroupCall],
    ) -> Option<(Result<bool, DeviceFailed>, usize)> {
        if !self.core.may_make(calls) {
            return None;
        }
        let laid = self.core.lay_ahead(calls);
        Some((laid, self.core.recorder.laid))
    }

    /// The state, where it can be told.
    pub fn plain(&mut self) -> Option<PlainState> {
        self.core.plain().ok()
    }

    /// So many records are made from now on, and no read was.
    pub fn begin_anew(&mut self, left: u32) {
        self.core.recorder.left = left;
        self.core.recorder.reads = 0;
    }

    /// The rows of an answer take so many bytes at most from now on.
    pub fn bound_rows(&mut self, bytes: usize) {
        self.core.bound_rows(bytes);
    }

    /// Each read is refused so from now on, or none is.
    pub fn refuse_reads(&mut self, fault: Option<ReadError>) {
        self.core.recorder.fault = fault;
    }

    /// This is given from now on in the place of a row.
    pub fn give(&mut self, given: Given) {
        self.core.recorder.given = given;
    }

    /// How many records are left to make, how many reads there were, and in how many the device counts as failed.
    pub fn counts(&self) -> [u32; 3] {
        let recorder = self.core.recorder();
        [recorder.left, recorder.reads, recorder.failures]
    }

    /// What a heuristic decision of a branch comes to, where it is prepared.
    pub fn decide(&mut self, xid: &Xid, decision: Decision) -> Option<Result<(), RecordError>> {
        match self.core.branch_state(xid) {
            Some(BranchState::Prepared) => Some(self.core.decide(xid, decision)),
            _ => None,
        }
    }

    /// How many changes the unit of a branch has, and whether it claims anything.
    pub fn told(&self, xid: &Xid) -> (usize, bool) {
        let claims = self.core.claims_in_doubt(xid);
        (self.core.changes_in_doubt(xid).len(), !claims.is_empty())
    }
}

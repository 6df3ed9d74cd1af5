//! The core and its calls.

ghost use Rattle.std.specs.Prelude.{◌≡◌, [], ℕ, None, Some, false};
ghost use Rattle.std.specs.Result.{result_ok};
ghost use Rattle.unit_records.specs.Records.{UnitRecord};
ghost use Rattle.unit_records.specs.Due.{record_due};
ghost use Rattle.core_calls.specs.Answer.{answer_of};
ghost use Rattle.core_calls.specs.Call.{commit, lost, roll_back, xa};
ghost use Rattle.core_model.specs.Step.{owner_of};
ghost use Rattle.core_model.specs.Units.{has_any, local, unit_of};
ghost use Rattle.paged_tables.specs.TablesByName.{PagesStay};
ghost use Rattle.unit_table.specs.Owner.{plain_owner};
ghost use Rattle.rdb_core.specs.State.{empty, pages_of, recorder_of, state_of};
ghost use Rattle.rdb_core.specs.Steps.{Steps, Takes, may_want_memory};

use crate::ending::{commit_unit, do_due, end_lost};
use crate::refusing::refused;
use core_calls::Answer;
use paged_tables::PagedTables;
use std::alloc::{AllocError, Global};
use unit_records::Recorder;
use unit_statements::Base;
use unit_table::Owner;
use xa_calls::{InvalidRequest, Request, Verb, XaCode, Xid};
use xa_manager::{Work, XaTable};

/// The committed tables, the units of work of conversations and of branches, and the XA branches.
/// Contracts see its state by `state_of`, and each call is a step of that state.
/// What is committed, prepared, decided or forgotten is recorded before it is made.
#[derive(Drop)]
pub struct Core<R: Recorder> {
    /// Where memory is asked for.
    pub alloc: Global,
    /// The committed tables and the units. Whoever holds the core may lend the tables and who records at once, as a
    /// checkpoint does.
    pub base: Base,
    pub(crate) branches: XaTable,
    // The bytes of rows that an answer may have. No clause speaks of it.
    pub(crate) row_bytes: usize,
    /// Who records. May be lent beside the committed tables.
    pub recorder: R,
}

impl<R: Recorder> Core<R> {
    /// A core without tables. Takes no memory.
    pub fn start(alloc: Global, recorder: R) -> Core<R>
        ensures state { state_of result ≡ empty }
        ensures recorder { recorder_of result ≡ recorder }
        ensures pages { pages_of result ≡ [] }
    {
        Core::restored(alloc, recorder, PagedTables::new(alloc))
    }

    /// From now on the rows of an answer take so many bytes at most, each 8 beside its own: a query whose rows take more is answered
    /// `NoMemory`, as where memory is refused. Before, there is no bound.
    pub fn bound_rows(&mut self, bytes: usize)
        ensures state { state_of self.new ≡ state_of self.old }
        ensures recorder { recorder_of self.new ≡ recorder_of self.old }
        ensures pages { pages_of self.new ≡ pages_of self.old }
    {
        self.row_bytes = bytes;
    }

    /// Who records.
    pub fn recorder(&self) -> &R
        ensures { result.now ≡ recorder_of self.now }
    {
        &self.recorder
    }

    /// Ends the core; who records is handed out.
    pub fn into_recorder(self) -> R
        ensures { result ≡ recorder_of self }
    {
        self.recorder
    }

    /// Whose unit the statements of a conversation work in: that of the branch that it is joined to, else
    /// its local one.
    pub fn owner(&self, conversation: u64) -> Owner
        ensures { plain_owner result ≡ owner_of self.now.branches conversation }
    {
        match self.branches.joined(conversation) {
            Some(xid) => Owner::Global(*xid),
            None => Owner::Local(conversation),
        }
    }

    /// The conversation's local unit is committed (DDM RDBCMM): its changes are recorded, and then made.
    /// Inside of a global unit it answers `InGlobal` and does nothing. Memory or the record may be refused
    /// only where the unit has changes; the core is then as before.
    pub fn commit(&mut self, conversation: u64) -> Answer
        requires allowed { (r : UnitRecord) → record_due (state_of self.old) conversation commit ≡ Some r → R.allows (recorder_of self.old) r }
        ensures step { Steps R.records R.fails (state_of self.old) conversation commit (answer_of result) (state_of self.new) (recorder_of self.old) (recorder_of self.new) }
        ensures sure { has_any (unit_of (local conversation) (state_of self.old).base.units).changes ≡ false → Takes R.records (state_of self.old) conversation commit (answer_of result) (state_of self.new) (recorder_of self.old) (recorder_of self.new) }
        ensures pages { PagesStay (pages_of self.old) (pages_of self.new) }
    {
        match self.branches.joined(conversation) {
            Some(_) => return Answer::InGlobal,
            None => {}
        }
        let owner = Owner::Local(conversation);
        match commit_unit(&mut self.base, &mut self.recorder, self.alloc, &owner) {
            Ok(()) => Answer::Done,
            Err(error) => refused(error),
        }
    }

    /// The conversation's local unit is rolled back (DDM RDBRLLBCK). Inside of a global unit it answers
    /// `InGlobal` and does nothing. Takes no memory.
    pub fn roll_back(&mut self, conversation: u64) -> Answer
        ensures step { Takes R.records (state_of self.old) conversation roll_back (answer_of result) (state_of self.new) (recorder_of self.old) (recorder_of self.new) }
        ensures pages { PagesStay (pages_of self.old) (pages_of self.new) }
    {
        match self.branches.joined(conversation) {
            Some(_) => return Answer::InGlobal,
            None => {}
        }
        let _changes = self.base.units.end(&Owner::Local(conversation));
        Answer::Done
    }

    /// The conversation is lost: its local unit ends, and so does each branch that it was the last to
    /// start or join, and that is not in doubt. Takes no memory.
    pub fn lost(&mut self, conversation: u64) -> Answer
        ensures step { Takes R.records (state_of self.old) conversation lost (answer_of result) (state_of self.new) (recorder_of self.old) (recorder_of self.new) }
        ensures pages { PagesStay (pages_of self.old) (pages_of self.new) }
    {
        let _changes = self.base.units.end(&Owner::Local(conversation));
        end_lost(&mut self.base.units, self.branches.branches(), conversation);
        self.branches.lost(conversation);
        Answer::Done
    }

    /// An XA call (C193 chapter 6). What is prepared, decided, committed or forgotten is recorded first. Memory
    /// may be refused only where a branch begins, where changes are committed, at `xa_recover` and where a
    /// record is made; the core is then as before.
    pub fn xa(&mut self, conversation: u64, request: &Result<Request, InvalidRequest>) -> Answer
        requires allowed { (r : UnitRecord) → record_due (state_of self.old) conversation (xa (result_ok request.now)) ≡ Some r → R.allows (recorder_of self.old) r }
        ensures step { Steps R.records R.fails (state_of self.old) conversation (xa (result_ok request.now)) (answer_of result) (state_of self.new) (recorder_of self.old) (recorder_of self.new) }
        ensures sure { may_want_memory (state_of self.old) conversation (result_ok request.now) ≡ false → record_due (state_of self.old) conversation (xa (result_ok request.now)) ≡ None → Takes R.records (state_of self.old) conversation (xa (result_ok request.now)) (answer_of result) (state_of self.new) (recorder_of self.old) (recorder_of self.new) }
        ensures pages { PagesStay (pages_of self.old) (pages_of self.new) }
    {
        match request {
            Err(InvalidRequest) => Answer::Xa(XaCode::Invalid),
            Ok(request) => self.request(conversation, request),
        }
    }
}

impl<R: Recorder> Core<R> {
    // A call that there is.
    fn request(&mut self, conversation: u64, request: &Request) -> Answer
        requires allowed { (r : UnitRecord) → record_due (state_of self.old) conversation (xa (Some request.now)) ≡ Some r → R.allows (recorder_of self.old) r }
        ensures step { Steps R.records R.fails (state_of self.old) conversation (xa (Some request.now)) (answer_of result) (state_of self.new) (recorder_of self.old) (recorder_of self.new) }
        ensures sure { may_want_memory (state_of self.old) conversation (Some request.now) ≡ false → record_due (state_of self.old) conversation (xa (Some request.now)) ≡ None → Takes R.records (state_of self.old) conversation (xa (Some request.now)) (answer_of result) (state_of self.new) (recorder_of self.old) (recorder_of self.new) }
        ensures pages { PagesStay (pages_of self.old) (pages_of self.new) }
    {
        match request {
            Request::Recover => self.recover(),
            Request::Branch(verb, xid) => self.branch_call(conversation, *verb, xid),
        }
    }

    // The XIDs in doubt.
    fn recover(&mut self) -> Answer
        ensures step { (conversation : ℕ) → Steps R.records R.fails (state_of self.old) conversation (xa (Some Request.Recover)) (answer_of result) (state_of self.new) (recorder_of self.old) (recorder_of self.new) }
        ensures pages { PagesStay (pages_of self.old) (pages_of self.new) }
    {
        match self.branches.recover(self.alloc) {
            Ok(xids) => Answer::InDoubt(xids),
            Err(AllocError) => Answer::NoMemory,
        }
    }

    // What is asked of a branch. What is due of it is recorded and done to its unit first, then to the
    // branch: only a branch that begins takes memory there, and then no unit has changed and nothing is
    // recorded.
    fn branch_call(&mut self, conversation: u64, verb: Verb, xid: &Xid) -> Answer
        requires allowed { (r : UnitRecord) → record_due (state_of self.old) conversation (xa (Some (Request.Branch verb xid.now))) ≡ Some r → R.allows (recorder_of self.old) r }
        ensures step { Steps R.records R.fails (state_of self.old) conversation (xa (Some (Request.Branch verb xid.now))) (answer_of result) (state_of self.new) (recorder_of self.old) (recorder_of self.new) }
        ensures sure { may_want_memory (state_of self.old) conversation (Some (Request.Branch verb xid.now)) ≡ false → record_due (state_of self.old) conversation (xa (Some (Request.Branch verb xid.now))) ≡ None → Takes R.records (state_of self.old) conversation (xa (Some (Request.Branch verb xid.now))) (answer_of result) (state_of self.new) (recorder_of self.old) (recorder_of self.new) }
        ensures pages { PagesStay (pages_of self.old) (pages_of self.new) }
    {
        let work = Work {
            is_local: self.base.units.has_work(&Owner::Local(conversation)),
            has_changes: self.base.units.has_changes(&Owner::Global(*xid)),
        };
        let due = self.branches.due(conversation, verb, xid, work);
        match do_due(
            &mut self.base,
            &mut self.recorder,
            self.alloc,
            xid,
            due.action,
        ) {
            Ok(()) => {}
            Err(error) => return refused(error),
        }
        match self.branches.settle(conversation, xid, due) {
            Ok(()) => Answer::Xa(due.code),
            Err(AllocError) => Answer::NoMemory,
        }
    }
}

//! The core's one step.

ghost use Rattle.std.specs.Prelude.{◌≡◌, None, Some, false, map};
ghost use Rattle.row_values.specs.Value.{value_of};
ghost use Rattle.paged_tables.specs.TablesByName.{PagesStay};
ghost use Rattle.unit_records.specs.Records.{UnitRecord};
ghost use Rattle.unit_records.specs.Due.{record_due};
ghost use Rattle.core_calls.specs.Answer.{answer_of};
ghost use Rattle.core_calls.specs.Call.{call_of, describe, query, run};
ghost use Rattle.core_model.specs.Asked.{unfit};
ghost use Rattle.unit_statements.specs.Question.{question_of};
ghost use Rattle.rdb_core.specs.Looks.{IsClashing, StepsOver, call_asking};
ghost use Rattle.rdb_core.specs.State.{pages_of, recorder_of, state_of};
ghost use Rattle.rdb_core.specs.Steps.{Steps, Takes, is_fit, may_want_any};

use crate::engine::Core;
use crate::refusing::unread;
use ahead_view::Source;
use core_calls::{Answer, CoreCall, Refusal, Side};
use row_values::Value;
use sql_text::Statement;
use std::alloc::AllocError;
use unit_records::Recorder;
use unit_statements::{Question, QuestionKind, unfit, unfit_to_describe};

impl<R: Recorder + Source> Core<R> {
    /// What a conversation asks is answered, and the core takes one step. What is committed, prepared,
    /// decided or forgotten is recorded first; where that is refused the answer says why, and the core is as before.
    /// The rows that a statement asks for are read first, once no claim of it clashes; where the device fails in
    /// that the core is as before. Out of memory it answers `NoMemory` and is as before. A rollback and the loss of a
    /// conversation take no memory, nor do a commit of a unit without changes and a statement that is refused before
    /// it claims anything; nothing is recorded of them.
    ///
    /// Of a source that is not told a statement may be given other rows of the same tables: then its answer and its
    /// unit are those of the step over these, and what is committed stays.
    pub fn step(&mut self, conversation: u64, call: &CoreCall<'_, '_, '_>) -> Answer
        requires allowed { (r : UnitRecord) → record_due (state_of self.old) conversation (call_of call.now) ≡ Some r → R.allows (recorder_of self.old) r }
        requires holds { R.holds (recorder_of self.old) (pages_of self.old) }
        ensures step { StepsOver R.is_told R.records R.fails R.reads R.fails_to_read (state_of self.old) conversation (call_of call.now) (answer_of result) (state_of self.new) (recorder_of self.old) (recorder_of self.new) }
        ensures sure { may_want_any (state_of self.old) conversation (call_of call.now) ≡ false → record_due (state_of self.old) conversation (call_of call.now) ≡ None → Takes R.records (state_of self.old) conversation (call_of call.now) (answer_of result) (state_of self.new) (recorder_of self.old) (recorder_of self.new) }
        ensures pages { PagesStay (pages_of self.old) (pages_of self.new) }
        ensures clash { IsClashing (state_of self.old) conversation (call_of call.now) → recorder_of self.new ≡ recorder_of self.old }
    {
        match call {
            CoreCall::Run {
                statement,
                parameters,
            } => self.run(conversation, statement, parameters),
            CoreCall::Query {
                statement,
                parameters,
            } => self.query(conversation, statement, parameters),
            CoreCall::Describe { statement, side } => self.describe(conversation, statement, *side),
            CoreCall::Commit => self.commit(conversation),
            CoreCall::RollBack => self.roll_back(conversation),
            CoreCall::Xa(request) => self.xa(conversation, request),
            CoreCall::Lost => self.lost(conversation),
        }
    }

    /// A statement that is no SELECT is run in the unit that the conversation works in (DDM EXCSQLIMM
    /// and EXCSQLSTT), over that unit's view, with these values for its markers. A SELECT is refused,
    /// and so is another number of values. Where a claim of it clashes with one of another unit, it is
    /// refused, no row is read and nothing is kept; else its claims and its changes are kept together.
    pub fn run(
        &mut self,
        conversation: u64,
        statement: &Statement<'_>,
        parameters: &[Value<'_>],
    ) -> Answer
        requires holds { R.holds (recorder_of self.old) (pages_of self.old) }
        ensures step { StepsOver R.is_told R.records R.fails R.reads R.fails_to_read (state_of self.old) conversation (run statement.now (map value_of parameters.now)) (answer_of result) (state_of self.new) (recorder_of self.old) (recorder_of self.new) }
        ensures sure { may_want_any (state_of self.old) conversation (run statement.now (map value_of parameters.now)) ≡ false → Takes R.records (state_of self.old) conversation (run statement.now (map value_of parameters.now)) (answer_of result) (state_of self.new) (recorder_of self.old) (recorder_of self.new) }
        ensures pages { PagesStay (pages_of self.old) (pages_of self.new) }
        ensures clash { IsClashing (state_of self.old) conversation (run statement.now (map value_of parameters.now)) → recorder_of self.new ≡ recorder_of self.old }
    {
        self.ask(
            conversation,
            Question {
                kind: QuestionKind::Run,
                statement,
                parameters,
            },
        )
    }

    /// A SELECT is evaluated over the view of the unit that the conversation works in (DDM OPNQRY), with
    /// these values for its markers. No other statement is, nor one with another number of values. The
    /// unit keeps its claims and changes nothing. Where a claim of it clashes, no row is read.
    pub fn query(
        &mut self,
        conversation: u64,
        statement: &Statement<'_>,
        parameters: &[Value<'_>],
    ) -> Answer
        requires holds { R.holds (recorder_of self.old) (pages_of self.old) }
        ensures step { StepsOver R.is_told R.records R.fails R.reads R.fails_to_read (state_of self.old) conversation (query statement.now (map value_of parameters.now)) (answer_of result) (state_of self.new) (recorder_of self.old) (recorder_of self.new) }
        ensures sure { may_want_any (state_of self.old) conversation (query statement.now (map value_of parameters.now)) ≡ false → Takes R.records (state_of self.old) conversation (query statement.now (map value_of parameters.now)) (answer_of result) (state_of self.new) (recorder_of self.old) (recorder_of self.new) }
        ensures pages { PagesStay (pages_of self.old) (pages_of self.new) }
        ensures clash { IsClashing (state_of self.old) conversation (query statement.now (map value_of parameters.now)) → recorder_of self.new ≡ recorder_of self.old }
    {
        self.ask(
            conversation,
            Question {
                kind: QuestionKind::Query,
                statement,
                parameters,
            },
        )
    }

    // A statement of the unit that a conversation works in.
    fn ask(&mut self, conversation: u64, question: Question<'_, '_, '_>) -> Answer
        requires holds { R.holds (recorder_of self.old) (pages_of self.old) }
        ensures step { StepsOver R.is_told R.records R.fails R.reads R.fails_to_read (state_of self.old) conversation (call_asking (question_of question.entry)) (answer_of result) (state_of self.new) (recorder_of self.old) (recorder_of self.new) }
        ensures sure { is_fit (unfit (question_of question.entry)) ≡ false → Takes R.records (state_of self.old) conversation (call_asking (question_of question.entry)) (answer_of result) (state_of self.new) (recorder_of self.old) (recorder_of self.new) }
        ensures pages { PagesStay (pages_of self.old) (pages_of self.new) }
        ensures clash { IsClashing (state_of self.old) conversation (call_asking (question_of question.entry)) → recorder_of self.new ≡ recorder_of self.old }
    {
        match unfit(question) {
            Some(fault) => return Answer::Refused(Refusal::Unfit(fault)),
            None => {}
        }
        let owner = self.owner(conversation);
        match self.base.ask(
            &mut self.recorder,
            self.alloc,
            self.row_bytes,
            &owner,
            question,
        ) {
            Ok(answer) => answer,
            Err(error) => unread(error),
        }
    }
}

impl<R: Recorder> Core<R> {
    /// One side of a statement is described over the view of the unit that the conversation works in
    /// (DDM DSCSQLSTT). A CREATE TABLE is not. Where its table is there nothing is claimed. No row is read.
    pub fn describe(&mut self, conversation: u64, statement: &Statement<'_>, side: Side) -> Answer
        ensures step { Steps R.records R.fails (state_of self.old) conversation (describe statement.now side) (answer_of result) (state_of self.new) (recorder_of self.old) (recorder_of self.new) }
        ensures sure { may_want_any (state_of self.old) conversation (describe statement.now side) ≡ false → Takes R.records (state_of self.old) conversation (describe statement.now side) (answer_of result) (state_of self.new) (recorder_of self.old) (recorder_of self.new) }
        ensures pages { PagesStay (pages_of self.old) (pages_of self.new) }
    {
        match unfit_to_describe(statement, side) {
            Some(fault) => return Answer::Refused(Refusal::Unfit(fault)),
            None => {}
        }
        let owner = self.owner(conversation);
        match self.base.describe(self.alloc, &owner, statement, side) {
            Ok(answer) => answer,
            Err(AllocError) => Answer::NoMemory,
        }
    }
}

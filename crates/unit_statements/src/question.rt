//! What a unit is asked.

ghost use Rattle.std.specs.Prelude.{◌≡◌, map};
ghost use Rattle.row_values.specs.Value.{value_of};
ghost use Rattle.core_model.specs.Asked.{describing, is_select, number_fault, unfit};
ghost use Rattle.unit_statements.specs.Question.{question_of};

use core_calls::{Side, SqlFault};
use row_values::Value;
use sql_text::{Command, Statement};

/// What is asked for.
#[derive(Clone, Copy)]
pub enum QuestionKind {
    /// A statement that is no SELECT is run.
    Run,
    /// A SELECT is evaluated.
    Query,
}

/// A statement that is asked of a unit, with these values for its markers. Contracts see it by `question_of`.
#[derive(Clone, Copy)]
pub struct Question<'a, 's, 'v> {
    pub kind: QuestionKind,
    pub statement: &'a Statement<'s>,
    pub parameters: &'a [Value<'v>],
}

/// Why a question is refused before it claims anything: what is run is a SELECT, or what is a query is none; or it has another
/// number of values than markers.
pub fn unfit(question: Question<'_, '_, '_>) -> Option<SqlFault>
    ensures { result ≡ unfit (question_of question.entry) }
{
    match (question.kind, is_query(&question.statement.command)) {
        (QuestionKind::Run, false) | (QuestionKind::Query, true) => {
            wrong_number(question.statement, question.parameters)
        }
        (QuestionKind::Run, true) | (QuestionKind::Query, false) => Some(SqlFault::NotPrepared),
    }
}

/// Why a statement can't be described: it is a CREATE TABLE.
pub fn unfit_to_describe(statement: &Statement<'_>, side: Side) -> Option<SqlFault>
    ensures { result ≡ unfit (describing statement.now side) }
{
    match statement.command {
        Command::Create { .. } => Some(SqlFault::NotPrepared),
        Command::Insert { .. }
        | Command::Update { .. }
        | Command::Delete { .. }
        | Command::Select { .. } => None,
    }
}

// Whether it is a SELECT.
fn is_query(command: &Command<'_>) -> bool
    ensures { result ≡ is_select command.now }
{
    match command {
        Command::Select { .. } => true,
        Command::Create { .. }
        | Command::Insert { .. }
        | Command::Update { .. }
        | Command::Delete { .. } => false,
    }
}

// As many values are wanted as there are markers.
fn wrong_number(statement: &Statement<'_>, parameters: &[Value<'_>]) -> Option<SqlFault>
    ensures { result ≡ number_fault statement.now (map value_of parameters.now) }
{
    if statement.markers == parameters.len() {
        None
    } else {
        Some(SqlFault::ParameterMismatch)
    }
}

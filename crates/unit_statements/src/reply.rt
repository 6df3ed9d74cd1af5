//! What a question is answered over a view of tables, and what it claims and changes there.

ghost use Rattle.std.specs.Prelude.{◌≡◌, [], IfOk, IsTrue, List, false, map, true};
ghost use Rattle.std.specs.Option.{option_copied};
ghost use Rattle.row_values.specs.Value.{Value as SqlValue};
ghost use Rattle.sql_text.specs.declared.tree.Command.{Command as SqlCommand};
ghost use Rattle.tables.specs.ChangeView.{change_of};
ghost use Rattle.tables.specs.Tables.{schema_of};
ghost use Rattle.tables.specs.View.{is_store};
ghost use Rattle.sql_semantics.specs.Frame as frame;
ghost use Rattle.sql_semantics.specs.Describe.{described};
ghost use Rattle.sql_semantics.specs.Scope.{table_name};
ghost use Rattle.small_sql.specs.Answer as sql;
ghost use Rattle.small_sql.specs.Bound.{IsBound, IsOver};
ghost use Rattle.small_sql.specs.Described.{described_as};
ghost use Rattle.core_calls.specs.Answer.{answer_of};
ghost use Rattle.core_model.specs.Asked.{described_claims, is_create, meant, told};

use core_calls::{Answer, Refusal, Side, SqlFault};
use row_values::Schema;
use small_sql::{Answer as SqlAnswer, Bound};
use sql_descriptions::Description;
use sql_text::{Command, Statement};
use std::alloc::{AllocError, Global};
use tables::{Change, TableView};
use unit_locks::Claim;

/// What a description of a statement claims that creates no table, where its table is there or not:
/// nothing, or what running it would.
pub(crate) fn description_claims(
    alloc: Global,
    command: &Command<'_>,
    schema: Option<&Schema>,
) -> Result<Vec<Claim>, AllocError>
    requires { is_create command.now ≡ false }
    ensures { IfOk result (λ claims. claims.items ≡ described_claims (table_name command.now) (option_copied schema.entry)) }
{
    match schema {
        Some(_) => Ok(Vec::new(alloc)),
        None => small_sql::absent_claims(alloc, command),
    }
}

/// What a question is answered, and the changes that it makes.
#[derive(Drop)]
pub(crate) struct Reply {
    pub(crate) answer: Answer,
    pub(crate) changes: Vec<Change>,
}

/// What a bound statement is answered over a view, and which changes it makes, where so many bytes of
/// changes are left.
pub(crate) fn statement_reply<V: TableView>(
    alloc: Global,
    bound: &Bound<'_, '_>,
    left: usize,
    view: &mut V,
) -> Result<Reply, AllocError>
where
    V::Fault: Drop,
    requires over { IsTrue V.is_faithful → IsOver bound.now (V.store view.old) }
    requires good { IsTrue V.is_faithful → is_store (V.store view.old) ≡ true }
    ensures answer { IfOk result (λ r. IsTrue V.is_faithful → (params : List SqlValue) (c : SqlCommand) → IsBound params c bound.now → answer_of r.answer ≡ meant (frame.covered_answer params left c (V.store view.old))) }
    ensures changes { IfOk result (λ r. IsTrue V.is_faithful → (params : List SqlValue) (c : SqlCommand) → IsBound params c bound.now → map change_of r.changes.items ≡ frame.changes_of (frame.covered_answer params left c (V.store view.old))) }
{
    sql_semantics::laws::statements_are_framed();
    match small_sql::run(alloc, bound, left, view) {
        Ok(answer) => told_as(alloc, answer),
        Err(_) => Err(AllocError),
    }
}

/// What is answered, where its rows take no more bytes than these.
pub(crate) fn within(reply: Reply, row_bytes: usize) -> Result<Reply, AllocError>
    ensures { IfOk result (λ r. r ≡ reply) }
{
    if taken_by(&reply.answer) > row_bytes {
        return Err(AllocError);
    }
    Ok(reply)
}

// The bytes that the rows of an answer take: their own, and 8 for where each ends.
fn taken_by(answer: &Answer) -> usize {
    let Answer::Rows(rows) = answer else {
        return 0;
    };
    rows.memory()
}

// What a statement's answer is told as. A count that no `u32` holds is told as want of memory: the
// changes of a unit are too few for it.
fn told_as(alloc: Global, answer: SqlAnswer) -> Result<Reply, AllocError>
    ensures answer { IfOk result (λ r. answer_of r.answer ≡ meant (sql.answer_of answer)) }
    ensures changes { IfOk result (λ r. map change_of r.changes.items ≡ frame.changes_of (sql.answer_of answer)) }
{
    match answer {
        SqlAnswer::Refused(fault) => Ok(Reply {
            answer: Answer::Refused(Refusal::Meaning(fault)),
            changes: Vec::new(alloc),
        }),
        SqlAnswer::Changes(changes, count) => match u32::try_from(count) {
            Ok(count) => Ok(Reply {
                answer: Answer::Count(count),
                changes,
            }),
            Err(_) => Err(AllocError),
        },
        SqlAnswer::Rows(rows) => Ok(Reply {
            answer: Answer::Rows(rows),
            changes: Vec::new(alloc),
        }),
    }
}

/// What a description is answered: it changes nothing.
pub(crate) fn description_reply<V: TableView>(
    alloc: Global,
    statement: &Statement<'_>,
    side: Side,
    view: &mut V,
) -> Result<Reply, AllocError>
where
    V::Fault: Drop,
    ensures answer { IfOk result (λ r. IsTrue V.is_faithful → answer_of r.answer ≡ told (described side statement.now.command (schema_of (V.store view.old) (table_name statement.now.command)))) }
    ensures changes { IfOk result (λ r. map change_of r.changes.items ≡ []) }
{
    match small_sql::describe(alloc, side, &statement.command, view) {
        Ok(described) => Ok(Reply {
            answer: described_answer(described),
            changes: Vec::new(alloc),
        }),
        Err(_) => Err(AllocError),
    }
}

// What is told of a description.
fn described_answer(described: Result<Description, SqlFault>) -> Answer
    ensures { answer_of result ≡ told (described_as described) }
{
    match described {
        Ok(Description::Output(columns)) => Answer::Output(columns),
        Ok(Description::Input(types)) => Answer::Input(types),
        Err(fault) => Answer::Refused(Refusal::Meaning(fault)),
    }
}

//! Runs bound statements of every kind.

ghost use Rattle.std.specs.Prelude.{◌≡◌, IfErr, IfOk, IsTrue, List, None, Some, false, true};
ghost use Rattle.std.specs.Arc.{arc_value};
ghost use Rattle.row_values.specs.Value.{Value};
ghost use Rattle.sql_text.specs.declared.tree.Command.{Command as SqlCommand};
ghost use Rattle.tables.specs.Tables.{schema_of};
ghost use Rattle.tables.specs.View.{is_store};
ghost use Rattle.sql_semantics.specs.Meaning.{meaning};
ghost use Rattle.sql_semantics.specs.Scope as meant;
ghost use Rattle.small_sql.specs.Answer.{answer_of};
ghost use Rattle.small_sql.specs.Bound.{IsBound, IsOver};
ghost use Rattle.small_sql.specs.Scope.{scope_of};
ghost use Rattle.small_sql.specs.Task.{DoesFound, selects};

use crate::answer::Answer;
use crate::bound::Bound;
use crate::creation::create;
use crate::insertion::insert;
use crate::modification::update;
use crate::query::select;
use crate::removal::delete;
use crate::scope::Scope;
use crate::task::Task;
use core_calls::SqlFault;
use row_values::Schema;
use sql_text::Command;
use std::alloc::Global;
use std::sync::Arc;
use tables::TableView;

// What a statement is answered whose table is not there.
#[tactic(auto, unfolding(sql_semantics::specs::Meaning::answer))]
fn run_absent<V: TableView>(
    alloc: Global,
    table: &str,
    command: &Command<'_>,
    left: usize,
    view: &mut V,
) -> Result<Answer, V::Fault>
    ensures answer { IfOk result (λ answer. IsTrue V.is_faithful → schema_of (V.store view.old) table.now ≡ None → table.now ≡ meant.table_name command.now → (params : List Value) → meaning params left command.now (V.store view.old) ≡ answer_of answer) }
    ensures fault { IfErr result (λ fault. IsTrue V.is_faithful → V.tells_damage fault ≡ false) }
    ensures store { V.store view.new ≡ V.store view.old }
{
    match command {
        Command::Create { columns, key, .. } => {
            create(alloc, table, columns.as_slice(), key.as_slice(), left, view)
        }
        Command::Insert { .. }
        | Command::Update { .. }
        | Command::Delete { .. }
        | Command::Select { .. } => Ok(Answer::Refused(SqlFault::TableUnknown)),
    }
}

// What a statement is answered whose table is there.
fn run_found<V: TableView>(
    alloc: Global,
    table: &str,
    schema: &Arc<Schema, Global>,
    scope: &Scope,
    task: &Task,
    left: usize,
    view: &mut V,
) -> Result<Answer, V::Fault>
    requires selects { selects (Some (arc_value schema.now)) task.now ≡ true }
    requires schema { IsTrue V.is_faithful → schema_of (V.store view.old) table.now ≡ Some (arc_value schema.now) }
    requires good { IsTrue V.is_faithful → is_store (V.store view.old) ≡ true }
    ensures answer { IfOk result (λ answer. IsTrue V.is_faithful → (params : List Value) (c : SqlCommand) → table.now ≡ meant.table_name c → scope_of scope.now ≡ meant.scope params c (Some (arc_value schema.now)) → DoesFound params c (arc_value schema.now) (scope_of scope.now) task.now → meaning params left c (V.store view.old) ≡ answer_of answer) }
    ensures fault { IfErr result (λ fault. IsTrue V.is_faithful → V.tells_damage fault ≡ false) }
    ensures store { V.store view.new ≡ V.store view.old }
{
    sql_semantics::laws::statements_are_framed();
    match task {
        Task::Refused(fault) => Ok(Answer::Refused(*fault)),
        Task::Insert(row) => insert(alloc, table, schema, scope, row, left, view),
        Task::Update(targets, filter) => {
            update(alloc, table, schema, scope, targets, filter, left, view)
        }
        Task::Delete(filter) => delete(alloc, table, schema, scope, filter, left, view),
        Task::Select(places, filter) => {
            select(alloc, table, schema, scope, places.as_slice(), filter, view)
        }
    }
}

/// What a bound statement is answered, where so many bytes of changes are left: exactly what the
/// statement means (`sql_semantics`) over the store of the view, whose table has the schema that it is
/// bound to. It is refused for the first fault in the order of the checks, and then changes nothing; the
/// changes that it makes are given and not made: the view itself does not change. A fault of the view is
/// passed on.
pub fn run<V: TableView>(
    alloc: Global,
    bound: &Bound<'_, '_>,
    left: usize,
    view: &mut V,
) -> Result<Answer, V::Fault>
    requires over { IsTrue V.is_faithful → IsOver bound.now (V.store view.old) }
    requires good { IsTrue V.is_faithful → is_store (V.store view.old) ≡ true }
    ensures answer { IfOk result (λ answer. IsTrue V.is_faithful → (params : List Value) (c : SqlCommand) → IsBound params c bound.now → meaning params left c (V.store view.old) ≡ answer_of answer) }
    ensures fault { IfErr result (λ fault. IsTrue V.is_faithful → V.tells_damage fault ≡ false) }
    ensures store { V.store view.new ≡ V.store view.old }
{
    let table = bound.table.as_str();
    match &bound.schema {
        None => run_absent(alloc, table, bound.command, left, view),
        Some(schema) => run_found(alloc, table, schema, &bound.scope, &bound.task, left, view),
    }
}

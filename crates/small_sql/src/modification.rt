//! Answers updates.

ghost use Rattle.std.specs.Prelude.{◌≡◌, ℕ, IfErr, IfOk, IsTrue, List, Some, false, true};
ghost use Rattle.std.specs.Arc.{arc_value};
ghost use Rattle.row_values.specs.Schema.{is_name};
ghost use Rattle.row_values.specs.Value.{Value as SqlValue};
ghost use Rattle.sql_text.specs.declared.tree.Sum.{Sum as SqlSum};
ghost use Rattle.tables.specs.Tables.{schema_of};
ghost use Rattle.tables.specs.View.{is_store};
ghost use Rattle.sql_semantics.specs.Frame.{rows_covered};
ghost use Rattle.sql_changes.specs.Assigned.{StandFor};
ghost use Rattle.small_sql.specs.Answer.{answer_of};
ghost use Rattle.small_sql.specs.Scope.{scope_of};
ghost use Rattle.small_sql.specs.Task.{matching, updated};

use crate::answer::Answer;
use crate::read::{no_memory, rows_matched};
use crate::scope::Scope;
use core_calls::{SqlFault, StatementError};
use row_values::{Schema, is_name};
use sql_changes::{Targets, updates};
use sql_predicates::Filter;
use std::alloc::{AllocError, Global};
use std::sync::Arc;
use tables::{RowList, TableView};

// What the update of these rows is answered.
fn updated(
    alloc: Global,
    table: &str,
    rows: &RowList,
    targets: &Targets,
    left: usize,
) -> Result<Answer, AllocError>
    requires { is_name table.now ≡ true }
    ensures { IfOk result (λ answer. (params : List SqlValue) (ts : List (ℕ × SqlSum)) → StandFor params rows.now.schema.columns targets.now ts → answer_of answer ≡ updated table.now rows.now.schema left params ts rows.now.rows) }
{
    match updates(alloc, table, rows, targets, left) {
        Ok(changes) => Ok(Answer::Changes(changes, rows.len())),
        Err(StatementError::Fault(fault)) => Ok(Answer::Refused(fault)),
        Err(StatementError::NoMemory) => Err(AllocError),
    }
}

/// What an UPDATE is answered, where so many bytes of changes are left: the changes that put the rows in
/// its scope that its WHERE matches, with what is assigned, in the order of their keys. A sum reads its
/// row as it was before the statement. It is refused, row by row, where a partial sum leaves BIGINT,
/// where a value does not fit its column, and where a row has more than 4,000 bytes; and where its
/// changes have more bytes than are left.
pub(crate) fn update<V: TableView>(
    alloc: Global,
    table: &str,
    schema: &Arc<Schema, Global>,
    scope: &Scope,
    targets: &Targets,
    filter: &Filter,
    left: usize,
    view: &mut V,
) -> Result<Answer, V::Fault>
    requires schema { IsTrue V.is_faithful → schema_of (V.store view.old) table.now ≡ Some (arc_value schema.now) }
    requires good { IsTrue V.is_faithful → is_store (V.store view.old) ≡ true }
    ensures answer { IfOk result (λ answer. IsTrue V.is_faithful → (params : List SqlValue) (ts : List (ℕ × SqlSum)) → StandFor params (arc_value schema.now).columns targets.now ts → answer_of answer ≡ updated table.now (arc_value schema.now) left params ts (matching filter.now (arc_value schema.now) (rows_covered (scope_of scope.now) table.now (V.store view.old)))) }
    ensures fault { IfErr result (λ fault. IsTrue V.is_faithful → V.tells_damage fault ≡ false) }
    ensures store { V.store view.new ≡ V.store view.old }
{
    if !is_name(table.as_bytes()) {
        return Ok(Answer::Refused(SqlFault::TableUnknown));
    }
    let rows = rows_matched(alloc, view, table, schema, scope, filter)?;
    match updated(alloc, table, &rows, targets, left) {
        Ok(answer) => Ok(answer),
        Err(AllocError) => Err(no_memory::<V>()),
    }
}

//! Answers deletes.

ghost use Rattle.std.specs.Prelude.{◌≡◌, IfErr, IfOk, IsTrue, Some, false, true};
ghost use Rattle.std.specs.Arc.{arc_value};
ghost use Rattle.row_values.specs.Schema.{is_name};
ghost use Rattle.tables.specs.Tables.{schema_of};
ghost use Rattle.tables.specs.View.{is_store};
ghost use Rattle.sql_semantics.specs.Frame.{rows_covered};
ghost use Rattle.small_sql.specs.Answer.{answer_of};
ghost use Rattle.small_sql.specs.Scope.{scope_of};
ghost use Rattle.small_sql.specs.Task.{matching, removed};

use crate::answer::Answer;
use crate::read::{no_memory, rows_matched};
use crate::scope::Scope;
use core_calls::{SqlFault, StatementError};
use row_values::{Schema, is_name};
use sql_predicates::Filter;
use std::alloc::{AllocError, Global};
use std::sync::Arc;
use tables::{RowList, TableView};

// What the removal of these rows is answered.
fn removed(alloc: Global, table: &str, rows: &RowList, left: usize) -> Result<Answer, AllocError>
    requires { is_name table.now ≡ true }
    ensures { IfOk result (λ answer. answer_of answer ≡ removed table.now rows.now.schema left rows.now.rows) }
{
    match sql_changes::delete(alloc, table, rows, left) {
        Ok(changes) => Ok(Answer::Changes(changes, rows.len())),
        Err(StatementError::Fault(fault)) => Ok(Answer::Refused(fault)),
        Err(StatementError::NoMemory) => Err(AllocError),
    }
}

/// What a DELETE is answered, where so many bytes of changes are left: the changes that remove the rows
/// in its scope that its WHERE matches, in the order of their keys. It is refused where its changes have
/// more bytes than are left.
pub(crate) fn delete<V: TableView>(
    alloc: Global,
    table: &str,
    schema: &Arc<Schema, Global>,
    scope: &Scope,
    filter: &Filter,
    left: usize,
    view: &mut V,
) -> Result<Answer, V::Fault>
    requires schema { IsTrue V.is_faithful → schema_of (V.store view.old) table.now ≡ Some (arc_value schema.now) }
    requires good { IsTrue V.is_faithful → is_store (V.store view.old) ≡ true }
    ensures answer { IfOk result (λ answer. IsTrue V.is_faithful → answer_of answer ≡ removed table.now (arc_value schema.now) left (matching filter.now (arc_value schema.now) (rows_covered (scope_of scope.now) table.now (V.store view.old)))) }
    ensures fault { IfErr result (λ fault. IsTrue V.is_faithful → V.tells_damage fault ≡ false) }
    ensures store { V.store view.new ≡ V.store view.old }
{
    if !is_name(table.as_bytes()) {
        return Ok(Answer::Refused(SqlFault::TableUnknown));
    }
    let rows = rows_matched(alloc, view, table, schema, scope, filter)?;
    match removed(alloc, table, &rows, left) {
        Ok(answer) => Ok(answer),
        Err(AllocError) => Err(no_memory::<V>()),
    }
}

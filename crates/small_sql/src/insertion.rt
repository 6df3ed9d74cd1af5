//! Answers inserts.

ghost use Rattle.std.specs.Prelude.{◌≡◌, ◌==◌, IfErr, IfOk, IsTrue, List, ℕ, Some, false, length, true};
ghost use Rattle.std.specs.Arc.{arc_value};
ghost use Rattle.row_values.specs.Schema.{is_name};
ghost use Rattle.tables.specs.Tables.{schema_of};
ghost use Rattle.tables.specs.View.{is_store};
ghost use Rattle.sql_semantics.specs.Frame.{rows_covered};
ghost use Rattle.sql_semantics.specs.Meaning.{answered, put_answer};
ghost use Rattle.sql_changes.specs.Given.{values_given};
ghost use Rattle.small_sql.specs.Answer.{answer_of};
ghost use Rattle.small_sql.specs.Keyed.{rows_of_key};
ghost use Rattle.small_sql.specs.Scope.{key_in, scope_of};
ghost use Rattle.small_sql.specs.Task.{inserted};

use crate::answer::{Answer, one_change};
use crate::read::no_memory;
use crate::scope::Scope;
use core_calls::{SqlFault, StatementError};
use row_values::{Schema, is_name};
use sql_changes::GivenRow;
use std::alloc::{AllocError, Global};
use std::sync::Arc;
use tables::TableView;

// Whether the table has no row of the key. Where none is given, nothing is read.
fn is_free<V: TableView>(
    alloc: Global,
    view: &mut V,
    table: &str,
    scope: &Scope,
) -> Result<bool, V::Fault>
    ensures free { IfOk result (λ free. IsTrue V.is_faithful → free ≡ (length (rows_of_key (key_in (scope_of scope.now)) table.now (V.store view.old)) == 0)) }
    ensures fault { IfErr result (λ fault. IsTrue V.is_faithful → V.tells_damage fault ≡ false) }
    ensures store { V.store view.new ≡ V.store view.old }
{
    match scope {
        Scope::Names | Scope::All => Ok(true),
        Scope::One(key) => {
            let row = view.get(alloc, table, key.bytes.as_slice())?;
            Ok(row.is_none())
        }
    }
}

// What the row that is given is answered, where its table has no row of its key, or has one.
fn inserted(
    alloc: Global,
    table: &str,
    schema: &Schema,
    row: &GivenRow,
    is_free: bool,
    left: usize,
) -> Result<Answer, AllocError>
    requires { is_name table.now ≡ true }
    ensures { IfOk result (λ answer. (others : List (List ℕ)) → (length others == 0) ≡ is_free → answer_of answer ≡ answered (put_answer left table.now schema.now others (values_given row.now))) }
{
    match row.put(alloc, table, schema, is_free, left) {
        Ok(change) => one_change(alloc, change, 1),
        Err(StatementError::Fault(fault)) => Ok(Answer::Refused(fault)),
        Err(StatementError::NoMemory) => Err(AllocError),
    }
}

/// What an INSERT is answered, where so many bytes of changes are left: the one change that puts the
/// row that it gives. Where its values give a key, the row of that key is read, and nothing else. It is
/// refused for the first value, in the order of the columns, that does not fit, and for a row over 4,000
/// bytes; then where a row has its key; and then where the change has more bytes than are left.
pub(crate) fn insert<V: TableView>(
    alloc: Global,
    table: &str,
    schema: &Arc<Schema, Global>,
    scope: &Scope,
    row: &GivenRow,
    left: usize,
    view: &mut V,
) -> Result<Answer, V::Fault>
    requires schema { IsTrue V.is_faithful → schema_of (V.store view.old) table.now ≡ Some (arc_value schema.now) }
    requires good { IsTrue V.is_faithful → is_store (V.store view.old) ≡ true }
    ensures answer { IfOk result (λ answer. IsTrue V.is_faithful → answer_of answer ≡ inserted table.now (arc_value schema.now) left (key_in (scope_of scope.now)) (values_given row.now) (rows_covered (scope_of scope.now) table.now (V.store view.old))) }
    ensures fault { IfErr result (λ fault. IsTrue V.is_faithful → V.tells_damage fault ≡ false) }
    ensures store { V.store view.new ≡ V.store view.old }
{
    sql_semantics::laws::statements_are_framed();
    if !is_name(table.as_bytes()) {
        return Ok(Answer::Refused(SqlFault::TableUnknown));
    }
    let is_free = is_free(alloc, view, table, scope)?;
    match inserted(alloc, table, schema, row, is_free, left) {
        Ok(answer) => Ok(answer),
        Err(AllocError) => Err(no_memory::<V>()),
    }
}

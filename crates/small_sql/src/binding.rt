//! Binds statements to the tables of a view.

ghost use Rattle.std.specs.Prelude.{◌≡◌, ◌<◌, ◌^◌, IfErr, IfOk, IsTrue, false, length, map, option_map, true};
ghost use Rattle.std.specs.Arc.{arc_value};
ghost use Rattle.std.specs.Option.{option_copied};
ghost use Rattle.std.specs.String.{string_bytes};
ghost use Rattle.row_values.specs.Value.{value_of};
ghost use Rattle.tables.specs.View.{is_store};
ghost use Rattle.sql_semantics.specs.Scope as meant;
ghost use Rattle.small_sql.specs.Bound.{IsBound, IsOver, bound_schema};
ghost use Rattle.small_sql.specs.Scope.{scope_of};
ghost use Rattle.small_sql.specs.Task.{Does, selects};

use crate::bound::Bound;
use crate::plan::of_found;
use crate::read::no_memory;
use crate::scope::Scope;
use crate::subject::subject;
use crate::task::{Plan, Task};
use core_calls::SqlFault;
use row_values::{Schema, Value};
use sql_text::Command;
use std::alloc::{AllocError, Global};
use std::sync::Arc;
use tables::TableView;
use unit_locks::Access;

// What a statement does with the rows that it claims, where its table is there or not: SELECT reads
// them, and so does what does not find its table; else they are written.
fn access(command: &Command<'_>, schema: Option<&Schema>) -> Access
    ensures { result ≡ meant.statement_access command.now (option_copied schema.entry) }
{
    match (schema, command) {
        (None, _) => Access::Read,
        (Some(_), Command::Select { .. }) => Access::Read,
        (Some(_), _) => Access::Write,
    }
}

// What a statement is to do whose table is not there: a creation is done, and anything else refused,
// without more.
fn of_absent(command: &Command<'_>) -> Plan
    ensures { scope_of result.scope ≡ meant.absent_scope command.now }
{
    match command {
        Command::Create { .. } => Plan {
            scope: Scope::Names,
            task: Task::Refused(SqlFault::TableUnknown),
        },
        Command::Insert { .. }
        | Command::Update { .. }
        | Command::Delete { .. }
        | Command::Select { .. } => Plan {
            scope: Scope::All,
            task: Task::Refused(SqlFault::TableUnknown),
        },
    }
}

// What a statement is to do, by the schema of its table, where there is one.
#[tactic(auto, unfolding(sql_semantics::specs::Scope::scope))]
fn plan(
    alloc: Global,
    command: &Command<'_>,
    params: &[Value<'_>],
    schema: Option<&Schema>,
) -> Result<Plan, AllocError>
    ensures scope { IfOk result (λ p. scope_of p.scope ≡ meant.scope (map value_of params.now) command.now (option_copied schema.entry)) }
    ensures does { IfOk result (λ p. Does (map value_of params.now) command.now (option_copied schema.entry) (scope_of p.scope) p.task) }
    ensures selects { IfOk result (λ p. selects (option_copied schema.entry) p.task ≡ true) }
{
    match schema {
        None => Ok(of_absent(command)),
        Some(schema) => of_found(alloc, schema, command, params),
    }
}

// The statement, bound to this schema of the table of this name.
fn bound_to<'a, 't>(
    alloc: Global,
    command: &'a Command<'t>,
    params: &[Value<'_>],
    table: String,
    schema: Option<Arc<Schema, Global>>,
) -> Result<Bound<'a, 't>, AllocError>
    requires name { string_bytes table ≡ meant.table_name command.now }
    requires short { length (string_bytes table) < 2 ^ 8 }
    ensures bound { IfOk result (λ b. IsBound (map value_of params.now) command.now b) }
    ensures over { IfOk result (λ b. (string_bytes b.table ≡ string_bytes table) × (bound_schema b ≡ option_map arc_value schema)) }
{
    let Plan { scope, task } = plan(alloc, command, params, schema.as_deref())?;
    Ok(Bound {
        command,
        table,
        access: access(command, schema.as_deref()),
        schema,
        scope,
        task,
    })
}

/// The statement, with these values for its markers, bound to the schema that its table has in a view,
/// or to there being no such table. Its names and literals are resolved here, once; what of it is at
/// fault whatever rows there are is found here, and told when it is run. The view does not change, and
/// no row is read.
pub fn bind<'a, 't, V: TableView>(
    alloc: Global,
    command: &'a Command<'t>,
    params: &[Value<'_>],
    view: &mut V,
) -> Result<Bound<'a, 't>, V::Fault>
    ensures bound { IfOk result (λ b. IsBound (map value_of params.now) command.now b) }
    ensures over { IfOk result (λ b. IsTrue V.is_faithful → IsOver b (V.store view.old)) }
    ensures good { IfOk result (λ _. IsTrue V.is_faithful → is_store (V.store view.old) ≡ true) }
    ensures fault { IfErr result (λ fault. IsTrue V.is_faithful → V.tells_damage fault ≡ false) }
    ensures store { V.store view.new ≡ V.store view.old }
{
    let Ok(table) = subject(alloc, command) else {
        return Err(no_memory::<V>());
    };
    let schema = view.schema(alloc, table.as_str())?;
    match bound_to(alloc, command, params, table, schema) {
        Ok(bound) => Ok(bound),
        Err(AllocError) => Err(no_memory::<V>()),
    }
}

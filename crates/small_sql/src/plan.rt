//! What statements are to do to tables that are there.

ghost use Rattle.std.specs.Prelude.{◌≡◌, ℕ, IfOk, List, Some, map, true};
ghost use Rattle.std.specs.Option.{option_copied};
ghost use Rattle.row_values.specs.Value.{value_of};
ghost use Rattle.sql_text.specs.declared.tree.Command.TheVariants as command;
ghost use Rattle.sql_semantics.specs.Scope as meant;
ghost use Rattle.sql_semantics.specs.Insert.{given_key};
ghost use Rattle.sql_semantics.specs.Scope.{filter_key};
ghost use Rattle.sql_semantics.specs.Values.{literal_value};
ghost use Rattle.small_sql.specs.Scope.{scope_of};
ghost use Rattle.small_sql.specs.Task.{DoesFound, selects};

use crate::scope::{Scope, scope_by};
use crate::task::{Plan, Task};
use core_calls::{SqlFault, StatementError};
use row_values::{Schema, Value};
use sql_changes::{GivenRow, Targets};
use sql_predicates::{Filter, fixed_key, selected_places};
use sql_text::{Assignment, Columns, Command, Literal, Predicate};
use std::alloc::{AllocError, Global};

// What an INSERT is to do, and the row of the key that it gives, or all rows where it gives none.
#[tactic(auto, unfolding(sql_semantics::specs::Insert::given_key))]
fn of_insert(
    alloc: Global,
    schema: &Schema,
    columns: &Columns<'_>,
    values: &[Literal<'_>],
    params: &[Value<'_>],
) -> Result<Plan, AllocError>
    ensures scope { IfOk result (λ p. scope_of p.scope ≡ meant.scope_by (given_key schema.now columns.now (map (literal_value (map value_of params.now)) values.now))) }
    ensures does { IfOk result (λ p. (table : List ℕ) → DoesFound (map value_of params.now) (command.Insert table columns.now values.now) schema.now (scope_of p.scope) p.task) }
    ensures selects { IfOk result (λ p. selects (Some schema.now) p.task ≡ true) }
{
    match GivenRow::bind(alloc, schema, columns, values, params) {
        Ok(row) => {
            let key = row.key(alloc, schema)?;
            Ok(Plan {
                scope: scope_by(key),
                task: Task::Insert(row),
            })
        }
        Err(StatementError::Fault(fault)) => Ok(Plan {
            scope: Scope::All,
            task: Task::Refused(fault),
        }),
        Err(StatementError::NoMemory) => Err(AllocError),
    }
}

// What an UPDATE is to do.
fn update_task(
    alloc: Global,
    schema: &Schema,
    assignments: &[Assignment<'_>],
    filter: Option<&Predicate<'_>>,
    params: &[Value<'_>],
) -> Result<Task, AllocError>
    ensures does { IfOk result (λ t. (table : List ℕ) (w : meant.Scope) → DoesFound (map value_of params.now) (command.Update table assignments.now (option_copied filter.entry)) schema.now w t) }
    ensures selects { IfOk result (λ t. selects (Some schema.now) t ≡ true) }
{
    let targets = match Targets::bind(alloc, schema, assignments, params) {
        Ok(targets) => targets,
        Err(StatementError::Fault(fault)) => return Ok(Task::Refused(fault)),
        Err(StatementError::NoMemory) => return Err(AllocError),
    };
    match Filter::bind(alloc, schema, filter, params) {
        Ok(filter) => Ok(Task::Update(targets, filter)),
        Err(StatementError::Fault(fault)) => Ok(Task::Refused(fault)),
        Err(StatementError::NoMemory) => Err(AllocError),
    }
}

// What a DELETE is to do.
fn delete_task(
    alloc: Global,
    schema: &Schema,
    filter: Option<&Predicate<'_>>,
    params: &[Value<'_>],
) -> Result<Task, AllocError>
    ensures does { IfOk result (λ t. (table : List ℕ) (w : meant.Scope) → DoesFound (map value_of params.now) (command.Delete table (option_copied filter.entry)) schema.now w t) }
    ensures selects { IfOk result (λ t. selects (Some schema.now) t ≡ true) }
{
    match Filter::bind(alloc, schema, filter, params) {
        Ok(filter) => Ok(Task::Delete(filter)),
        Err(StatementError::Fault(fault)) => Ok(Task::Refused(fault)),
        Err(StatementError::NoMemory) => Err(AllocError),
    }
}

// What a SELECT is to do.
fn select_task(
    alloc: Global,
    schema: &Schema,
    columns: &Columns<'_>,
    filter: Option<&Predicate<'_>>,
    params: &[Value<'_>],
) -> Result<Task, AllocError>
    ensures does { IfOk result (λ t. (table : List ℕ) (w : meant.Scope) → DoesFound (map value_of params.now) (command.Select columns.now table (option_copied filter.entry)) schema.now w t) }
    ensures selects { IfOk result (λ t. selects (Some schema.now) t ≡ true) }
{
    let places = match selected_places(alloc, schema, columns) {
        Ok(places) => places,
        Err(StatementError::Fault(fault)) => return Ok(Task::Refused(fault)),
        Err(StatementError::NoMemory) => return Err(AllocError),
    };
    match Filter::bind(alloc, schema, filter, params) {
        Ok(filter) => Ok(Task::Select(places, filter)),
        Err(StatementError::Fault(fault)) => Ok(Task::Refused(fault)),
        Err(StatementError::NoMemory) => Err(AllocError),
    }
}

// A task of the rows that a WHERE matches: of the row of the key that it fixes, or of all.
fn of_filter(
    alloc: Global,
    schema: &Schema,
    filter: Option<&Predicate<'_>>,
    params: &[Value<'_>],
    task: Task,
) -> Result<Plan, AllocError>
    ensures scope { IfOk result (λ p. scope_of p.scope ≡ meant.scope_by (filter_key (map value_of params.now) schema.now (option_copied filter.entry))) }
    ensures task { IfOk result (λ p. p.task ≡ task) }
{
    let key = fixed_key(alloc, schema, filter, params)?;
    Ok(Plan {
        scope: scope_by(key),
        task,
    })
}

/// What a statement is to do to its table, which has this schema.
pub(crate) fn of_found(
    alloc: Global,
    schema: &Schema,
    command: &Command<'_>,
    params: &[Value<'_>],
) -> Result<Plan, AllocError>
    ensures scope { IfOk result (λ p. scope_of p.scope ≡ meant.scope_in (map value_of params.now) command.now schema.now) }
    ensures does { IfOk result (λ p. DoesFound (map value_of params.now) command.now schema.now (scope_of p.scope) p.task) }
    ensures selects { IfOk result (λ p. selects (Some schema.now) p.task ≡ true) }
{
    match command {
        Command::Create { .. } => Ok(Plan {
            scope: Scope::Names,
            task: Task::Refused(SqlFault::TableExists),
        }),
        Command::Insert {
            columns,
            values,
            ..
        } => of_insert(alloc, schema, columns, values.as_slice(), params),
        Command::Update {
            assignments,
            filter,
            ..
        } => {
            let filter = filter.as_ref();
            let task = update_task(alloc, schema, assignments.as_slice(), filter, params)?;
            of_filter(alloc, schema, filter, params, task)
        }
        Command::Delete { filter, .. } => {
            let filter = filter.as_ref();
            let task = delete_task(alloc, schema, filter, params)?;
            of_filter(alloc, schema, filter, params, task)
        }
        Command::Select {
            columns,
            filter,
            ..
        } => {
            let filter = filter.as_ref();
            let task = select_task(alloc, schema, columns, filter, params)?;
            of_filter(alloc, schema, filter, params, task)
        }
    }
}

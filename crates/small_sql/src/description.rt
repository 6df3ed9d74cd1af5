//! Describes statements over a view.

ghost use Rattle.std.specs.Prelude.{◌≡◌, IfErr, IfOk, IsTrue, false};
ghost use Rattle.tables.specs.Tables.{schema_of};
ghost use Rattle.sql_semantics.specs.Describe.{described};
ghost use Rattle.sql_semantics.specs.Scope as scope;
ghost use Rattle.small_sql.specs.Described.{described_as};

use crate::read::no_memory;
use crate::subject::table_schema;
use core_calls::{Side, SqlFault, StatementError};
use sql_descriptions::Description;
use sql_text::Command;
use std::alloc::Global;
use tables::TableView;

/// What one side of a statement is described by, or why it is refused: no table has its name, then the
/// first selected name that is no column, then the first fault of its WHERE, in which a marker has
/// every class; and, on the side of the parameters, there are more than 128. Nothing else is judged. No
/// row is read, and the view does not change.
pub fn describe<V: TableView>(
    alloc: Global,
    side: Side,
    command: &Command<'_>,
    view: &mut V,
) -> Result<Result<Description, SqlFault>, V::Fault>
    ensures answer { IfOk result (λ answer. IsTrue V.is_faithful → described side command.now (schema_of (V.store view.old) (scope.table_name command.now)) ≡ described_as answer) }
    ensures fault { IfErr result (λ fault. IsTrue V.is_faithful → V.tells_damage fault ≡ false) }
    ensures store { V.store view.new ≡ V.store view.old }
{
    let schema = table_schema(alloc, command, view)?;
    match sql_descriptions::describe(alloc, side, command, schema) {
        Ok(description) => Ok(Ok(description)),
        Err(StatementError::Fault(fault)) => Ok(Err(fault)),
        Err(StatementError::NoMemory) => Err(no_memory::<V>()),
    }
}

//! The table that a statement is about.

ghost use Rattle.std.specs.Prelude.{◌≡◌, ◌<◌, ◌^◌, IfErr, IfOk, IsTrue, false, length, option_map, true};
ghost use Rattle.std.specs.Arc.{arc_value};
ghost use Rattle.std.specs.String.{string_bytes};
ghost use Rattle.tables.specs.Tables.{schema_of};
ghost use Rattle.tables.specs.View.{is_store};
ghost use Rattle.sql_semantics.specs.Scope as scope;
ghost use Rattle.sql_semantics.specs.Values.{name_of};

use crate::read::no_memory;
use row_values::Schema;
use sql_lex::Part;
use sql_predicates::table_name;
use sql_text::Command;
use std::alloc::{AllocError, Global};
use std::sync::Arc;
use tables::TableView;

// The name of the table, as the text has it.
fn name<'a, 'b>(command: &'a Command<'b>) -> &'a Part<'b>
    ensures { name_of result.now ≡ scope.table_name command.now }
{
    match command {
        Command::Create { table, .. } => table,
        Command::Insert { table, .. } => table,
        Command::Update { table, .. } => table,
        Command::Delete { table, .. } => table,
        Command::Select { table, .. } => table,
    }
}

/// The name in capitals of the table that a statement is about: at most 255 bytes.
#[tactic(auto, using(crate::proofs::Names::name_short))]
pub(crate) fn subject(alloc: Global, command: &Command<'_>) -> Result<String, AllocError>
    ensures name { IfOk result (λ table. string_bytes table ≡ scope.table_name command.now) }
    ensures short { IfOk result (λ table. length (string_bytes table) < 2 ^ 8) }
{
    table_name(alloc, name(command).bytes())
}

/// The schema of the table that a statement is about, where there is one. It is shared with the view,
/// which does not change.
pub fn table_schema<V: TableView>(
    alloc: Global,
    command: &Command<'_>,
    view: &mut V,
) -> Result<Option<Arc<Schema, Global>>, V::Fault>
    ensures found { IfOk result (λ schema. IsTrue V.is_faithful → option_map arc_value schema ≡ schema_of (V.store view.old) (scope.table_name command.now)) }
    ensures good { IfOk result (λ _. IsTrue V.is_faithful → is_store (V.store view.old) ≡ true) }
    ensures fault { IfErr result (λ fault. IsTrue V.is_faithful → V.tells_damage fault ≡ false) }
    ensures store { V.store view.new ≡ V.store view.old }
{
    let Ok(table) = subject(alloc, command) else {
        return Err(no_memory::<V>());
    };
    view.schema(alloc, table.as_str())
}

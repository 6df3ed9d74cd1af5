//! The columns that a statement is described by.

ghost use Rattle.std.specs.Prelude.{◌≡◌, IfOk, true};
ghost use Rattle.drda_words.specs.Excuse.{Answers};
ghost use Rattle.row_values.specs.Schema.{picked};
ghost use Rattle.tables.specs.RowList.{is_selection};
ghost use Rattle.core_calls.specs.StatementError.{fault_of};
ghost use Rattle.sql_semantics.specs.Describe as describe;

use core_calls::StatementError;
use row_values::Schema;
use sql_predicates::{Filter, selected_places};
use sql_text::Command;
use std::alloc::Global;

/// The places of the columns of a statement's rows, none where it is no SELECT. The selected names
/// are judged, and then the WHERE, in which a marker has every class; of an INSERT and of what an
/// UPDATE assigns nothing is judged.
pub(crate) fn described_places(
    alloc: Global,
    schema: &Schema,
    command: &Command<'_>,
) -> Result<Vec<u8>, StatementError>
    ensures places { Answers (λ places. picked schema.now.columns places.items) fault_of result (describe.described_columns schema.now command.now) }
    ensures good { IfOk result (λ places. is_selection schema.now places.items ≡ true) }
{
    match command {
        Command::Select {
            columns,
            filter,
            ..
        } => {
            let places = selected_places(alloc, schema, columns)?;
            Filter::bind(alloc, schema, filter.as_ref(), &[])?;
            Ok(places)
        }
        Command::Update { filter, .. } => {
            Filter::bind(alloc, schema, filter.as_ref(), &[])?;
            Ok(Vec::new(alloc))
        }
        Command::Delete { filter, .. } => {
            Filter::bind(alloc, schema, filter.as_ref(), &[])?;
            Ok(Vec::new(alloc))
        }
        Command::Insert { .. } => Ok(Vec::new(alloc)),
        Command::Create { .. } => Ok(Vec::new(alloc)),
    }
}

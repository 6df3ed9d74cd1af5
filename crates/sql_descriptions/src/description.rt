//! Describes statements.

ghost use Rattle.std.specs.Prelude.{◌≡◌, option_map};
ghost use Rattle.std.specs.Arc.{arc_value};
ghost use Rattle.drda_words.specs.Excuse.{Answers};
ghost use Rattle.core_calls.specs.Answer as answer;
ghost use Rattle.core_calls.specs.StatementError.{fault_of};
ghost use Rattle.sql_semantics.specs.Describe as describe;
ghost use Rattle.sql_descriptions.specs.Description.{answer_of};

use crate::column::described_places;
use crate::parameter::parameter_types;
use core_calls::{MAX_PARAMETERS, OutputColumns, ParameterTypes, Side, SqlFault, StatementError};
use row_values::Schema;
use sql_text::Command;
use std::alloc::Global;
use std::sync::Arc;

/// What a statement is described by.
#[derive(Debug, Drop)]
pub enum Description {
    /// The columns of its rows; a statement that is no SELECT has none.
    Output(OutputColumns),
    /// The types of its parameters.
    Input(ParameterTypes),
}

// The types of a statement's parameters.
fn described_input(
    alloc: Global,
    schema: &Schema,
    command: &Command<'_>,
) -> Result<ParameterTypes, StatementError>
    ensures { Answers answer.input fault_of result (describe.described_input (describe.parameter_types schema.now.columns command.now)) }
{
    let types = parameter_types(alloc, schema.columns(), command)?;
    if types.len() > MAX_PARAMETERS {
        return Err(StatementError::Fault(SqlFault::LimitReached));
    }
    Ok(ParameterTypes::new(types))
}

/// What one side of a statement is described by, by the schema of its table, where there is one. It
/// is refused where there is none, then for the first selected name that is no column, and then for
/// the first fault of its WHERE, in which a marker has every class; and, on the side of the
/// parameters, where there are more than 128.
pub fn describe(
    alloc: Global,
    side: Side,
    command: &Command<'_>,
    schema: Option<Arc<Schema, Global>>,
) -> Result<Description, StatementError>
    ensures { Answers answer_of fault_of result (describe.described side command.now (option_map arc_value schema)) }
{
    let Some(schema) = schema else {
        return Err(StatementError::Fault(SqlFault::TableUnknown));
    };
    let places = described_places(alloc, &schema, command)?;
    match side {
        Side::Output => Ok(Description::Output(OutputColumns::new(schema, places))),
        Side::Input => Ok(Description::Input(described_input(alloc, &schema, command)?)),
    }
}

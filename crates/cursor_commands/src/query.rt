//! The query that is prepared in a section, and what the core answers it.

ghost use Rattle.std.specs.Prelude.{◌≡◌, IfErr, IfOk, IfSome, Err, OnErr, Some, map, option_map};
ghost use Rattle.core_calls.specs.Answer.{answer_of};
ghost use Rattle.core_calls.specs.Call.{query};
ghost use Rattle.row_values.specs.Value.{value_of};
ghost use Rattle.drda_commands.specs.Views.{described_of};
ghost use Rattle.command_kit.specs.Text as text_spec;
ghost use Rattle.core_calls.specs.StatementError.{fault_of};
ghost use Rattle.sections.specs.Cursors.{section_of};
ghost use Rattle.cursor_commands.specs.Asking.{WasQueried};
ghost use Rattle.cursor_commands.specs.Commands as commands;

use command_kit::{Ask, is_select, read_values};
use core_calls::{Answer, CoreCall, SqlFault, StatementError};
use drda_commands::DescribedData;
use fdoca::DescriptorFault;
use row_values::Value;
use sections::{NotPrepared, Sections};
use sql_text::Statement;
use std::alloc::Global;

// Asks a query with these values for its markers.
fn ask_with<A: Ask>(statement: &Statement<'_>, values: &[Value<'_>], asker: &mut A) -> Answer
    ensures { A.asks asker.old (query statement.now (map value_of values.now)) (answer_of result) asker.new }
{
    asker.ask(&CoreCall::Query {
        statement,
        parameters: values,
    })
}

// Asks a query with the values that came for its markers.
fn ask_select<A: Ask>(
    alloc: Global,
    statement: &Statement<'_>,
    parameters: Option<DescribedData<'_>>,
    asker: &mut A,
) -> Result<Answer, StatementError>
    ensures ok { IfOk result (λ answer. WasQueried A.asks (commands.with_values statement.now (commands.or_mismatch (text_spec.values_of (option_map described_of parameters.entry)))) (answer_of answer) asker.old asker.new) }
    ensures err { IfErr result (λ error. IfSome (fault_of error) (λ fault. commands.with_values statement.now (commands.or_mismatch (text_spec.values_of (option_map described_of parameters.entry))) ≡ Err fault)) }
    ensures asker { OnErr result (asker.new ≡ asker.old) }
{
    let Some(parameters) = parameters else {
        return Ok(ask_with(statement, &[], asker));
    };
    let (Some(description), Some(row)) = (parameters.description, parameters.values) else {
        return Err(StatementError::Fault(SqlFault::ParameterMismatch));
    };
    match read_values(alloc, description, row) {
        Ok(values) => Ok(ask_with(statement, values.as_slice(), asker)),
        Err(DescriptorFault::NoMemory) => Err(StatementError::NoMemory),
        Err(DescriptorFault::Malformed | DescriptorFault::TooManyFields) => {
            Err(StatementError::Fault(SqlFault::ParameterMismatch))
        }
    }
}

// Asks a statement, where it is a query.
fn ask_statement<A: Ask>(
    alloc: Global,
    statement: &Statement<'_>,
    parameters: Option<DescribedData<'_>>,
    asker: &mut A,
) -> Result<Answer, StatementError>
    ensures ok { IfOk result (λ answer. WasQueried A.asks (commands.as_query (option_map described_of parameters.entry) statement.now) (answer_of answer) asker.old asker.new) }
    ensures err { IfErr result (λ error. IfSome (fault_of error) (λ fault. commands.as_query (option_map described_of parameters.entry) statement.now ≡ Err fault)) }
    ensures asker { OnErr result (asker.new ≡ asker.old) }
{
    if is_select(&statement.command) {
        ask_select(alloc, statement, parameters, asker)
    } else {
        Err(StatementError::Fault(SqlFault::NotPrepared))
    }
}

/// Asks the query of a section, with the values that came for its markers; or says why there is none. Out of
/// memory, nothing is asked.
pub fn ask_section<A: Ask>(
    alloc: Global,
    sections: &Sections,
    name: &[u8],
    parameters: Option<DescribedData<'_>>,
    asker: &mut A,
) -> Result<Answer, StatementError>
    ensures ok { IfOk result (λ answer. WasQueried A.asks (commands.query_in (option_map described_of parameters.entry) (section_of name.now sections.now)) (answer_of answer) asker.old asker.new) }
    ensures err { IfErr result (λ error. IfSome (fault_of error) (λ fault. commands.query_in (option_map described_of parameters.entry) (section_of name.now sections.now) ≡ Err fault)) }
    ensures asker { OnErr result (asker.new ≡ asker.old) }
{
    match sections.statement(name) {
        Ok(statement) => ask_statement(alloc, statement, parameters, asker),
        Err(NotPrepared) => Err(StatementError::Fault(SqlFault::NotPrepared)),
    }
}

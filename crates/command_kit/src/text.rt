//! The statement that a text is.

ghost use Rattle.std.specs.Prelude.{◌≡◌};
ghost use Rattle.std.specs.Option.{option_map};
ghost use Rattle.drda_words.specs.Excuse.{Answers};
ghost use Rattle.core_calls.specs.StatementError.{fault_of};
ghost use Rattle.sql_text.specs.Text.{but_memory};
ghost use Rattle.command_kit.specs.Text as spec;

use core_calls::{SqlFault, StatementError};
use sql_text::{Command, SqlError, Statement, parse};
use std::alloc::Global;

/// The most bytes that the text of a statement has.
const MAX_TEXT_LENGTH: usize = 32_767;

fn error_of(error: SqlError) -> StatementError
    ensures { fault_of result ≡ option_map spec.text_fault (but_memory error) }
{
    match error {
        SqlError::SqlText { .. } => StatementError::Fault(SqlFault::Syntax),
        SqlError::Limit => StatementError::Fault(SqlFault::LimitReached),
        SqlError::KeyUnknown => StatementError::Fault(SqlFault::ColumnUnknown),
        SqlError::NoMemory => StatementError::NoMemory,
    }
}

/// The statement that a text is, or why it is none.
pub fn statement_of<'t>(alloc: Global, text: &'t [u8]) -> Result<Statement<'t>, StatementError>
    ensures { Answers (λ s. s) fault_of result (spec.statement_of text.now) }
{
    if text.len() > MAX_TEXT_LENGTH {
        return Err(StatementError::Fault(SqlFault::LimitReached));
    }
    let Ok(text) = str::from_utf8(text) else {
        return Err(StatementError::Fault(SqlFault::Syntax));
    };
    match parse(alloc, text) {
        Ok(statement) => Ok(statement),
        Err(error) => Err(error_of(error)),
    }
}

/// Whether it is a SELECT.
pub fn is_select(command: &Command<'_>) -> bool
    ensures { result ≡ spec.is_select command.now }
{
    match command {
        Command::Select { .. } => true,
        Command::Create { .. }
        | Command::Insert { .. }
        | Command::Update { .. }
        | Command::Delete { .. } => false,
    }
}

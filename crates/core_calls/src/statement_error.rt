//! Why a statement is not answered.

ghost use Rattle.std.specs.Prelude.{◌≡◌};

use crate::sql_fault::SqlFault;
use std::alloc::{AllocError, AllocFailed};
use thiserror::Error;

/// Why a statement is not answered.
#[derive(Clone, Copy, Debug, PartialEq, Eq, Error)]
pub enum StatementError {
    /// It is refused.
    #[error("{0}")]
    Fault(SqlFault),
    #[error("out of memory")]
    NoMemory,
}

impl From<SqlFault> for StatementError {
    ghost use Rattle.core_calls.specs.declared.statement_error.StatementError.TheVariants.{Fault};

    ghost from_gives = { λ fault e. e ≡ Fault fault };

    fn from(fault: SqlFault) -> StatementError {
        StatementError::Fault(fault)
    }
}

impl From<AllocError> for StatementError {
    ghost use Rattle.core_calls.specs.declared.statement_error.StatementError.TheVariants.{NoMemory};

    ghost from_gives = { λ _ e. e ≡ NoMemory };

    fn from(_: AllocError) -> StatementError {
        StatementError::NoMemory
    }
}

impl<T: Drop> From<AllocFailed<T>> for StatementError {
    ghost use Rattle.core_calls.specs.declared.statement_error.StatementError.TheVariants.{NoMemory};

    ghost from_gives = { λ _ e. e ≡ NoMemory };

    fn from(_: AllocFailed<T>) -> StatementError {
        StatementError::NoMemory
    }
}

//! Why a section or a cursor can't be used.

use thiserror::Error;

/// No statement is prepared in the section.
#[derive(Clone, Copy, Debug, Drop, PartialEq, Eq, Error)]
#[error("no statement is prepared in the section")]
pub struct NotPrepared;

/// The section has no open cursor, or none of this instance number (QRYNOPRM).
#[derive(Clone, Copy, Debug, Drop, PartialEq, Eq, Error)]
#[error("the section has no such cursor")]
pub struct QueryNotOpen;

/// Why no cursor is opened.
#[derive(Clone, Copy, Debug, Drop, PartialEq, Eq, Error)]
pub enum OpenFault {
    /// No statement is prepared in the section.
    #[error("no statement is prepared in the section")]
    NotPrepared,
    /// The section's cursor is open already (QRYPOPRM).
    #[error("the section's cursor is open already")]
    QueryOpen,
    /// All 2^64 - 1 instance numbers have been given.
    #[error("no instance number is left")]
    NoInstance,
}

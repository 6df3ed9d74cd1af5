//! Why a statement is refused.

ghost use Rattle.std.specs.Prelude.{◌≡◌, neg_ℤ, pos};
ghost use Rattle.core_calls.specs.SqlFault.{diagnosis};

use thiserror::Error;

/// Why a statement is refused. Each has an SQLCODE, as DB2 has it for that fault, and an SQLSTATE of
/// five characters (ISO/IEC 9075-2, chapter 24: class and subclass).
#[derive(Clone, Copy, Debug, PartialEq, Eq, Error)]
pub enum SqlFault {
    /// The text is no statement, or names something twice that is named once.
    #[error("syntax error")]
    Syntax,
    /// No table has this name.
    #[error("no such table")]
    TableUnknown,
    /// The table has no column of this name.
    #[error("no such column")]
    ColumnUnknown,
    /// The parameters are not those of the statement, or not in the form that their descriptor says.
    #[error("the parameters do not match the statement")]
    ParameterMismatch,
    /// A value of one class is compared with, or given to, one of another.
    #[error("the types do not match")]
    TypeMismatch,
    /// NULL is given to a column that takes none.
    #[error("the column takes no NULL")]
    NullGiven,
    /// A number is out of the range of its column.
    #[error("the number is out of range")]
    OutOfRange,
    /// A text or bytes are longer than their column.
    #[error("the value is too long")]
    TooLong,
    /// The section has no statement, or none of the kind that the command runs.
    #[error("the statement is not prepared")]
    NotPrepared,
    /// A table of this name is there already.
    #[error("the table exists")]
    TableExists,
    /// A row of this key is there already.
    #[error("the key exists")]
    KeyExists,
    /// A limit of the server is reached.
    #[error("a limit is reached")]
    LimitReached,
    /// Another unit claims what the statement would read or write.
    #[error("another unit claims this")]
    Claimed,
}

impl SqlFault {
    /// The SQLCODE, which is below 0.
    pub fn code(self) -> i32
        ensures { result ≡ neg_ℤ (pos (diagnosis self).number) }
    {
        match self {
            SqlFault::Syntax => -104,
            SqlFault::TableUnknown => -204,
            SqlFault::ColumnUnknown => -206,
            SqlFault::ParameterMismatch => -313,
            SqlFault::TypeMismatch => -401,
            SqlFault::NullGiven => -407,
            SqlFault::OutOfRange => -413,
            SqlFault::TooLong => -433,
            SqlFault::NotPrepared => -518,
            SqlFault::TableExists => -601,
            SqlFault::KeyExists => -803,
            SqlFault::LimitReached => -904,
            SqlFault::Claimed => -913,
        }
    }

    /// The SQLSTATE: five letters and digits.
    pub fn state(self) -> &'static [u8; 5]
        ensures { result.now ≡ (diagnosis self).state }
    {
        match self {
            SqlFault::Syntax => b"42601",
            SqlFault::TableUnknown => b"42704",
            SqlFault::ColumnUnknown => b"42703",
            SqlFault::ParameterMismatch => b"07001",
            SqlFault::TypeMismatch => b"42818",
            SqlFault::NullGiven => b"23502",
            SqlFault::OutOfRange => b"22003",
            SqlFault::TooLong => b"22001",
            SqlFault::NotPrepared => b"07003",
            SqlFault::TableExists => b"42710",
            SqlFault::KeyExists => b"23505",
            SqlFault::LimitReached => b"57011",
            SqlFault::Claimed => b"57033",
        }
    }
}

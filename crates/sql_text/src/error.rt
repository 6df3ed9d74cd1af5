//! Why a text is refused.

ghost use Rattle.std.specs.Prelude.{◌≡◌};

use std::alloc::AllocError;

/// Why a text is refused.
#[derive(Clone, Copy, Debug, PartialEq, Eq)]
pub enum SqlError {
    /// At this offset stands the first token that no statement can have there, or the end where
    /// none can end: the tokens before it begin a statement, and with it they begin none. Or else
    /// the first length of 0, or the first name that repeats one of its list, stands there.
    SqlText { at: usize },
    /// The text is over 32,767 bytes, nested over 64 deep, or over a limit of markers, columns,
    /// key columns, selected names or lengths.
    Limit,
    /// A column of the key is no column of the table.
    KeyUnknown,
    NoMemory,
}

impl From<AllocError> for SqlError {
    ghost use Rattle.sql_text.specs.declared.error.SqlError.TheVariants.{NoMemory};

    ghost from_gives = { λ _ e. e ≡ NoMemory };

    fn from(_: AllocError) -> SqlError {
        SqlError::NoMemory
    }
}

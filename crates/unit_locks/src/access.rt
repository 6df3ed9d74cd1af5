//! What a unit does with what it claims.

/// What a unit does with the rows that it claims.
#[derive(Clone, Copy, Debug, PartialEq, Eq)]
pub enum Access {
    /// It has read them, or looked for them.
    Read,
    /// It has changed them, or may.
    Write,
}

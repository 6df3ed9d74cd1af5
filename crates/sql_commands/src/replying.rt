//! How long the replies to a command are.

/// The most bytes that the replies to one SQL command take as DSSs: those of one SQLDARD, as two other
/// replies take fewer.
pub const MAX_REPLIES_LENGTH: usize = 8_078;

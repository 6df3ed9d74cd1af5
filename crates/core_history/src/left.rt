//! Answers that are left.

use unit_records::Asked;

/// The answer of a call that was made together with others', for its conversation to collect.
#[derive(Clone, Copy)]
pub struct Left {
    /// Whose call it is.
    pub conversation: u64,
    /// Which of its calls, from 0 on.
    pub number: u64,
    /// What was wished for.
    pub wished: Asked,
    /// Whether the device failed; else it is done.
    pub has_failed: bool,
}

//! Wishes that are fulfilled together.

use unit_records::Asked;

/// That a conversation waits to ask this as its next call: who it is, where it has leave, and how many calls it has made.
#[derive(Clone, Copy)]
pub struct Wish {
    pub(crate) conversation: u64,
    pub(crate) place: usize,
    pub(crate) count: u64,
    pub(crate) wished: Asked,
}

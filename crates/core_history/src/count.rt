//! How many calls of a conversation a book lists.

/// A conversation that has leave, by its number, and how many of its calls are listed.
#[derive(Clone, Copy, PartialEq, Eq)]
pub struct Count {
    pub conversation: u64,
    pub calls: u64,
}

//! What became of a call.

use core_calls::Answer;

/// What became of a call of a book.
#[derive(Drop)]
pub enum Acted {
    /// It was answered.
    Answered(Answer),
    /// Nothing was done: the book does not count what the pass counts, so it is another book's.
    StrangerPass,
}

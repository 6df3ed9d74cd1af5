//! Laws: what holds of all values, as a function that does nothing.

pub use crate::lasting::kept_books_last;

//! Laws: what holds of all values, as a function that does nothing.

pub use crate::reading::catalogues_are_read;

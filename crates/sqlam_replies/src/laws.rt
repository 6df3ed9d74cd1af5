//! Laws: what holds of all values, as a function that does nothing.

pub use crate::lengths::texts_have_lengths;

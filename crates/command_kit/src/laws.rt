//! Laws: what holds of all values, as a function that does nothing.

pub use crate::sizes::replies_add_up;

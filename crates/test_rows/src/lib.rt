//! Values and schemas as the tests spell them, and bytes as they write them down.
#![tactic(auto)]

mod cells;
mod schemas;
mod shown;

pub use cells::{Cell, cells_of, values_of};
pub use schemas::schema_of;
pub use shown::{push_shown, say, tell};

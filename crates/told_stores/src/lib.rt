//! What is told of a store that is not served: its units in doubt, its room, whether it is whole, and its tables.
#![tactic(auto)]

mod doubts;
mod dumps;
mod rooms;
mod telling;

pub use dumps::{dump, list_tables};
pub use telling::{check, list_doubts, tell_room};

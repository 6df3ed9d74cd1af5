//! The core of the database: one step for each call of a conversation.
#![tactic(auto)]

mod deciding;
mod ending;
mod engine;
mod in_doubt;
mod making;
mod opening;
mod plain;
mod plain_state;
mod plain_tables;
mod refusing;
mod step;
mod together;

pub use engine::Core;
pub use in_doubt::InDoubt;
pub use plain_state::PlainState;

//! A node over a store on a disk: up to 64 conversations side by side over one core, and their events from one stream of records.
#![tactic(auto)]

mod answering;
mod asker;
pub mod closing;
mod event;
mod gathering;
pub mod laws;
mod node;
mod reading;
mod row;
mod serial;
mod serving;
mod slot;

pub use asker::CoreAsker;
// What a node is started with.
pub use conversation::{Fed, FedState, Heard, Settings, SettingsError};
pub use durable_core::{Checkpointed, DurableCore, open};
pub use node::{ConversationId, Node, OpenError};
pub use serving::{RunEnd, run};

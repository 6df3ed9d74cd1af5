//! Conversations over a network, a thread for each.
#![tactic(auto)]

mod arrivals;
mod attendance;
mod attended;
mod attending;
mod handles;
mod letting_in;
mod listening;
mod network;
mod threads;

pub use arrivals::Streams;
// Who is told, and what a failure ends.
pub use drda_guests::{ErrorLog, Failure, Log, Name, Notice, Outcome, Part, Silent};
pub use listening::serve_file;
pub use network::{Network, SystemNetwork};
// How full a store is, and what has no room in it.
pub use shared_node::{Gauge, Lack};
// What ended a conversation.
pub use stream_service::Served;
pub use threads::{Rules, serve_streams};

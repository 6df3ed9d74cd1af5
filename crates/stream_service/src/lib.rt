//! One conversation over a stream: what comes in is heard, and what it is answered goes out.
#![tactic(auto)]

mod host;
mod serving;

// How far a conversation has come towards the database.
pub use conversation::Access;
pub use host::{Host, OpenHouse};
pub use serving::{Served, serve};

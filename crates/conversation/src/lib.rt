//! One conversation of DRDA: the bytes of a requester in, commands judged in the order of refusals and
//! done, and replies out; and what it hears of pieces of bytes that come to it, whoever it asks, with its
//! answers written whole. It asks what statements mean of whoever is handed in, and knows nothing of
//! sockets, threads or the disk.
#![tactic(auto)]

mod access;
mod ahead;
mod budget;
mod chain;
mod database;
mod exchange;
mod fed;
mod feeding;
mod front;
mod kept_cursors;
pub mod laws;
mod settling;
mod sizes;
mod state;
mod told;
mod writing;

pub use access::Access;
pub use budget::Budget;
pub use drda_commands::{Mechanism, Stage};
pub use fed::{Fed, FedState, Heard, HeardSome};
pub use feeding::{feed, feed_all, feed_some};
pub use front::{Front, Need};
pub use session_commands::{Agreed, Session, Settings, SettingsError};
pub use writing::write_whole;

//! Conversations as guests of a server: how far each has come to the database, by what it is ended from another thread, and what is told of
//! it.
#![tactic(auto)]

mod doors;
mod failure;
mod fullness;
mod guest;
mod log;
mod longest;
mod notice;
mod telling;

pub use doors::Doors;
pub use failure::Failure;
pub use fullness::Fullness;
pub use guest::{Guest, unseen};
pub use log::{ErrorLog, Log, Silent, Switched};
pub use longest::Longest;
pub use notice::{Name, Notice, Outcome, Part};
pub use telling::{TellingGate, tell_turn};

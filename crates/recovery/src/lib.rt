//! What the records of a journal stand for: the committed tables and the units in doubt. And the laws of
//! recovery: what statements change has its place in the tables that they see, each step of the core
//! makes just the record that leads to what is durable after it, and what the images of a store's disk
//! open to.
#![tactic(auto)]

mod claimed;
mod gathered;
mod images;
mod journal;
mod laid;
pub mod laws;
mod openings;
mod placed;
mod places;
mod prepared;
mod schema_view;
mod step_laws;
mod steps;

pub use journal::{ReplayError, replay};
pub use laid::find_places;
pub use prepared::PreparedUnit;
pub use steps::Replay;

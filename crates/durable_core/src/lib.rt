//! The core over a disk: what is committed, prepared and decided outlasts a crash.
#![tactic(auto)]

mod ahead;
mod checkpointing;
mod closing;
mod deciding;
mod durable;
mod early;
mod errors;
mod gauge;
mod head;
mod holders;
mod holding;
pub mod laws;
mod opening;
mod plain_error;
mod reading;
mod restoring;
mod together;

pub use checkpointing::Checkpointed;
pub use deciding::Decided;
pub use durable::DurableCore;
pub use early::EarlyUnits;
pub use errors::{OpenError, Refused};
pub use opening::open;
pub use plain_error::PlainError;
pub use together::Together;

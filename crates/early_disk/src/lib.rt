//! A disk on which one byte may be written before it counts, so that it is flushed from outside meanwhile.
#![tactic(auto)]

mod disk;
mod early;
mod rule;
mod shown;

pub use early::EarlyDisk;
pub use rule::EarlyRule;

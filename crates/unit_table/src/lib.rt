//! The units of work: who owns them, what each has changed and what it claims.
#![tactic(auto)]

mod changes;
mod claiming;
mod clashing;
mod entry;
mod keep_error;
mod owner;
mod place;
mod plain;
mod row;
mod units;

pub use keep_error::KeepError;
pub use owner::Owner;
pub use plain::PlainUnit;
pub use units::Units;

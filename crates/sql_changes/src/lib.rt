//! The changes that statements make: of CREATE TABLE, INSERT, UPDATE and DELETE.
#![tactic(auto)]

mod change;
mod creation;
mod given;
mod key;
mod place;
mod removal;
mod room;
mod row;
mod sum;
mod target;
mod total;
mod updated_row;

pub use change::updates;
pub use creation::{MAX_TABLES, create};
pub use given::{GivenRow, insert};
pub use key::given_key;
pub use removal::delete;
pub use target::Targets;

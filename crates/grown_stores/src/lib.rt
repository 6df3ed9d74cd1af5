//! Stores that are moved into larger files.
#![tactic(auto)]

mod copying;
mod files;
mod growing;
pub mod laws;
mod laying;
mod moving;

pub use files::grow_file;
pub use growing::grow;

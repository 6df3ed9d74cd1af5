//! The tables of a store as SQL that makes them anew.
#![tactic(auto)]

mod dumping;
mod errors;
mod lines;
mod listing;
mod rows;

pub use dumping::dump_tables;
pub use errors::DumpError;
pub use listing::list_tables;

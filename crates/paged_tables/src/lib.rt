//! The committed tables over pages: each table is where its pages lie, and the changes since these were
//! written. Room is made before a change, so that the change itself can't fail; rows are read through a
//! cache of pages.
#![tactic(auto)]

pub mod laws;
mod lending;
mod steps;
mod store;
mod stored_table;
mod tables_by_name;
mod tree;

pub use lending::{TableRef, TablesLeft};
pub use store::PagedTables;
pub use stored_table::JudgedRows;

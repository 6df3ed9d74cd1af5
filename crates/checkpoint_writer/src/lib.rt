//! Tables in an image of a store: their rows laid into its pages.
#![tactic(auto)]

mod catalogue;
mod ending;
mod entry;
mod errors;
pub mod laws;
mod memory_rows;
mod merging;
mod page;
mod reading;
mod rows;
mod steps;

pub use catalogue::{count_entry, write_catalogue};
pub use ending::{Switched, finish_image};
pub use entry::{StoredTable, TablePlace, entries_have_their_bytes};
pub use errors::ImageError;
pub use memory_rows::write_rows;
pub use merging::merge_into;
pub use reading::{CatalogueError, read_catalogue};

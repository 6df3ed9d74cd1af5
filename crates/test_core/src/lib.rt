//! What cores are made of in tests: stores in memory, and who records and reads where tables have no pages.
#![tactic(auto)]

mod reader;
mod stores;
mod unpaged;

pub use reader::{read_row, read_rows};
pub use stores::{fresh_store, store_of};
pub use unpaged::Unpaged;

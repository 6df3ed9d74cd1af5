//! What the pages of a store are to be, at each moment of a checkpoint; and whether they are that, or
//! which is the first that is not.
#![tactic(auto)]

mod errors;
mod form;
mod half;
mod keys;
pub mod laws;
mod listing;
mod page;
mod rows;
mod table;

pub use errors::CheckError;
pub use half::{CheckedTable, check_half};
pub use keys::{KeysBySchema, RowForms};
pub use listing::check_catalogue;
pub use table::check_table;

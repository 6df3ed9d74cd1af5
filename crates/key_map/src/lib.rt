//! Rows in memory in the order of their keys: the form of a key whose bytes stand in that order, ordered
//! rows that take memory only where room is made, and the changes that are laid over the rows of a table.
//! The form of a row's key is also read from the row where it lies: compared with another form without
//! memory, or written out.
#![tactic(auto)]

mod comparing;
mod field;
mod form;
mod front;
mod key_order;
pub mod laws;
mod overlay;
mod rows;
mod slots;
mod walk;
mod writing;

pub use comparing::compare;
pub use form::sort_form;
pub use overlay::Overlay;
pub use rows::OrderedRows;
pub use walk::Rows;
pub use writing::{put_row_form, row_form};

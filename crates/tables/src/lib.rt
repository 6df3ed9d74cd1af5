//! What a table is: stores, their changes with their bytes, and views of tables.
#![tactic(auto)]

mod action;
mod change;
pub mod laws;
mod plain_table;
mod plain_view;
mod row_list;
mod rows;
mod table_view;

pub use action::Action;
pub use change::Change;
pub use plain_view::{PlainFault, PlainView};
pub use row_list::{MAX_SELECTED, RowList};
pub use rows::Rows;
pub use table_view::TableView;

//! The rows of a table on its pages, found by their keys.
#![tactic(auto)]

mod base;
mod changes;
mod cursor;
mod finding;
mod keys;
pub mod laws;
mod noted;
mod page_scan;
mod pages;
mod room;
mod scan;
mod schema_keys;
mod table;
mod whole_pages;

pub use cursor::RowCursor;
pub use keys::RowKeys;
pub use noted::{ListedRows, NotedPages, NotedRows};
pub use pages::{JudgedRow, TablePages};
pub use schema_keys::SchemaKeys;
pub use table::TableMap;

//! What a unit of work has changed and not committed, and its view of tables: the committed ones with
//! its changes made.
#![tactic(auto)]

mod bytes;
mod index;
mod key_change;
mod same_schema;
mod table_changes;
mod table_rows;
mod unit;
mod unit_view;

pub use unit::{MAX_CHANGED_BYTES, UnitChanges};
pub use unit_view::{UnitView, row_under, schema_under, tables_under};

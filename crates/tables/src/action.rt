//! What a change does.

use row_values::Schema;

/// What a change does to a store.
#[derive(Debug, Drop)]
pub enum Action {
    /// A new table without rows.
    CreateTable { table: String, schema: Schema },
    /// A row, in place of the one of its key where there is one.
    Put { table: String, row: Vec<u8> },
    /// The row of this key is taken out.
    Remove { table: String, key: Vec<u8> },
}

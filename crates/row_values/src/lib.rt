//! Values, rows, keys and schemas with their bytes.
#![tactic(auto)]

mod column;
mod encoding;
mod judged;
mod key;
mod key_values;
pub mod laws;
mod row;
mod row_ref;
mod row_values;
mod schema;
mod schema_bytes;
mod value;

pub use column::{Column, Kind, Misfit, is_name};
pub use encoding::{put_counted, split_counted};
pub use key::{MAX_KEY_BYTES, are_key, compare_keys, encode_key, is_key};
pub use key_values::KeyValues;
pub use row::{Damaged, MAX_ROW_BYTES, ReadError, RowError, are_row, encode_row};
pub use row_ref::RowRef;
pub use row_values::RowValues;
pub use schema::{
    BadSchema, MAX_COLUMN_LENGTH, MAX_COLUMNS, MAX_KEY_COLUMNS, MAX_NAME_BYTES, Schema,
};
pub use schema_bytes::{put_name, split_name};
pub use value::Value;

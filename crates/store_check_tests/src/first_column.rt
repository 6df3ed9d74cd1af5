//! Keys of rows that are as short as can be.
ghost use Rattle.std.specs.Prelude.{◌≡◌, take};

use row_values::Schema;
use std::alloc::{AllocError, Global};
use std::cmp::Ordering;
use store_check::KeysBySchema;
use table_map::RowKeys;

/// The keys of the rows, none of which is negative: the bytes of the first column.
pub struct FirstColumn;

fn first_column(row: &[u8]) -> &[u8]
    ensures { result.now ≡ take 3 row.now }
{
    if row.len() < 3 { row } else { &row[..3] }
}

impl RowKeys for FirstColumn {
    ghost key_of = { λ _ row. take 3 row };

    fn key(&self, alloc: Global, row: &[u8]) -> Result<Vec<u8>, AllocError> {
        first_column(row).to_vec(alloc)
    }

    fn put_key(&self, out: &mut Vec<u8>, row: &[u8]) -> Result<(), AllocError> {
        out.extend_from_slice(first_column(row))
    }

    fn compare(&self, key: &[u8], row: &[u8]) -> Ordering {
        key.cmp(first_column(row))
    }
}

impl KeysBySchema for FirstColumn {
    ghost key_of = { λ _ _ row. take 3 row };

    fn key(&self, alloc: Global, _: &Schema, row: &[u8]) -> Result<Vec<u8>, AllocError> {
        first_column(row).to_vec(alloc)
    }

    fn put_key(&self, out: &mut Vec<u8>, _: &Schema, row: &[u8]) -> Result<(), AllocError> {
        out.extend_from_slice(first_column(row))
    }

    fn compare(&self, _: &Schema, key: &[u8], row: &[u8]) -> Ordering {
        key.cmp(first_column(row))
    }
}

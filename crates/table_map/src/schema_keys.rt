//! The keys of a table's rows by its schema.
ghost use Rattle.key_map.specs.RowForm.{row_form};

use crate::RowKeys;
use key_map::{compare, put_row_form, row_form};
use row_values::Schema;
use std::alloc::{AllocError, Global};
use std::cmp::Ordering;

/// The keys of the rows of a schema, each in its sort form, which is read and compared where the row
/// lies.
#[derive(Clone, Copy)]
pub struct SchemaKeys<'a> {
    pub schema: &'a Schema,
}

impl RowKeys for SchemaKeys<'_> {
    ghost key_of = { λ k row. row_form k.schema.now row };

    fn key(&self, alloc: Global, row: &[u8]) -> Result<Vec<u8>, AllocError> {
        row_form(alloc, self.schema, row)
    }

    fn put_key(&self, out: &mut Vec<u8>, row: &[u8]) -> Result<(), AllocError> {
        put_row_form(out, self.schema, row)
    }

    fn compare(&self, key: &[u8], row: &[u8]) -> Ordering {
        compare(self.schema, key, row)
    }
}

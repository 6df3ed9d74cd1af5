//! The keys of rows, by the schema of their table.
ghost use Rattle.std.specs.Prelude.{◌≡◌, ◌++◌, ℕ, List, IfOk, OnOk};
ghost use Rattle.row_values.specs.Schema.{Schema};
ghost use Rattle.key_map.specs.Slots.{by_bytes};
ghost use Rattle.key_map.specs.RowForm.{row_form};

use key_map::{compare, put_row_form, row_form};
use row_values::Schema as TableSchema;
use std::alloc::{AllocError, Global};
use std::cmp::Ordering;
use table_map::RowKeys;

/// The keys of the rows of all tables, in a form whose bytes sort as the keys of a table do.
pub trait KeysBySchema {
    /// The key of a row of a table with this schema.
    ghost key_of: { Self → Schema → List ℕ → List ℕ };

    /// The key of a row of a table with this schema, in new memory.
    fn key(&self, alloc: Global, schema: &TableSchema, row: &[u8]) -> Result<Vec<u8>, AllocError>
        ensures { IfOk result (λ key. key.items ≡ key_of self.now schema.now row.now) };

    /// Writes the key of a row of a table with this schema behind what a list has. Where memory is
    /// refused, some of it may stand there.
    fn put_key(&self, out: &mut Vec<u8>, schema: &TableSchema, row: &[u8]) -> Result<(), AllocError>
        ensures { OnOk result (out.new.items ≡ out.old.items ++ key_of self.now schema.now row.now) };

    /// How a key stands to that of a row of a table with this schema, which is read where it lies.
    /// Takes no memory.
    fn compare(&self, schema: &TableSchema, key: &[u8], row: &[u8]) -> Ordering
        ensures { result ≡ by_bytes key.now (key_of self.now schema.now row.now) };
}

/// The sort forms of the keys of rows.
#[derive(Clone, Copy, Debug)]
pub struct RowForms;

impl KeysBySchema for RowForms {
    ghost key_of = { λ _ schema row. row_form schema row };

    fn key(&self, alloc: Global, schema: &TableSchema, row: &[u8]) -> Result<Vec<u8>, AllocError> {
        row_form(alloc, schema, row)
    }

    fn put_key(
        &self,
        out: &mut Vec<u8>,
        schema: &TableSchema,
        row: &[u8],
    ) -> Result<(), AllocError> {
        put_row_form(out, schema, row)
    }

    fn compare(&self, schema: &TableSchema, key: &[u8], row: &[u8]) -> Ordering {
        compare(schema, key, row)
    }
}

/// The keys of the rows of one table.
#[derive(Drop)]
pub(crate) struct KeysOf<'a, K: KeysBySchema> {
    pub(crate) keys: &'a K,
    pub(crate) schema: &'a TableSchema,
}

impl<K: KeysBySchema> RowKeys for KeysOf<'_, K> {
    ghost key_of = { λ k row. K.key_of k.keys.now k.schema.now row };

    fn key(&self, alloc: Global, row: &[u8]) -> Result<Vec<u8>, AllocError> {
        self.keys.key(alloc, self.schema, row)
    }

    fn put_key(&self, out: &mut Vec<u8>, row: &[u8]) -> Result<(), AllocError> {
        self.keys.put_key(out, self.schema, row)
    }

    fn compare(&self, key: &[u8], row: &[u8]) -> Ordering {
        self.keys.compare(self.schema, key, row)
    }
}

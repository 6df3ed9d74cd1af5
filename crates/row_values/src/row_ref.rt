//! Rows that stand in bytes.

ghost use Rattle.std.specs.Prelude.{◌≡◌, ◌<◌, ◌≤◌, IfOk, IfSome, IsTrue, OnOk, Some, is_ok, length, true};
ghost use Rattle.std.specs.List.{slice_get};
ghost use Rattle.row_values.specs.Value.{value_of};
ghost use Rattle.row_values.specs.Column.{column_of, fits};
ghost use Rattle.row_values.specs.Row.{all_fit, is_row, place_of, row_bytes, value_bytes, values_in};
ghost use Rattle.row_values.specs.Key.{is_key, row_key};
ghost use Rattle.drda_words.specs.Place.{StandsAt};

use crate::encoding::has_values;
use crate::judged::{from_column, take_value};
use crate::key::encode_key;
use crate::row::{Damaged, MAX_ROW_BYTES};
use crate::row_values::RowValues;
use crate::schema::{MAX_KEY_COLUMNS, Schema};
use crate::value::Value;
use std::alloc::{AllocError, Global};

/// A row of a schema, in bytes that are lent.
#[derive(Clone, Copy, Debug)]
pub struct RowRef<'a> {
    schema: &'a Schema,
    bytes: &'a [u8],
    ghost is_row: { is_row schema.now bytes.now ≡ true },
    ghost written: { IsTrue (all_fit schema.now.columns (values_in schema.now bytes.now)) × (bytes.now ≡ row_bytes schema.now.columns (values_in schema.now bytes.now)) },
}

impl<'a> RowRef<'a> {
    ghost use Rattle.row_values.specs.RowView.{row_in, schema_in};
    ghost use Rattle.row_values.specs.RowValues.{values_left};

    /// The row that the bytes are. It is refused as damaged where they are not the bytes of one value
    /// per column that fits it, or more than 4,000.
    pub fn parse(schema: &'a Schema, bytes: &'a [u8]) -> Result<RowRef<'a>, Damaged>
        ensures parsed { IfOk result (λ row. (schema_in row ≡ schema.now) × (row_in row ≡ bytes.now)) }
        ensures only { is_ok result ≡ is_row schema.now bytes.now }
        ensures written { OnOk result (IsTrue (all_fit schema.now.columns (values_in schema.now bytes.now)) × (bytes.now ≡ row_bytes schema.now.columns (values_in schema.now bytes.now))) }
    {
        if bytes.len() > MAX_ROW_BYTES || !has_values(schema.columns(), bytes) {
            return Err(Damaged);
        }
        Ok(RowRef { schema, bytes })
    }

    /// The row that the bytes are, where that is known: nothing is judged.
    pub fn of_row(schema: &'a Schema, bytes: &'a [u8]) -> RowRef<'a>
        requires { is_row schema.now bytes.now ≡ true }
        ensures schema { schema_in result ≡ schema.now }
        ensures bytes { row_in result ≡ bytes.now }
    {
        RowRef { schema, bytes }
    }

    /// The bytes of the row.
    pub fn bytes(&self) -> &'a [u8]
        ensures { result.now ≡ row_in self.now }
    {
        self.bytes
    }

    /// The schema of the row.
    pub fn schema(&self) -> &'a Schema
        ensures { result.now ≡ schema_in self.now }
    {
        self.schema
    }

    /// The values of the row, one for each column, in the order of CREATE TABLE.
    pub fn values(&self) -> RowValues<'a>
        ensures { values_left result ≡ values_in (schema_in self.now) (row_in self.now) }
    {
        RowValues::new(self.schema.columns(), self.bytes)
    }

    /// The bytes of the row's key, at most 8,012.
    pub fn key(&self, alloc: Global) -> Result<Vec<u8>, AllocError>
        ensures key { IfOk result (λ key. key.items ≡ row_key (schema_in self.now) (row_in self.now)) }
        ensures good { IfOk result (λ key. is_key (schema_in self.now) key.items ≡ true) }
        ensures short { IfOk result (λ key. length key.items ≤ 8012) }
    {
        let mut values = [Value::Null; MAX_KEY_COLUMNS];
        let count = self.schema.key().len();
        for i in 0..count {
            let place = usize::from(self.schema.key()[i]);
            values[i] = self.column(place);
        }
        encode_key(alloc, self.schema, &values[..count])
    }

    /// The value of column `i`, counted from 0. A text or bytes are lent from the row: the value's
    /// bytes stand in it where those of the earlier columns end.
    #[inline(always)]
    pub fn column(&self, i: usize) -> Value<'a>
        requires { i < length (schema_in self.now).columns }
        ensures value { slice_get (values_in (schema_in self.now) (row_in self.now)) i ≡ Some (value_of result) }
        ensures fits { IfSome (slice_get (schema_in self.now).columns i) (λ column. IsTrue (fits column (value_of result))) }
        ensures place { IfSome (slice_get (schema_in self.now).columns i) (λ column. StandsAt (row_in self.now) (place_of (schema_in self.now).columns (values_in (schema_in self.now) (row_in self.now)) i) (value_bytes column.kind (value_of result))) }
    {
        let columns = self.schema.columns();
        let rest = from_column(columns, self.bytes, i);
        take_value(&columns[i], rest).0
    }
}

//! Keys.

ghost use Rattle.std.specs.Prelude.{◌≡◌, ◌≤◌, IfOk, IsTrue, OnOk, length, map, true};
ghost use Rattle.row_values.specs.Value.{value_of};
ghost use Rattle.row_values.specs.Row.{all_fit, row_bytes};
ghost use Rattle.row_values.specs.Key.{is_key, key_cmp};
ghost use Rattle.row_values.specs.Schema.{key_columns};

use crate::encoding::{put_value, split_value, value_length};
use crate::judged::take_value;
use crate::schema::Schema;
use crate::value::Value;
use std::alloc::{AllocError, Global};
use std::cmp::Ordering;

/// The most bytes of a key.
pub const MAX_KEY_BYTES: usize = 8_012;

/// Whether there is one value per key column, in the order of PRIMARY KEY, and each fits.
pub fn are_key(schema: &Schema, values: &[Value<'_>]) -> bool
    ensures { result ≡ all_fit (key_columns schema.now) (map value_of values.now) }
{
    if schema.key().len() != values.len() {
        return false;
    }
    for i in 0..values.len() {
        if schema.key_column(i).admit(&values[i]).is_err() {
            return false;
        }
    }
    true
}

/// The bytes of a key of these values, one per key column in the order of PRIMARY KEY: at most
/// 8,012.
pub fn encode_key(
    alloc: Global,
    schema: &Schema,
    values: &[Value<'_>],
) -> Result<Vec<u8>, AllocError>
    requires { IsTrue (all_fit (key_columns schema.now) (map value_of values.now)) }
    ensures key { IfOk result (λ key. key.items ≡ row_bytes (key_columns schema.now) (map value_of values.now)) }
    ensures good { IfOk result (λ key. is_key schema.now key.items ≡ true) }
    ensures short { IfOk result (λ key. length key.items ≤ 8012) }
{
    let mut key = Vec::with_capacity(alloc, key_length(schema, values))?;
    for i in 0..schema.key().len() {
        put_value(&mut key, schema.key_column(i), &values[i])?;
    }
    Ok(key)
}

// How many bytes the key of these values has.
fn key_length(schema: &Schema, values: &[Value<'_>]) -> usize
    requires { IsTrue (all_fit (key_columns schema.now) (map value_of values.now)) }
    ensures { result ≡ length (row_bytes (key_columns schema.now) (map value_of values.now)) }
{
    let mut length = 0;
    for i in 0..schema.key().len() {
        length += value_length(schema.key_column(i), &values[i]);
    }
    length
}

/// Whether the bytes are a key of the schema.
pub fn is_key(schema: &Schema, bytes: &[u8]) -> bool
    ensures { result ≡ is_key schema.now bytes.now }
{
    let mut rest = bytes;
    for i in 0..schema.key().len() {
        match split_value(schema.key_column(i), rest) {
            Some((_, after)) => rest = after,
            None => return false,
        }
    }
    rest.is_empty()
}

/// The order of two keys of the schema: that of their values, the first key column first.
pub fn compare_keys(schema: &Schema, a: &[u8], b: &[u8]) -> Ordering
    requires first { is_key schema.now a.now ≡ true }
    requires second { is_key schema.now b.now ≡ true }
    ensures { result ≡ key_cmp schema.now a.now b.now }
{
    let mut rest_a = a;
    let mut rest_b = b;
    for i in 0..schema.key().len() {
        let column = schema.key_column(i);
        let (first, after_a) = take_value(column, rest_a);
        let (second, after_b) = take_value(column, rest_b);
        match first.order(&second) {
            Ordering::Less => return Ordering::Less,
            Ordering::Greater => return Ordering::Greater,
            Ordering::Equal => {}
        }
        rest_a = after_a;
        rest_b = after_b;
    }
    Ordering::Equal
}

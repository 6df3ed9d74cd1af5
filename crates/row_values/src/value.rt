//! SQL values.

ghost use Rattle.std.specs.Prelude.{◌≡◌};
ghost use Rattle.row_values.specs.Value.{class_of, value_cmp, value_of};

use std::cmp::Ordering;

/// An SQL value. Texts and bytes are borrowed from the row, statement or message that has them.
#[derive(Clone, Copy, Debug, PartialEq, Eq)]
pub enum Value<'a> {
    /// No value: NULL.
    Null,
    /// A number of a SMALLINT, INTEGER or BIGINT column.
    Number(i64),
    /// A text of a VARCHAR column, in UTF-8.
    Text(&'a str),
    /// Bytes of a VARBINARY column.
    Bytes(&'a [u8]),
}

impl Value<'_> {
    /// The order of values: numbers by value, texts and bytes by their bytes; of two classes NULL
    /// comes first, then numbers, texts and bytes.
    #[inline(always)]
    pub fn order(&self, other: &Value<'_>) -> Ordering
        ensures { result ≡ value_cmp (value_of self.now) (value_of other.now) }
    {
        match (*self, *other) {
            (Value::Number(a), Value::Number(b)) => a.cmp(&b),
            (Value::Text(a), Value::Text(b)) => a.as_bytes().cmp(b.as_bytes()),
            (Value::Bytes(a), Value::Bytes(b)) => a.cmp(b),
            _ => self.class().cmp(&other.class()),
        }
    }

    /// The place of a value's class in the order.
    fn class(&self) -> u8
        ensures { result ≡ class_of (value_of self.now) }
    {
        match self {
            Value::Null => 0,
            Value::Number(_) => 1,
            Value::Text(_) => 2,
            Value::Bytes(_) => 3,
        }
    }
}

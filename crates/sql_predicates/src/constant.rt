//! Values of statements.

ghost use Rattle.std.specs.Prelude.{◌≡◌, IfOk, map};
ghost use Rattle.row_values.specs.Value.{null, value_of};
ghost use Rattle.sql_semantics.specs.Values.{literal_value, text_given, bytes_given};
ghost use Rattle.sql_text.specs.Spelled.{bytes_of_pairs, undoubled};
ghost use Rattle.sql_predicates.specs.Constant.{constant_value};

use crate::bytes::{bytes_of_pairs, undoubled};
use crate::number::number;
use row_values::Value;
use sql_text::Literal;
use std::alloc::{AllocError, Global};

/// A value of a statement, in memory of its own.
#[derive(Debug, Drop)]
pub enum Constant {
    Null,
    Number(i64),
    Text(String),
    Bytes(Vec<u8>),
}

impl Constant {
    /// The value of a literal, with these values for the markers. What no parsed text has counts
    /// as NULL: a number past BIGINT, a text that is no UTF-8, a marker without a value.
    pub fn of_literal(
        alloc: Global,
        literal: &Literal<'_>,
        params: &[Value<'_>],
    ) -> Result<Constant, AllocError>
        ensures { IfOk result (λ constant. constant_value constant ≡ literal_value (map value_of params.now) literal.now) }
    {
        match literal {
            Literal::Null => Ok(Constant::Null),
            Literal::Number(spelled) => Ok(number(spelled.bytes())),
            Literal::Text(spelled) => text(alloc, spelled.bytes()),
            Literal::Bytes(pairs) => bytes(alloc, pairs.bytes()),
            Literal::Marker(marker) => match params.get(*marker) {
                Some(value) => Constant::of_value(alloc, value),
                None => Ok(Constant::Null),
            },
        }
    }

    /// The value, in memory of its own.
    pub fn of_value(alloc: Global, value: &Value<'_>) -> Result<Constant, AllocError>
        ensures { IfOk result (λ constant. constant_value constant ≡ value_of value.now) }
    {
        match *value {
            Value::Null => Ok(Constant::Null),
            Value::Number(number) => Ok(Constant::Number(number)),
            Value::Text(text) => Ok(Constant::Text(String::from_str(alloc, text)?)),
            Value::Bytes(bytes) => Ok(Constant::Bytes(Vec::from_slice(alloc, bytes)?)),
        }
    }

    /// The value, borrowed.
    pub fn value(&self) -> Value<'_>
        ensures { value_of result ≡ constant_value self.now }
    {
        match self {
            Constant::Null => Value::Null,
            Constant::Number(number) => Value::Number(*number),
            Constant::Text(text) => Value::Text(text.as_str()),
            Constant::Bytes(bytes) => Value::Bytes(bytes.as_slice()),
        }
    }
}

// The text, in which a doubled quote is one.
fn text(alloc: Global, spelled: &[u8]) -> Result<Constant, AllocError>
    ensures { IfOk result (λ constant. constant_value constant ≡ text_given (undoubled spelled.now)) }
{
    match String::from_utf8(undoubled(alloc, spelled)?) {
        Ok(text) => Ok(Constant::Text(text)),
        Err(_error) => Ok(Constant::Null),
    }
}

fn bytes(alloc: Global, pairs: &[u8]) -> Result<Constant, AllocError>
    ensures { IfOk result (λ constant. constant_value constant ≡ bytes_given (bytes_of_pairs pairs.now)) }
{
    Ok(Constant::Bytes(bytes_of_pairs(alloc, pairs)?))
}

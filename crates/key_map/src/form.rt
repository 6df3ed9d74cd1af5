//! The sort form of a key.

ghost use Rattle.std.specs.Prelude.{◌≡◌, ◌++◌, IfOk, OnOk, true};
ghost use Rattle.row_values.specs.Value.{value_of};
ghost use Rattle.row_values.specs.Key.{is_key};
ghost use Rattle.key_map.specs.SortForm.{byte_form, counted_up, sort_form, text_form, value_form};

use row_values::{KeyValues, Schema, Value};
use std::alloc::{AllocError, Global};

/// Behind a zero of a text or of bytes.
const NOT_THE_END: u8 = 255;

/// The sort form of a key of the schema: of each key column, in the order of PRIMARY KEY, one byte
/// for the value's class, then a number as eight bytes counted up from the least of BIGINT, the
/// highest first, or a text or bytes with 255 behind each zero and two zeros at the end. Of two keys
/// of a schema the one that comes first has the form that comes first, byte by byte.
pub fn sort_form(alloc: Global, schema: &Schema, key: &[u8]) -> Result<Vec<u8>, AllocError>
    requires { is_key schema.now key.now ≡ true }
    ensures { IfOk result (λ form. form.items ≡ sort_form schema.now key.now) }
{
    let mut form = Vec::with_capacity(alloc, key.len() + 32)?;
    for value in KeyValues::new(schema, key) {
        put_value(&mut form, &value)?;
    }
    Ok(form)
}

fn put_value(form: &mut Vec<u8>, value: &Value<'_>) -> Result<(), AllocError>
    ensures { OnOk result (form.new.items ≡ form.old.items ++ value_form (value_of value.now)) }
{
    match value {
        Value::Null => form.push(0)?,
        Value::Number(number) => {
            form.push(1)?;
            form.extend_from_slice(&counted_up(*number).to_be_bytes())?;
        }
        Value::Text(text) => {
            form.push(2)?;
            put_text(form, text.as_bytes())?;
        }
        Value::Bytes(bytes) => {
            form.push(3)?;
            put_text(form, bytes)?;
        }
    }
    Ok(())
}

/// The number, counted from the least of BIGINT.
pub(crate) fn counted_up(number: i64) -> u64
    ensures { result ≡ counted_up number }
{
    if number < 0 {
        (number - i64::MIN).cast_unsigned()
    } else {
        number.cast_unsigned() + (1 << 63)
    }
}

/// Appends the form of a text or of bytes, or some of it where memory is refused.
pub(crate) fn put_text(form: &mut Vec<u8>, bytes: &[u8]) -> Result<(), AllocError>
    ensures { OnOk result (form.new.items ≡ form.old.items ++ text_form bytes.now) }
{
    for byte in bytes {
        put_byte(form, *byte)?;
    }
    form.push(0)?;
    form.push(0)?;
    Ok(())
}

fn put_byte(form: &mut Vec<u8>, byte: u8) -> Result<(), AllocError>
    ensures { OnOk result (form.new.items ≡ form.old.items ++ byte_form byte) }
{
    form.push(byte)?;
    if byte == 0 {
        form.push(NOT_THE_END)?;
    }
    Ok(())
}

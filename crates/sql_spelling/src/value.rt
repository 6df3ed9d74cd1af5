//! Values as literals.

ghost use Rattle.std.specs.Prelude.{◌≡◌, ◌++◌, OnOk, ℕ, ◌<◌};
ghost use Rattle.std.specs.Fmt.{signed_decimal};
ghost use Rattle.sql_lex.specs.Spelling.{doubled};
ghost use Rattle.sql_text.specs.Spelled.{hexadecimal_digit, pairs_of};
ghost use Rattle.row_values.specs.Value.{value_of};
ghost use Rattle.sql_spelling.specs.Text.{value_text};

use itoa::Buffer;
use row_values::Value;
use std::alloc::AllocError;

/// Appends bytes, with each quote twice.
fn put_doubled(out: &mut Vec<u8>, mut bytes: &[u8]) -> Result<(), AllocError>
    ensures { OnOk result (out.new.items ≡ out.old.items ++ doubled bytes.entry.now) }
{
    while let [byte, rest @ ..] = bytes {
        if *byte == b'\'' {
            out.push(b'\'')?;
        }
        out.push(*byte)?;
        bytes = rest;
    }
    Ok(())
}

/// The hexadecimal digit that counts so many.
fn hexadecimal_digit(count: u8) -> u8
    requires { count < 16 }
    ensures { result ≡ hexadecimal_digit count }
{
    if count < 10 { count + 48 } else { count + 55 }
}

/// Appends two hexadecimal digits for each byte.
fn put_pairs(out: &mut Vec<u8>, mut bytes: &[u8]) -> Result<(), AllocError>
    ensures { OnOk result (out.new.items ≡ out.old.items ++ pairs_of bytes.entry.now) }
{
    while let [byte, rest @ ..] = bytes {
        out.push(hexadecimal_digit(*byte / 16))?;
        out.push(hexadecimal_digit(*byte % 16))?;
        bytes = rest;
    }
    Ok(())
}

/// Appends a number in digits, behind a `-` where it is below 0.
fn put_number(out: &mut Vec<u8>, number: i64) -> Result<(), AllocError>
    ensures { OnOk result (out.new.items ≡ out.old.items ++ signed_decimal number) }
{
    let mut buffer = Buffer::new();
    out.extend_from_slice(buffer.format(number).as_bytes())
}

/// Appends a value as a literal, or some of it where memory is wanting.
pub(crate) fn put_value(out: &mut Vec<u8>, value: &Value<'_>) -> Result<(), AllocError>
    ensures { OnOk result (out.new.items ≡ out.old.items ++ value_text (value_of value.now)) }
{
    match value {
        Value::Null => out.extend_from_slice(b"NULL"),
        Value::Number(number) => put_number(out, *number),
        Value::Text(text) => {
            out.push(b'\'')?;
            put_doubled(out, text.as_bytes())?;
            out.extend_from_slice(b"'")
        }
        Value::Bytes(bytes) => {
            out.extend_from_slice(b"X'")?;
            put_pairs(out, bytes)?;
            out.extend_from_slice(b"'")
        }
    }
}

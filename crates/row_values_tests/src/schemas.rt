//! What is a schema, and its bytes.

use row_values::{ReadError, Schema};
use std::alloc::Global;
use test_bytes::bytes_of;
use test_rows::{say, tell};

fn is_copied(alloc: Global, schema: &Schema) -> Option<bool> {
    let copy = schema.copy(alloc).ok()?;
    Some(copy.columns() == schema.columns() && copy.key()[..] == schema.key()[..])
}

/// A schema's length, and its bytes behind 09; whether a copy is the same; and that it is read from its bytes.
pub fn tell_schema(alloc: Global, schema: &Schema, out: &mut Vec<u8>) -> Option<()> {
    let mut bytes = Vec::new(alloc);
    schema.write(&mut bytes).ok()?;
    let length = schema.length();
    let is_copied = is_copied(alloc, schema)?;
    let told = format!(in alloc; "a schema of {length} bytes, copied {is_copied}").ok()?;
    say(out, &told)?;
    tell_read_of(alloc, &bytes, out)
}

// What is read of these bytes with others behind them, and is written again.
fn tell_read_of(alloc: Global, bytes: &[u8], out: &mut Vec<u8>) -> Option<()> {
    let followed = [bytes, b"next".as_slice()].concat(alloc).ok()?;
    match Schema::read(alloc, &followed) {
        Ok((schema, rest)) => tell_again(alloc, &schema, rest, out),
        Err(ReadError::Damaged) => say(out, "damaged"),
        Err(ReadError::NoMemory) => None,
    }
}

fn tell_again(alloc: Global, schema: &Schema, rest: &[u8], out: &mut Vec<u8>) -> Option<()> {
    let mut bytes = Vec::from_slice(alloc, &[9]).ok()?;
    schema.write(&mut bytes).ok()?;
    let length = schema.length();
    let told = format!(in alloc; "read, {length} bytes behind 09:").ok()?;
    tell(alloc, out, &told, &bytes)?;
    tell(alloc, out, "left:", rest)
}

/// The same of any bytes.
pub fn tell_read(alloc: Global, words: &[&str], out: &mut Vec<u8>) -> Option<()> {
    tell_read_of(alloc, &bytes_of(alloc, words).ok()?, out)
}

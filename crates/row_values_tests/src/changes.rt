//! The bytes of changes.

use row_values::ReadError;
use std::alloc::Global;
use tables::Change;
use test_bytes::bytes_of;
use test_rows::{say, tell};

/// What is read of these bytes with others behind them as a change, and is written again behind 090807.
pub fn tell_change(alloc: Global, words: &[&str], out: &mut Vec<u8>) -> Option<()> {
    let bytes = bytes_of(alloc, words).ok()?;
    let followed = [bytes.as_slice(), b"next".as_slice()].concat(alloc).ok()?;
    match Change::read(alloc, &followed) {
        Ok((change, rest)) => tell_again(alloc, &change, rest, out),
        Err(ReadError::Damaged) => say(out, "damaged"),
        Err(ReadError::NoMemory) => None,
    }
}

fn tell_again(alloc: Global, change: &Change, rest: &[u8], out: &mut Vec<u8>) -> Option<()> {
    let mut bytes = Vec::from_slice(alloc, &[9, 8, 7]).ok()?;
    change.write(&mut bytes).ok()?;
    let length = change.length();
    let told = format!(in alloc; "read, {length} bytes behind 090807:").ok()?;
    tell(alloc, out, &told, &bytes)?;
    tell(alloc, out, "left:", rest)
}

// Whether the bytes are damaged.
fn is_damaged(alloc: Global, bytes: &[u8]) -> Option<bool> {
    match Change::read(alloc, bytes) {
        Ok(_) => Some(false),
        Err(ReadError::Damaged) => Some(true),
        Err(ReadError::NoMemory) => None,
    }
}

/// Whether these bytes are damaged, with nothing behind them.
pub fn tell_damage(alloc: Global, words: &[&str], out: &mut Vec<u8>) -> Option<()> {
    let bytes = bytes_of(alloc, words).ok()?;
    say(
        out,
        if is_damaged(alloc, &bytes)? {
            "damaged"
        } else {
            "a change"
        },
    )
}

/// How many of these bytes' fronts are damaged, but for the whole.
pub fn tell_parts_of_change(alloc: Global, words: &[&str], out: &mut Vec<u8>) -> Option<()> {
    let bytes = bytes_of(alloc, words).ok()?;
    let mut damaged = 0_usize;
    for length in 0..bytes.len() {
        if is_damaged(alloc, &bytes[..length])? {
            damaged = damaged.wrapping_add(1);
        }
    }
    let parts = bytes.len();
    say(
        out,
        &format!(in alloc; "{damaged} damaged among {parts} parts").ok()?,
    )
}

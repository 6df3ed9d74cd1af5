//! Bytes by their names.

use std::alloc::{AllocError, Global};
use test_bytes::push_texts;

// The digits that stand behind a name at the front of a line.
fn digits_of<'a>(text: &'a str, name: &str) -> &'a str {
    for line in text.lines() {
        let (first, digits) = line.split_once(' ').unwrap_or(("", ""));
        if first == name {
            return digits;
        }
    }
    ""
}

/// The bytes of these names, one after the other; and all of them so many times.
pub fn bytes_named(
    alloc: Global,
    text: &str,
    names: &str,
    times: usize,
) -> Result<Vec<u8>, AllocError> {
    let mut bytes = Vec::new(alloc);
    for _ in 0..times {
        for name in names.split_ascii_whitespace() {
            push_texts(&mut bytes, &[digits_of(text, name)])?;
        }
    }
    Ok(bytes)
}

//! Texts in code page 500.

use crate::told::tell_bytes;
use ebcdic_500::{byte_of, char_of, decode, encode};
use std::alloc::{AllocError, Global};

/// Tells the bytes of a text.
pub fn tell_encoded(alloc: Global, text: &str, told: &mut String) -> Result<(), AllocError> {
    match encode(alloc, text) {
        Ok(bytes) => tell_bytes(told, &bytes),
        Err(error) => write!(told, "{error:?}"),
    }
}

/// Tells the text of bytes.
pub fn tell_decoded(alloc: Global, bytes: &[u8], told: &mut String) -> Result<(), AllocError> {
    match decode(alloc, bytes) {
        Ok(text) => told.push_str(&text),
        Err(error) => write!(told, "{error:?}"),
    }
}

/// Tells the byte of each character by itself, or .. where it has none.
pub fn tell_each_byte(text: &str, told: &mut String) -> Result<(), AllocError> {
    for character in text.chars() {
        match byte_of(character) {
            Some(byte) => tell_bytes(told, &[byte]),
            None => told.push_str(".."),
        }?;
    }
    Ok(())
}

/// Tells the character of each byte by itself, or (none) where it has none.
pub fn tell_each_char(bytes: &[u8], told: &mut String) -> Result<(), AllocError> {
    for byte in bytes {
        match char_of(*byte) {
            Some(character) => told.push(character),
            None => told.push_str("(none)"),
        }?;
    }
    Ok(())
}

//! Bytes as the tests write them down.

use std::alloc::{AllocError, Global};

fn digit_of(byte: u8) -> Option<u8> {
    match byte {
        b'0'..=b'9' => Some(byte - b'0'),
        b'A'..=b'F' => Some(byte - b'A' + 10),
        b'a'..=b'f' => Some(byte - b'a' + 10),
        _ => None,
    }
}

// A number's digits at the front of a text.
fn count_in(text: &[u8]) -> usize {
    let mut count = 0_usize;
    for byte in text {
        if !byte.is_ascii_digit() {
            return count;
        }
        count = count
            .wrapping_mul(10)
            .wrapping_add(usize::from(*byte - b'0'));
    }
    count
}

fn push_repeated(bytes: &mut Vec<u8>, byte: u8, count: usize) -> Result<(), AllocError> {
    for _ in 1..count {
        bytes.push(byte)?;
    }
    Ok(())
}

fn push_pairs(bytes: &mut Vec<u8>, pairs: &str) -> Result<(), AllocError> {
    let mut high: Option<u8> = None;
    for byte in pairs.bytes() {
        let Some(digit) = digit_of(byte) else {
            continue;
        };
        match high {
            None => high = Some(digit),
            Some(first) => {
                bytes.push(first.wrapping_mul(16).wrapping_add(digit))?;
                high = None;
            }
        }
    }
    Ok(())
}

// Pairs of digits, and behind the last of them *N where it stands N times.
fn push_word(bytes: &mut Vec<u8>, word: &str) -> Result<(), AllocError> {
    let (pairs, count) = word.split_once('*').unwrap_or((word, "1"));
    push_pairs(bytes, pairs)?;
    let last = bytes.last().copied().unwrap_or(0);
    push_repeated(bytes, last, count_in(count.as_bytes()))
}

/// Appends the bytes of these texts, one after the other: pairs of hexadecimal digits, and XX*N for the
/// byte XX, N times, before a blank or the end. Where memory is refused, some bytes may be appended.
pub fn push_texts(bytes: &mut Vec<u8>, texts: &[&str]) -> Result<(), AllocError> {
    for text in texts {
        for word in text.split_ascii_whitespace() {
            push_word(bytes, word)?;
        }
    }
    Ok(())
}

/// The bytes of these texts, as `push_texts` appends them.
pub fn bytes_of(alloc: Global, texts: &[&str]) -> Result<Vec<u8>, AllocError> {
    let mut bytes = Vec::new(alloc);
    push_texts(&mut bytes, texts)?;
    Ok(bytes)
}

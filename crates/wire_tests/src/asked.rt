//! What is asked, a line each.

use crate::code_points::tell_code_points;
use crate::frames::{tell_fed, tell_heard};
use crate::objects::{
    tell_contained, tell_found, tell_nested, tell_object, tell_outline, tell_part,
};
use crate::pages::{tell_decoded, tell_each_byte, tell_each_char, tell_encoded};
use crate::written::{tell_format, tell_written, tell_written_in_place};
use dss_frames::Segments;
use std::alloc::{AllocError, Global};
use test_bytes::bytes_of;

// A text stands behind ', and all else is digits.
fn bytes_behind(alloc: Global, rest: &str) -> Result<Vec<u8>, AllocError> {
    match rest.strip_prefix('\'') {
        Some(text) => Vec::from_slice(alloc, text.as_bytes()),
        None => bytes_of(alloc, &[rest]),
    }
}

// In an object that bytes begin with, or among those that they are; a code point of two bytes stands in front.
fn find(verb: &str, bytes: &[u8], told: &mut String) -> Result<(), AllocError> {
    let [high, low, text @ ..] = bytes else {
        return told.push_str("nothing is asked");
    };
    let code = u16::from_be_bytes([*high, *low]);
    if verb == "part" {
        tell_part(text, code, told)
    } else {
        tell_found(text, code, told)
    }
}

fn ask(
    alloc: Global,
    segments: &mut Segments,
    verb: &str,
    bytes: &[u8],
    told: &mut String,
) -> Result<(), AllocError> {
    match verb {
        "encode" => tell_encoded(alloc, str::from_utf8(bytes).unwrap_or(""), told),
        "decode" => tell_decoded(alloc, bytes, told),
        "bytes" => tell_each_byte(str::from_utf8(bytes).unwrap_or(""), told),
        "chars" => tell_each_char(bytes, told),
        "code-points" => tell_code_points(told),
        "object" => tell_object(bytes, told),
        "outline" => tell_outline(bytes, told),
        "find" | "part" => find(verb, bytes, told),
        "nested" => tell_nested(alloc, told),
        "contain" => tell_contained(alloc, bytes, told),
        "hear" => tell_heard(alloc, bytes, told),
        "write" => tell_written(alloc, 0, b"", bytes, told),
        "write-behind" => tell_written(alloc, 100_000, b"\x07", bytes, told),
        "write-in-place" => tell_written_in_place(alloc, bytes, told),
        "formats" => tell_format(bytes, told),
        "feed" => tell_fed(segments, bytes, told),
        _ => {
            segments.restart(alloc);
            told.push_str("all is forgotten")
        }
    }
}

/// Tells a line, and what it comes to where it does not begin with #.
pub fn tell(
    alloc: Global,
    segments: &mut Segments,
    line: &str,
    told: &mut String,
) -> Result<(), AllocError> {
    if line.starts_with('#') {
        return write!(told, "{line}\n");
    }
    write!(told, "{line}\n  ")?;
    let (verb, rest) = line.split_once(' ').unwrap_or((line, ""));
    ask(alloc, segments, verb, &bytes_behind(alloc, rest)?, told)?;
    told.push_str("\n")
}

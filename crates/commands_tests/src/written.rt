//! Commands as a line spells them: a code point, and behind it parameters and, behind an upright line, data objects, each as its code point, a
//! colon and its data in digits; or = and all bytes.

use ddm_objects::put;
use dss_frames::{Format, write_dss};
use std::alloc::{AllocError, Global};
use test_bytes::bytes_of;

// An object of a code point of two bytes and the data behind it.
fn put_object(out: &mut Vec<u8>, bytes: &[u8]) -> Result<(), AllocError> {
    match bytes {
        [high, low, value @ ..] => put(out, u16::from_be_bytes([*high, *low]), value),
        _ => Ok(()),
    }
}

fn put_items(alloc: Global, out: &mut Vec<u8>, words: &str) -> Result<(), AllocError> {
    for word in words.split_ascii_whitespace() {
        put_object(out, &bytes_of(alloc, &[word])?)?;
    }
    Ok(())
}

// A code point, and the items that stand in its object.
fn object_of(alloc: Global, text: &str) -> Result<Vec<u8>, AllocError> {
    let (code, items) = text.split_once(' ').unwrap_or((text, ""));
    let mut object = bytes_of(alloc, &[code])?;
    put_items(alloc, &mut object, items)?;
    Ok(object)
}

// A request DSS.
fn write_request(
    alloc: Global,
    out: &mut Vec<u8>,
    format: u8,
    text: &str,
) -> Result<(), AllocError> {
    let mut request = Vec::new(alloc);
    put_object(&mut request, &object_of(alloc, text)?)?;
    write_dss(out, Format { byte: format }, 1, &request)
}

// Data objects stand in a DSS of their own.
fn write_objects(alloc: Global, out: &mut Vec<u8>, words: &str) -> Result<(), AllocError> {
    let mut objects = Vec::new(alloc);
    put_items(alloc, &mut objects, words)?;
    write_dss(out, Format { byte: 0x03 }, 1, &objects)
}

fn write_command(alloc: Global, out: &mut Vec<u8>, text: &str) -> Result<(), AllocError> {
    match text.split_once('|') {
        Some((request, objects)) => {
            write_request(alloc, out, 0x51, request)?;
            write_objects(alloc, out, objects)
        }
        None => write_request(alloc, out, 0x01, text),
    }
}

/// The DSSs of a command.
pub fn command_of(alloc: Global, text: &str) -> Result<Vec<u8>, AllocError> {
    if let Some(bytes) = text.strip_prefix('=') {
        return bytes_of(alloc, &[bytes]);
    }
    let mut bytes = Vec::new(alloc);
    write_command(alloc, &mut bytes, text)?;
    Ok(bytes)
}

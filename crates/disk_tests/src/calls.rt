//! Calls of any disk.

use drda_disk::{Disk, DiskFault, write_through};
use std::alloc::{AllocError, Global};
use std::fmt::{Debug, Display};
use test_bytes::bytes_of;

/// The number that a text begins with, and the text behind it.
pub fn number_in(text: &str) -> (usize, &str) {
    let (word, rest) = text.split_once(' ').unwrap_or((text, ""));
    (word.parse::<usize>().unwrap_or(0), rest)
}

/// The first four words of a text as numbers; 0 for each that is none or is not there.
pub fn numbers_in(text: &str) -> [usize; 4] {
    let mut numbers = [0; 4];
    for (number, word) in numbers.iter_mut().zip(text.split_ascii_whitespace()) {
        *number = word.parse::<usize>().unwrap_or(0);
    }
    numbers
}

/// Tells what a call answers.
pub fn tell<T: Debug>(out: &mut String, answer: &T) -> Result<(), AllocError> {
    writeln!(out, "  {answer:?}")
}

/// Tells a text.
pub fn tell_text(out: &mut String, text: &str) -> Result<(), AllocError> {
    writeln!(out, "  {text}")
}

/// Tells whether something is so.
pub fn tell_is(out: &mut String, what: &str, is_so: bool) -> Result<(), AllocError> {
    writeln!(out, "  {what} {is_so}")
}

/// Tells two values by their names.
pub fn tell_both<A: Display + Copy, B: Display + Copy>(
    out: &mut String,
    (name, value): (&str, A),
    (other_name, other): (&str, B),
) -> Result<(), AllocError> {
    writeln!(out, "  {name} {value}, {other_name} {other}")
}

/// The disk's first 16 bytes.
pub fn image<D: Disk>(disk: &mut D) -> Result<[u8; 16], DiskFault> {
    if disk.size() < 16 {
        return Err(DiskFault);
    }
    let mut bytes = [0u8; 16];
    disk.read_at(0, &mut bytes)?;
    Ok(bytes)
}

fn change_bytes<D: Disk>(
    disk: &mut D,
    verb: &str,
    at: usize,
    bytes: &[u8],
) -> Result<(), DiskFault> {
    if at > disk.size() || bytes.len() > disk.size() - at {
        return Err(DiskFault);
    }
    match verb {
        "sync" => disk.sync(),
        "through" => write_through(disk, at, bytes),
        _ => disk.write_at(at, bytes),
    }
}

/// Syncs, or writes the bytes behind a place, by `through` with the sync behind them. A range that does not lie on the disk is a fault
/// here.
pub fn change<D: Disk>(
    alloc: Global,
    disk: &mut D,
    verb: &str,
    rest: &str,
) -> Result<Result<(), DiskFault>, AllocError> {
    let (at, bytes) = number_in(rest);
    let bytes = bytes_of(alloc, &[bytes])?;
    Ok(change_bytes(disk, verb, at, &bytes))
}

// Flushes from outside, with bytes put meanwhile where there are some, and settles: tells what the flush says, and what settling answers.
fn tell_flush<D: Disk>(
    alloc: Global,
    disk: &mut D,
    rest: &str,
    out: &mut String,
) -> Result<(), AllocError> {
    let flusher = disk.flusher();
    if !rest.is_empty() {
        tell(out, &change(alloc, disk, "put", rest)?)?;
    }
    let flushed = flusher.flush();
    tell_is(out, "failed", flushed.is_failed())?;
    tell(out, &flushed)?;
    tell(out, &disk.settle(flushed))
}

/// Tells what a call answers: `read` the first 16 bytes, `size` the number of bytes and of failures, and else whether the change was made:
/// `sync`, and `put` and `through` with a place and bytes behind them. `try` puts bytes too, and tells whether it is counted where it
/// fails; `flush` flushes from outside and settles.
pub fn tell_call<D: Disk>(
    alloc: Global,
    disk: &mut D,
    verb: &str,
    rest: &str,
    out: &mut String,
) -> Result<(), AllocError> {
    let failures = disk.failures();
    match verb {
        "read" => tell(out, &image(disk)),
        "size" => tell_both(out, ("bytes", disk.size() as u64), ("failures", failures)),
        "try" => {
            let done = change(alloc, disk, verb, rest)?;
            let counted = failures.saturating_add(u64::from(done.is_err()));
            tell_is(out, "counted", disk.failures() == counted)
        }
        "flush" => tell_flush(alloc, disk, rest, out),
        _ => tell(out, &change(alloc, disk, verb, rest)?),
    }
}

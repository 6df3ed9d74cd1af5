//! Bytes as they are written down.

use std::alloc::Global;

// One byte that stands so many times.
fn push_run(alloc: Global, out: &mut Vec<u8>, byte: u8, count: usize) -> Option<()> {
    let text = match count {
        0 => return Some(()),
        1 => format!(in alloc; "{byte:02X}").ok()?,
        2 => format!(in alloc; "{byte:02X}{byte:02X}").ok()?,
        _ => format!(in alloc; "{byte:02X}*{count} ").ok()?,
    };
    out.extend_from_slice(text.as_bytes()).ok()
}

/// Appends pairs of digits, with *N behind one that stands N times, where that is three times or more.
pub fn push_shown(alloc: Global, out: &mut Vec<u8>, bytes: &[u8]) -> Option<()> {
    let mut last = 0;
    let mut count = 0_usize;
    for byte in bytes {
        if count > 0 && *byte != last {
            push_run(alloc, out, last, count)?;
            count = 0;
        }
        last = *byte;
        count = count.wrapping_add(1);
    }
    push_run(alloc, out, last, count)
}

/// A line: what is told, and then these bytes.
pub fn tell(alloc: Global, out: &mut Vec<u8>, told: &str, bytes: &[u8]) -> Option<()> {
    out.extend_from_slice(b"  ").ok()?;
    out.extend_from_slice(told.as_bytes()).ok()?;
    out.push(b' ').ok()?;
    push_shown(alloc, out, bytes)?;
    out.push(b'\n').ok()
}

/// A line that tells this of them.
pub fn say(out: &mut Vec<u8>, told: &str) -> Option<()> {
    out.extend_from_slice(b"  ").ok()?;
    out.extend_from_slice(told.as_bytes()).ok()?;
    out.push(b'\n').ok()
}

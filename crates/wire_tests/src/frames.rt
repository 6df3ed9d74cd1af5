//! Streams as the standard spells them, however they are cut.

use crate::told::tell_bytes;
use dss_frames::{Dss, Group, Segments};
use std::alloc::{AllocError, Global};

fn tell_dss(dss: &Dss<'_>, correlator: u16, told: &mut String) -> Result<(), AllocError> {
    let format = dss.format.byte;
    write!(told, ", {format:02X} {correlator:04X} ")?;
    tell_bytes(told, dss.contents)
}

// Each DSS is looked up by its place and found by walking, and nothing is left behind the last one.
fn tell_group(group: &Group<'_>, told: &mut String) -> Result<(), AllocError> {
    told.push_str("command")?;
    let mut rest = *group;
    for i in 0..group.count() {
        if let (Some(dss), Some((first, others))) = (group.dss(i), rest.split_first()) {
            tell_dss(&dss, first.correlator, told)?;
            rest = others;
        }
    }
    told.push_str(if rest.is_empty() {
        "; "
    } else {
        ", and more; "
    })
}

// Tells what stands in front of the bytes that are held, at most so many commands and one: commands, each with its DSSs, and a fault, with
// its code and correlator. Says whether bytes may still come.
fn hear_held(segments: &mut Segments, most: usize, told: &mut String) -> Result<bool, AllocError> {
    for _ in 0..=most {
        match segments.next() {
            Ok(None) => return Ok(true),
            Ok(Some(group)) => tell_group(&group, told)?,
            Err(fault) => {
                let (code, correlator) = (fault.code, fault.correlator);
                let number = code.synerrcd();
                write!(told, "fault {number:02X} {code:?} of {correlator:04X}")?;
                return Ok(false);
            }
        }
    }
    Ok(true)
}

// Tells what is heard of a text: command by command, or where its first piece has so many bytes, and the others so many each.
fn hear(
    alloc: Global,
    text: &[u8],
    pieces: Option<(usize, usize)>,
    told: &mut String,
) -> Result<(), AllocError> {
    let mut segments = Segments::new(alloc);
    let mut left = text;
    let (mut size, others) = pieces.unwrap_or((0, 0));
    for _ in 0..=text.len() {
        let piece = left.get(..size).unwrap_or(left);
        let (count, most) = match pieces {
            Some(_) => (segments.feed(piece), piece.len()),
            None => (segments.feed_command(left), 0),
        };
        left = &left[count..];
        if !hear_held(&mut segments, most, told)? || left.is_empty() {
            return Ok(());
        }
        size = others;
    }
    Ok(())
}

/// A first piece's length and the others', over a short text and over a DSS that is as long as any.
const SHORT: [(usize, usize); 3] = [(0, 1), (0, 2), (0, 3)];

const LONG: [(usize, usize); 5] = [
    (1_048_576, 1),
    (0, 1),
    (32_767, 1),
    (32_768, 4_000),
    (3, 32_767),
];

// The pieces of a number; behind those, two, cut one byte further on each time.
fn pieces(number: usize, length: usize) -> (usize, usize) {
    let some: &[(usize, usize)] = match length {
        0..=99 => &SHORT,
        100..=1_048_576 => &LONG,
        _ => &[(0, 4_000)],
    };
    match some.get(number) {
        Some(pieces) => *pieces,
        None => (number.saturating_sub(some.len()), length),
    }
}

/// Tells what is heard of a text command by command, if it is the same in any pieces: a short one in two, wherever it is cut, and in pieces
/// of a byte to three.
pub fn tell_heard(alloc: Global, text: &[u8], told: &mut String) -> Result<(), AllocError> {
    let mut one = String::new(alloc);
    hear(alloc, text, None, &mut one)?;
    let cuts = if text.len() < 100 { text.len() } else { 0 };
    for number in 0..cuts.saturating_add(5) {
        let mut other = String::new(alloc);
        hear(alloc, text, Some(pieces(number, text.len())), &mut other)?;
        if other != one {
            return write!(told, "{one} or {other}");
        }
    }
    told.push_str(&one)
}

/// Tells how many bytes of a piece are taken, whether what stands in front then is a fault, and how many are taken of the piece again,
/// command by command.
pub fn tell_fed(
    segments: &mut Segments,
    piece: &[u8],
    told: &mut String,
) -> Result<(), AllocError> {
    let count = segments.feed(piece);
    let is_well = segments.next().is_ok();
    let again = segments.feed_command(piece);
    write!(told, "{count} taken, well {is_well}, {again} taken again")
}

//! Descriptors and rows with a byte changed, and fronts of them.

use crate::parameters::push_read;
use std::alloc::Global;

/// How many were tried, and how many of them were malformed.
pub type Counts = (u32, u32);

fn counted(alloc: Global, counts: Counts, descriptor: &[u8], row: &[u8]) -> Option<Counts> {
    let mut told = Vec::new(alloc);
    push_read(alloc, &mut told, descriptor, row)?;
    let (tried, malformed) = counts;
    Some((
        tried.wrapping_add(1),
        malformed.wrapping_add(u32::from(told.as_slice() == b"malformed".as_slice())),
    ))
}

// The same bytes with another one at a place.
fn changed(alloc: Global, bytes: &[u8], at: usize, byte: u8) -> Option<Vec<u8>> {
    let mut other = Vec::from_slice(alloc, bytes).ok()?;
    if let Some(it) = other.get_mut(at) {
        *it = byte;
    }
    Some(other)
}

/// Of a descriptor whose bytes are changed, each in turn.
pub fn of_descriptors(alloc: Global, descriptor: &[u8], row: &[u8]) -> Option<Counts> {
    let mut counts = (0, 0);
    for at in 0..descriptor.len() {
        for byte in [0x00, 0x7F, 0xFF] {
            counts = counted(alloc, counts, &changed(alloc, descriptor, at, byte)?, row)?;
        }
    }
    Some(counts)
}

/// Of a row whose bytes are changed, each in turn.
pub fn of_rows(alloc: Global, descriptor: &[u8], row: &[u8]) -> Option<Counts> {
    let mut counts = (0, 0);
    for at in 0..row.len() {
        for byte in [0x00, 0x7F, 0xFF] {
            counts = counted(alloc, counts, descriptor, &changed(alloc, row, at, byte)?)?;
        }
    }
    Some(counts)
}

/// Of each front of a descriptor.
pub fn of_descriptor_fronts(alloc: Global, descriptor: &[u8], row: &[u8]) -> Option<Counts> {
    let mut counts = (0, 0);
    for at in 0..descriptor.len() {
        counts = counted(alloc, counts, descriptor.get(..at)?, row)?;
    }
    Some(counts)
}

/// Of each front of a row.
pub fn of_row_fronts(alloc: Global, descriptor: &[u8], row: &[u8]) -> Option<Counts> {
    let mut counts = (0, 0);
    for at in 0..row.len() {
        counts = counted(alloc, counts, descriptor, row.get(..at)?)?;
    }
    Some(counts)
}

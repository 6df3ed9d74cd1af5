//! How many rows a block takes.

use crate::fixtures::rows;
use sqlam_replies::{block, qrydta};
use std::alloc::Global;
use std::test::Fail;

/// The lengths of V, where the block begins, its size, and its number of rows. A row has 9 bytes more
/// than V.
const BLOCKS: [(&[u16], usize, usize, usize); 14] = [
    (&[247, 247], 0, 512, 2),
    (&[247, 248], 0, 512, 1),
    (&[247, 248], 1, 512, 1),
    (&[247, 248], 2, 512, 0),
    (&[247, 248], 0, 511, 1),
    (&[247, 248], 0, 513, 2),
    (&[247, 248], 0, 514, 2),
    (&[504], 0, 512, 1),
    (&[504], 0, 513, 1),
    (&[600, 0], 0, 512, 1),
    (&[600, 0], 1, 512, 1),
    (&[], 0, 512, 0),
    (&[0], 7, 512, 0),
    (&[0, 0, 0, 600, 0], 0, 512, 3),
];

#[test]
fn blocks_are_the_longest_lists(rt: HostRuntime) -> Result<(), Fail> {
    for (lengths, from, size, count) in BLOCKS {
        let rows = rows(rt.alloc(), &[0, 1], lengths)?;
        assert_eq!(rt; block(&rows, from, size), count, "{from} {size}");
    }
    Ok(())
}

/// How many bytes QRYDTA has with a block that begins at this place.
fn data_length(alloc: Global, lengths: &[u16], from: usize, size: usize) -> Result<usize, Fail> {
    let rows = rows(alloc, &[0, 1], lengths)?;
    let count = block(&rows, from, size);
    let mut out = Vec::new(alloc);
    if count > rows.len() || from > rows.len() - count {
        return Ok(0);
    }
    qrydta(&mut out, &rows, from, count)?;
    Ok(out.len())
}

#[test]
fn blocks_are_sent(rt: HostRuntime) -> Result<(), Fail> {
    let alloc = rt.alloc();
    assert_eq!(rt; data_length(alloc, &[247, 247], 0, 512)?, 516);
    assert_eq!(rt; data_length(alloc, &[247, 248], 0, 512)?, 260);
    assert_eq!(rt; data_length(alloc, &[247, 248], 1, 512)?, 261);
    Ok(())
}

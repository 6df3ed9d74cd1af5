//! The bytes of claims.

use crate::claims::{Parts, claim};
use std::alloc::{AllocError, Global};
use unit_locks::Access::{Read, Write};
use unit_locks::{Claim, ReadError};

const WRITTEN: [(Parts, &'static [u8]); 5] = [
    ((Read, b"T", None), b"\x00\x01T\x00"),
    ((Write, b"*", None), b"\x01\x01*\x00"),
    ((Write, b"", Some(b"")), b"\x01\x00\x01\x00\x00"),
    (
        (Read, b"SHOP", Some(b"\x00\x80\x00\x00\x01")),
        b"\x00\x04SHOP\x01\x00\x05\x00\x80\x00\x00\x01",
    ),
    ((Write, b"\xff", Some(b"K")), b"\x01\x01\xff\x01\x00\x01K"),
];

fn is_read(alloc: Global, parts: &Parts, bytes: &[u8]) -> Result<bool, AllocError> {
    let claim = claim(alloc, parts)?;
    let mut text = Vec::from_slice(alloc, bytes)?;
    text.push(7)?;
    match Claim::from_bytes(alloc, text.as_slice()) {
        Ok((read, rest)) => Ok(
            claim.to_bytes() == bytes
                && read.to_bytes() == bytes
                && read.access() == parts.0
                && read.table() == parts.1
                && rest == [7].as_slice(),
        ),
        Err(ReadError::NoMemory) => Err(AllocError),
        Err(ReadError::Damaged) => Ok(false),
    }
}

#[test]
fn claims_are_written_and_read_back(rt: HostRuntime) -> Result<(), AllocError> {
    for (parts, bytes) in &WRITTEN {
        assert!(rt; is_read(rt.alloc(), parts, bytes)?, "{bytes:?}");
    }
    Ok(())
}

fn is_damaged(alloc: Global, bytes: &[u8]) -> bool {
    match Claim::from_bytes(alloc, bytes) {
        Err(ReadError::Damaged) => true,
        _ => false,
    }
}

#[test]
fn a_part_of_a_claim_is_damaged(rt: HostRuntime) {
    for (_, bytes) in &WRITTEN {
        for length in 0..bytes.len() {
            assert!(rt;
                is_damaged(rt.alloc(), &bytes[..length]),
                "{length} of {bytes:?}"
            );
        }
    }
}

const DAMAGED: [&'static [u8]; 5] = [
    b"\x02\x01T\x00",
    b"\xff\x01T\x00",
    b"\x00\x01T\x02\x00\x00",
    b"\x00\x01T\xff\x00\x00",
    b"\x00\x01T\x01\x00\x02K",
];

#[test]
fn other_marks_and_lengths_are_damaged(rt: HostRuntime) {
    for bytes in &DAMAGED {
        assert!(rt; is_damaged(rt.alloc(), bytes), "{bytes:?}");
    }
}

//! When two claims clash.

use crate::claims::{Parts, claim};
use std::alloc::{AllocError, Global};
use unit_locks::Access::{Read, Write};

fn clash(alloc: Global, one: &Parts, other: &Parts) -> Result<(bool, bool), AllocError> {
    let one = claim(alloc, one)?;
    let other = claim(alloc, other)?;
    Ok((one.clashes_with(&other), other.clashes_with(&one)))
}

const PAIRS: [(Parts, Parts, bool); 12] = [
    ((Read, b"T", None), (Read, b"T", None), false),
    ((Read, b"T", None), (Write, b"T", None), true),
    ((Write, b"T", None), (Write, b"T", None), true),
    ((Write, b"T", None), (Write, b"U", None), false),
    ((Read, b"T", Some(b"1")), (Read, b"T", Some(b"1")), false),
    ((Read, b"T", Some(b"1")), (Write, b"T", Some(b"1")), true),
    ((Write, b"T", Some(b"1")), (Write, b"T", Some(b"2")), false),
    ((Read, b"T", None), (Write, b"T", Some(b"1")), true),
    ((Read, b"T", None), (Read, b"T", Some(b"1")), false),
    ((Write, b"T", None), (Read, b"T", Some(b"")), true),
    (
        (Write, b"TA", Some(b"B")),
        (Write, b"T", Some(b"AB")),
        false,
    ),
    ((Write, b"T", None), (Write, b"t", None), false),
];

#[test]
fn clash_where_one_writes_and_the_scopes_overlap(rt: HostRuntime) -> Result<(), AllocError> {
    for (one, other, want) in &PAIRS {
        assert_eq!(rt; clash(rt.alloc(), one, other)?, (*want, *want));
    }
    Ok(())
}

//! Whether the changes of units in doubt have their places.

use crate::journals::{
    ANOTHER, CLAIMED, COMPLETED, CREATED, NOTHING, PREPARED, Records, UNCLAIMED, checkpoint,
    records,
};
use recovery::find_places;
use row_values::ReadError;
use std::alloc::Global;
use unit_journal::Kind;

// U is created.
const OTHER_TABLE: (Kind, &'static [u8]) = (
    Kind::Commit,
    &[0, 0, 0, 1, 1, 1, b'U', 1, 1, b'A', 2, 0, 0, 0, 1, 0],
);

const SHORT: (Kind, &'static [u8]) = (Kind::Prepare, &[0, 0, 0, 7, 0, 0, 0, 1]);

// Records whose tables are a checkpoint, those of branches in doubt, and whether each has its places there.
const CASES: [(Records, Records, bool); 12] = [
    (&[], &[], true),
    (&[CREATED], &[PREPARED], true),
    (&[CREATED], &[ANOTHER, PREPARED], true),
    (&[CREATED], &[CLAIMED, PREPARED], true),
    (&[CREATED], &[CLAIMED, UNCLAIMED], true),
    (&[CREATED, OTHER_TABLE], &[PREPARED], true),
    (&[CREATED, OTHER_TABLE], &[CLAIMED], false),
    (&[CREATED, OTHER_TABLE], &[PREPARED, CLAIMED], false),
    (&[NOTHING], &[ANOTHER, PREPARED], false),
    (&[CREATED], &[PREPARED, SHORT], false),
    (&[NOTHING], &[COMPLETED], true),
    (&[NOTHING], &[COMPLETED, PREPARED], false),
];

// None without memory.
fn have_places(
    alloc: Global,
    before: &[(Kind, &'static [u8])],
    said: &[(Kind, &'static [u8])],
) -> Option<bool> {
    let prepares = records(alloc, said)?;
    let store = checkpoint(alloc, before)?;
    match find_places(alloc, &store, prepares.as_slice()) {
        Ok(()) => Some(true),
        Err(ReadError::Damaged) => Some(false),
        Err(ReadError::NoMemory) => None,
    }
}

// Asked once more where memory is refused, so that the test passes with any one allocation failing.
fn told(
    alloc: Global,
    before: &[(Kind, &'static [u8])],
    said: &[(Kind, &'static [u8])],
) -> Option<bool> {
    match have_places(alloc, before, said) {
        Some(told) => Some(told),
        None => have_places(alloc, before, said),
    }
}

#[test]
fn prepares_have_places_or_are_damaged(rt: HostRuntime) {
    let mut number: usize = 0;
    for (before, said, want) in &CASES {
        assert_eq!(rt; told(rt.alloc(), before, said), Some(*want), "{number}");
        number = number.saturating_add(1);
    }
}

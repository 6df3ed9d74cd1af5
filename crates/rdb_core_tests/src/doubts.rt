//! What is told of units in doubt.

use crate::bench::Bench;
use crate::fixtures::{CREATE, INSERT, ask, numbered, rows_of};
use std::alloc::Global;
use std::test::Fail;
use xa_calls::{Ending, Verb, Xid};

// A branch creates a table and puts a row, and is prepared: the codes and the rows of that, and what is told of it and of another.
fn in_doubt(
    alloc: Global,
    xid: Xid,
    other: Xid,
) -> ([Option<i32>; 3], [Option<usize>; 2], [(usize, bool); 2]) {
    let mut bench = Bench::new(alloc, 1);
    let started = ask(&mut bench, 1, Verb::Start, xid);
    let rows = [
        rows_of(alloc, &mut bench, CREATE),
        rows_of(alloc, &mut bench, INSERT),
    ];
    let ended = ask(&mut bench, 1, Verb::End(Ending::Kept), xid);
    let prepared = ask(&mut bench, 1, Verb::Prepare, xid);
    (
        [started, ended, prepared],
        rows,
        [bench.told(&xid), bench.told(&other)],
    )
}

#[test]
fn tells_changes_and_claims(rt: HostRuntime) -> Result<(), Fail> {
    let (codes, rows, told) = in_doubt(rt.alloc(), numbered(1)?, numbered(2)?);
    assert_eq!(rt; codes, [Some(0), Some(0), Some(0)]);
    assert_eq!(rt; rows, [Some(0), Some(1)]);
    assert!(rt; told == [(2, true), (0, false)]);
    Ok(())
}

//! Branches that are decided heuristically.

use crate::bench::Bench;
use crate::fixtures::{ask, numbered, put_in_doubt, rows_of};
use core_calls::Answer;
use std::alloc::Global;
use std::test::Fail;
use unit_records::RecordError;
use xa_calls::{Request, Verb, Xid};
use xa_manager::Decision;

// Whether a heuristic decision of a prepared branch is refused since its record has no room.
fn is_refused(bench: &mut Bench, xid: &Xid, decision: Decision) -> bool {
    matches!(
        bench.decide(xid, decision),
        Some(Err(RecordError::Full { need: 9, room: 8 }))
    )
}

// How many XIDs are told in doubt.
fn listed(bench: &mut Bench) -> Option<usize> {
    match bench.xa(1, &Ok(Request::Recover)) {
        Answer::InDoubt(xids) => Some(xids.as_slice().len()),
        _ => None,
    }
}

// What a branch is answered that is to be committed, rolled back, forgotten, and forgotten again.
fn codes(bench: &mut Bench, xid: Xid) -> [Option<i32>; 4] {
    [
        ask(bench, 2, Verb::Commit, xid),
        ask(bench, 2, Verb::RollBack, xid),
        ask(bench, 2, Verb::Forget, xid),
        ask(bench, 2, Verb::Forget, xid),
    ]
}

// A branch has put a row. The code of its prepare; whether a decision is refused whose record has no room, what its unit has then, and
// how many rows another unit finds.
fn kept(
    alloc: Global,
    bench: &mut Bench,
    xid: Xid,
    decision: Decision,
) -> (Option<i32>, bool, (usize, bool), Option<usize>) {
    let prepared = put_in_doubt(alloc, bench, xid);
    let refused = is_refused(bench, &xid, decision);
    (
        prepared,
        refused,
        bench.told(&xid),
        rows_of(alloc, bench, "DELETE FROM T"),
    )
}

// Whether the branch is decided once two records are made, what its unit has then, how many rows another unit finds, and how many
// XIDs are listed.
fn decided(
    alloc: Global,
    bench: &mut Bench,
    xid: Xid,
    decision: Decision,
) -> (bool, (usize, bool), Option<usize>, Option<usize>) {
    bench.begin_anew(2);
    let is_done = matches!(bench.decide(&xid, decision), Some(Ok(())));
    let told = bench.told(&xid);
    let rows = rows_of(alloc, bench, "DELETE FROM T");
    (is_done, told, rows, listed(bench))
}

// A decision whose record is refused leaves a branch prepared, and its unit as it was. Once the record is made the claims are free and
// the row is there, or not; the transaction manager is told the outcome, and the XID is listed, until it forgets the branch, which makes
// a record too.
#[test]
fn tells_the_outcome_until_it_is_forgotten(rt: HostRuntime) -> Result<(), Fail> {
    let xid = numbered(1)?;
    for (decision, code, rows) in [(Decision::Commit, 7, 1), (Decision::RollBack, 6, 0)] {
        let mut bench = Bench::new(rt.alloc(), 2);
        let kept = kept(rt.alloc(), &mut bench, xid, decision);
        let decided = decided(rt.alloc(), &mut bench, xid, decision);
        let codes = codes(&mut bench, xid);
        let left = (listed(&mut bench), bench.counts()[0]);
        drop(bench);
        assert!(rt; kept == (Some(0), true, (1, true), None));
        assert!(rt; decided == (true, (0, false), Some(rows), Some(1)));
        assert_eq!(rt; codes, [Some(code), Some(code), Some(0), Some(-4)]);
        assert!(rt; left == (Some(0), 0));
    }
    Ok(())
}

// How many XIDs are listed where a branch is restored so, and the code of its commit.
fn restored(
    alloc: Global,
    xid: Xid,
    outcome: Option<Decision>,
) -> Option<(Option<usize>, Option<i32>)> {
    let mut bench = Bench::restored(alloc, xid, outcome)?;
    let listed = listed(&mut bench);
    Some((listed, ask(&mut bench, 1, Verb::Commit, xid)))
}

// A branch that is restored is prepared, or was decided so, which its transaction manager is told.
#[test]
fn restores_what_was_decided(rt: HostRuntime) -> Result<(), Fail> {
    let xid = numbered(1)?;
    let found = [
        (None, 0),
        (Some(Decision::Commit), 7),
        (Some(Decision::RollBack), 6),
    ];
    for (outcome, code) in found {
        assert!(rt; restored(rt.alloc(), xid, outcome) == Some((Some(1), Some(code))));
    }
    Ok(())
}

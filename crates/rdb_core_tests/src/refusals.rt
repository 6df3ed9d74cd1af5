//! Records that are refused.

use crate::bench::Bench;
use crate::fixtures::{CREATE, INSERT, rows_for};
use ahead_view::ReadError;
use core_calls::Answer;
use std::alloc::Global;
use std::test::Fail;
use unit_records::{Asked, DeviceFailed, GroupCall};

// Whether a row is put, its commit has no room, the row is there still, and it is rolled back.
fn is_kept(alloc: Global, bench: &mut Bench) -> bool {
    let inserted = bench.ask(alloc, 1, INSERT);
    let committed = bench.commit(1);
    let again = bench.ask(alloc, 1, INSERT);
    let rolled_back = bench.roll_back(1);
    matches!(inserted, Some(Answer::Count(1)))
        && matches!(committed, Answer::Full { need: 9, room: 8 })
        && matches!(again, Some(Answer::Refused(_)))
        && matches!(rolled_back, Answer::Done)
}

// A commit whose record is refused changes nothing: the unit still has its change, which no committed
// table shows once it is rolled back.
#[test]
fn keeps_the_unit_where_its_record_is_refused(rt: HostRuntime) -> Result<(), Fail> {
    let mut bench = Bench::new(rt.alloc(), 1);
    let created = matches!(bench.ask(rt.alloc(), 1, CREATE), Some(Answer::Count(0)));
    let committed = matches!(bench.commit(1), Answer::Done);
    let kept = [
        is_kept(rt.alloc(), &mut bench),
        is_kept(rt.alloc(), &mut bench),
    ];
    let left = bench.counts()[0];
    drop(bench);
    assert!(rt; created && committed);
    assert!(rt; kept == [true, true]);
    assert_eq!(rt; left, 0);
    Ok(())
}

// Commits of two conversations.
fn commits() -> [GroupCall; 2] {
    [
        GroupCall {
            conversation: 1,
            asked: Asked::Commit,
        },
        GroupCall {
            conversation: 2,
            asked: Asked::Commit,
        },
    ]
}

// A group is laid ahead where its calls may be made together, and all is as it was: each commits alone then, with a record.
#[test]
fn lays_a_group_ahead(rt: HostRuntime) -> Result<(), Fail> {
    let mut bench = Bench::new(rt.alloc(), 3);
    let commits = commits();
    let none = bench.lay_ahead(&commits);
    let created = rows_for(rt.alloc(), &mut bench, 1, CREATE);
    drop(bench.commit(1));
    let one = rows_for(rt.alloc(), &mut bench, 1, INSERT);
    let other = rows_for(rt.alloc(), &mut bench, 2, "INSERT INTO T VALUES (2)");
    let laid = bench.lay_ahead(&commits);
    bench.refuse_reads(Some(ReadError::DeviceFailed));
    let failed = bench.lay_ahead(&commits);
    bench.refuse_reads(None);
    bench.begin_anew(1);
    let wide = bench.lay_ahead(&commits);
    let committed = matches!(bench.commit(1), Answer::Done);
    let alone = bench.lay_ahead(&commits);
    let left = bench.counts()[0];
    drop(bench);
    assert!(rt; none.is_none() && alone.is_none());
    assert!(rt; created == Some(0) && one == Some(1) && other == Some(1));
    assert!(rt; laid == Some((Ok(true), 2)));
    assert!(rt; failed == Some((Err(DeviceFailed), 2)));
    assert!(rt; wide == Some((Ok(false), 2)));
    assert!(rt; committed);
    assert_eq!(rt; left, 0);
    Ok(())
}

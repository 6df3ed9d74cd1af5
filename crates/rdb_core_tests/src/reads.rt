//! What is read of the committed tables.

use crate::bench::Bench;
use crate::few::Given;
use crate::fixtures::rows_for;
use ahead_view::ReadError;
use core_calls::{Answer, Refusal};
use std::alloc::Global;
use std::test::Fail;
use tables::TableView;

const TABLE: &'static str = "CREATE TABLE T (K INTEGER NOT NULL, V INTEGER, PRIMARY KEY (K))";

// A core with a committed table of one row.
fn filled(alloc: Global) -> Option<Bench> {
    let mut bench = Bench::new(alloc, 1);
    rows_for(alloc, &mut bench, 1, TABLE)?;
    rows_for(alloc, &mut bench, 1, "INSERT INTO T VALUES (1, 10)")?;
    drop(bench.commit(1));
    bench.begin_anew(1);
    Some(bench)
}

// How many rows conversation 2 is told of a statement over that table, and how many reads that takes.
fn counted(alloc: Global, text: &str) -> Option<(usize, u32)> {
    let mut bench = filled(alloc)?;
    let rows = rows_for(alloc, &mut bench, 2, text)?;
    Some((rows, bench.counts()[1]))
}

// A statement reads the row of its key, or all rows where it looks through them; a creation reads none.
#[test]
fn each_statement_reads_what_it_asks_for(rt: HostRuntime) -> Result<(), Fail> {
    let asked = [
        ("CREATE TABLE U (K INTEGER NOT NULL, PRIMARY KEY (K))", 0, 0),
        ("INSERT INTO T VALUES (2, 20)", 1, 1),
        ("SELECT V FROM T WHERE K = 1", 1, 1),
        ("SELECT V FROM T WHERE K = 2", 0, 1),
        ("SELECT V FROM T", 1, 1),
        ("UPDATE T SET V = 11 WHERE K = 1", 1, 1),
        ("UPDATE T SET V = 11", 1, 1),
        ("DELETE FROM T WHERE K = 1", 1, 1),
        ("DELETE FROM T", 1, 1),
    ];
    for (text, rows, reads) in asked {
        assert_eq!(rt; counted(rt.alloc(), text), Some((rows, reads)));
    }
    Ok(())
}

// Whether a conversation is refused this since another unit claims it.
fn clashes(alloc: Global, bench: &mut Bench, conversation: u64, text: &str) -> bool {
    matches!(
        bench.ask(alloc, conversation, text),
        Some(Answer::Refused(Refusal::Clashes))
    )
}

// Whether conversation 2 is refused this while conversation 1 has updated the row, and how many reads both take.
fn reads_of_a_clash(alloc: Global, text: &str) -> Option<(bool, u32)> {
    let mut bench = filled(alloc)?;
    let _updated = rows_for(alloc, &mut bench, 1, "UPDATE T SET V = 11 WHERE K = 1");
    let is_refused = clashes(alloc, &mut bench, 2, text);
    Some((is_refused, bench.counts()[1]))
}

// A statement of which a claim clashes reads nothing.
#[test]
fn reads_nothing_where_a_claim_clashes(rt: HostRuntime) -> Result<(), Fail> {
    for text in [
        "SELECT V FROM T",
        "SELECT V FROM T WHERE K = 1",
        "INSERT INTO T VALUES (1, 12)",
        "DELETE FROM T",
    ] {
        assert!(rt; reads_of_a_clash(rt.alloc(), text) == Some((true, 1)));
    }
    Ok(())
}

// Whether a statement is answered that the device failed, and then that memory was refused, where its read is refused so; whether the
// state is told then; and how many rows another unit deletes once no read is.
fn refused(alloc: Global, text: &str) -> Option<(bool, bool, bool, Option<usize>)> {
    let mut bench = filled(alloc)?;
    bench.refuse_reads(Some(ReadError::DeviceFailed));
    let failed = matches!(bench.ask(alloc, 1, text), Some(Answer::DeviceFailed));
    bench.refuse_reads(Some(ReadError::NoMemory));
    let short = matches!(bench.ask(alloc, 1, text), Some(Answer::NoMemory));
    let is_told = bench.plain().is_some();
    bench.refuse_reads(None);
    Some((
        failed,
        short,
        is_told,
        rows_for(alloc, &mut bench, 2, "DELETE FROM T"),
    ))
}

// Where a read is refused the answer says why, and the unit has claimed nothing.
#[test]
fn tells_why_no_row_was_read(rt: HostRuntime) -> Result<(), Fail> {
    for text in ["SELECT V FROM T", "DELETE FROM T WHERE K = 1"] {
        assert!(rt; refused(rt.alloc(), text) == Some((true, true, false, Some(1))));
    }
    Ok(())
}

// Whether a query of conversation 1 is answered that memory was refused where its rows may take so many bytes, and how many rows another
// unit deletes then.
fn bounded(alloc: Global, bytes: usize) -> Option<(bool, Option<usize>)> {
    let mut bench = filled(alloc)?;
    bench.bound_rows(bytes);
    let short = matches!(
        bench.ask(alloc, 1, "SELECT K, V FROM T"),
        Some(Answer::NoMemory)
    );
    Some((short, rows_for(alloc, &mut bench, 2, "DELETE FROM T")))
}

// The row takes 18 bytes: its own 10, and 8 for where it ends. A query that wants more than it may claims nothing; else it claims the
// table.
#[test]
fn a_query_takes_no_more_than_it_may(rt: HostRuntime) -> Result<(), Fail> {
    for (bytes, found) in [
        (0, (true, Some(1))),
        (17, (true, Some(1))),
        (18, (false, None)),
    ] {
        assert!(rt; bounded(rt.alloc(), bytes) == Some(found));
    }
    Ok(())
}

// Whether a statement is answered that the device failed which is given a row that is cut off, how often it counts as failed, and how
// many rows another unit deletes that are given as they are.
fn cut(alloc: Global, text: &str) -> Option<(bool, u32, Option<usize>)> {
    let mut bench = filled(alloc)?;
    bench.give(Given::Cut);
    let failed = matches!(bench.ask(alloc, 1, text), Some(Answer::DeviceFailed));
    let failures = bench.counts()[2];
    bench.give(Given::Written);
    Some((
        failed,
        failures,
        rows_for(alloc, &mut bench, 2, "DELETE FROM T"),
    ))
}

// Where the device gives back what is no row of the table it counts as failed, and the unit has claimed nothing.
#[test]
fn counts_what_is_no_row_as_a_failure(rt: HostRuntime) -> Result<(), Fail> {
    for text in ["SELECT V FROM T", "DELETE FROM T WHERE K = 1"] {
        assert!(rt; cut(rt.alloc(), text) == Some((true, 1, Some(1))));
    }
    Ok(())
}

// How many rows a statement concerns that is given another row, how many have the committed value once its unit is rolled back, and how
// often the device counts as failed.
fn other(alloc: Global, text: &str) -> Option<(Option<usize>, Option<usize>, u32)> {
    let mut bench = filled(alloc)?;
    bench.give(Given::Other);
    let rows = rows_for(alloc, &mut bench, 1, text);
    drop(bench.roll_back(1));
    bench.give(Given::Written);
    let left = rows_for(alloc, &mut bench, 2, "SELECT K FROM T WHERE V = 10");
    Some((rows, left, bench.counts()[2]))
}

// Where the device gives other rows of the table a statement is answered over these: 11 is in the place of 10. The
// committed rows stay.
#[test]
fn answers_over_the_rows_that_are_given(rt: HostRuntime) -> Result<(), Fail> {
    let asked = [
        ("SELECT K FROM T WHERE V = 10", 0),
        ("SELECT K FROM T WHERE V = 11", 1),
        ("UPDATE T SET V = 12 WHERE V = 11", 1),
    ];
    for (text, rows) in asked {
        assert!(rt; other(rt.alloc(), text) == Some((Some(rows), Some(1), 0)));
    }
    Ok(())
}

// How many rows of the table the state has.
fn committed_rows(alloc: Global) -> Option<usize> {
    let mut bench = filled(alloc)?;
    let mut tables = bench.plain()?.into_tables();
    let rows = tables.scan(alloc, "T").ok()?;
    Some(rows.len())
}

// The state is told with the rows of the committed tables.
#[test]
fn tells_the_committed_rows(rt: HostRuntime) -> Result<(), Fail> {
    assert_eq!(rt; committed_rows(rt.alloc()), Some(1));
    Ok(())
}

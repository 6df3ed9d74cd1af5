//! Calls for the tests.

use crate::bench::Bench;
use core_calls::Answer;
use std::alloc::Global;
use xa_calls::{BadXid, Ending, Request, Verb, Xid};

pub const CREATE: &'static str = "CREATE TABLE T (K INTEGER NOT NULL, PRIMARY KEY (K))";

pub const INSERT: &'static str = "INSERT INTO T VALUES (1)";

// The XID of format 7 whose global part is the number, without a branch part.
pub fn numbered(number: u8) -> Result<Xid, BadXid> {
    Xid::read(&[0, 0, 0, 7, 0, 0, 0, 1, 0, 0, 0, 0, number])
}

// The code that a conversation is answered which asks this of a branch.
pub fn ask(bench: &mut Bench, conversation: u64, verb: Verb, xid: Xid) -> Option<i32> {
    match bench.xa(conversation, &Ok(Request::Branch(verb, xid))) {
        Answer::Xa(code) => Some(code.number()),
        _ => None,
    }
}

// How many rows a statement concerns or shows that a conversation asks: none is told where it is refused.
pub fn rows_for(alloc: Global, bench: &mut Bench, conversation: u64, text: &str) -> Option<usize> {
    match bench.ask(alloc, conversation, text) {
        Some(Answer::Count(rows)) => Some(rows as usize),
        Some(Answer::Rows(rows)) => Some(rows.len()),
        _ => None,
    }
}

// The same of conversation 1.
pub fn rows_of(alloc: Global, bench: &mut Bench, text: &str) -> Option<usize> {
    rows_for(alloc, bench, 1, text)
}

// The code of the prepare of a branch that has put a row of a committed table: two records are made.
pub fn put_in_doubt(alloc: Global, bench: &mut Bench, xid: Xid) -> Option<i32> {
    let _created = rows_of(alloc, bench, CREATE);
    drop(bench.commit(1));
    let _started = ask(bench, 1, Verb::Start, xid);
    let _put = rows_of(alloc, bench, INSERT);
    let _ended = ask(bench, 1, Verb::End(Ending::Kept), xid);
    ask(bench, 1, Verb::Prepare, xid)
}

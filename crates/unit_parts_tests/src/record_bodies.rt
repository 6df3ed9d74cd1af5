//! The bodies of records.

use std::alloc::{AllocError, Global};
use tables::Change;
use unit_journal::Kind;
use unit_locks::Claim;
use unit_records::{
    ReadError, UnitRecord, commit_length, decide_length, forget_length, prepare_length,
    write_commit, write_decide, write_forget, write_prepare,
};
use xa_calls::Xid;

// A table is created, a row put and one removed; nothing; a branch with a claim of all of a table and
// one of a key, and a change; decisions; heuristic ones, and forgettings.
const BODIES: [(Kind, &'static [u8]); 10] = [
    (
        Kind::Commit,
        &[
            0, 0, 0, 3, 1, 1, b'T', 1, 1, b'A', 2, 0, 0, 0, 1, 0, 2, 1, b'T', 0, 5, 0, 0, 0, 0, 1,
            3, 1, b'T', 0, 0,
        ],
    ),
    (Kind::Commit, &[0, 0, 0, 0]),
    (
        Kind::Prepare,
        &[
            0, 0, 0, 7, 0, 0, 0, 2, 0, 0, 0, 1, b'g', b'h', b'b', 0, 0, 0, 2, 0, 1, b'T', 0, 1, 1,
            b'T', 1, 0, 2, 8, 9, 0, 0, 0, 1, 3, 1, b'T', 0, 0,
        ],
    ),
    (
        Kind::Prepare,
        &[
            0, 0, 0, 7, 0, 0, 0, 1, 0, 0, 0, 0, b'g', 0, 0, 0, 0, 0, 0, 0, 0,
        ],
    ),
    (Kind::Decide, &[0, 0, 0, 7, 0, 0, 0, 1, 0, 0, 0, 0, b'g', 1]),
    (
        Kind::Decide,
        &[0, 0, 0, 7, 0, 0, 0, 1, 0, 0, 0, 1, b'g', b'b', 2],
    ),
    (
        Kind::Heuristic,
        &[0, 0, 0, 7, 0, 0, 0, 1, 0, 0, 0, 0, b'g', 1],
    ),
    (
        Kind::Heuristic,
        &[0, 0, 0, 7, 0, 0, 0, 1, 0, 0, 0, 1, b'g', b'b', 2],
    ),
    (Kind::Forget, &[0, 0, 0, 7, 0, 0, 0, 1, 0, 0, 0, 0, b'g']),
    (
        Kind::Forget,
        &[0, 0, 0, 7, 0, 0, 0, 1, 0, 0, 0, 2, b'g', b'b', 1],
    ),
];

/// The longest body that is written here.
const LONGEST: usize = 1_000;

fn write_changes(out: &mut Vec<u8>, changes: &[Change]) -> Result<usize, AllocError> {
    let length = commit_length(changes);
    if length > LONGEST {
        return Err(AllocError);
    }
    write_commit(out, changes)?;
    Ok(length)
}

fn write_branch(
    out: &mut Vec<u8>,
    xid: &Xid,
    changes: &[Change],
    claims: &[Claim],
) -> Result<usize, AllocError> {
    let length = prepare_length(xid, changes, claims);
    if length > LONGEST {
        return Err(AllocError);
    }
    write_prepare(out, xid, changes, claims)?;
    Ok(length)
}

// Appends the body of the record; how long it was told to be.
fn write(out: &mut Vec<u8>, read: &UnitRecord) -> Result<usize, AllocError> {
    match read {
        UnitRecord::Commit { changes } => write_changes(out, changes.as_slice()),
        UnitRecord::Prepare {
            xid,
            changes,
            claims,
        } => write_branch(out, xid, changes.as_slice(), claims.as_slice()),
        UnitRecord::Decide { xid, decision } | UnitRecord::Heuristic { xid, decision } => {
            write_decide(out, xid, *decision)?;
            Ok(decide_length(xid))
        }
        UnitRecord::Forget { xid } => {
            write_forget(out, xid)?;
            Ok(forget_length(xid))
        }
    }
}

// The body that the record writes which is read of this one, behind a byte.
fn written_again(alloc: Global, kind: Kind, body: &[u8]) -> Option<(Vec<u8>, usize)> {
    let read = UnitRecord::read(alloc, kind, body).ok()?;
    let mut out = Vec::from_slice(alloc, &[9]).ok()?;
    let length = write(&mut out, &read).ok()?;
    Some((out, length))
}

fn reads_back(alloc: Global, kind: Kind, body: &[u8]) -> bool {
    match written_again(alloc, kind, body) {
        Some((out, length)) => {
            length == body.len() && out.as_slice().split_first() == Some((&9, body))
        }
        None => false,
    }
}

#[test]
fn bodies_are_read_and_written_again(rt: HostRuntime) {
    for (kind, body) in &BODIES {
        assert!(rt; reads_back(rt.alloc(), *kind, body), "{body:?}");
    }
}

fn is_damaged(alloc: Global, kind: Kind, body: &[u8]) -> bool {
    match UnitRecord::read(alloc, kind, body) {
        Err(ReadError::Damaged) => true,
        _ => false,
    }
}

// Whether the body is damaged where it is cut before a place, and where a byte follows it.
fn is_whole(alloc: Global, kind: Kind, body: &[u8]) -> Option<bool> {
    let mut longer = Vec::from_slice(alloc, body).ok()?;
    longer.push(0).ok()?;
    let mut whole = is_damaged(alloc, kind, longer.as_slice());
    for length in 0..body.len() {
        whole = whole && is_damaged(alloc, kind, &body[..length]);
    }
    Some(whole)
}

#[test]
fn parts_of_bodies_are_damaged(rt: HostRuntime) {
    for (kind, body) in &BODIES {
        assert_eq!(rt; is_whole(rt.alloc(), *kind, body), Some(true), "{body:?}");
    }
}

// Another record, an unknown decision, the XID that names no branch, and an XID that is missing; and the same of heuristic decisions and
// of forgettings.
const STRANGERS: [(Kind, &'static [u8]); 9] = [
    (Kind::Commit, &[0, 0, 0, 7, 0, 0, 0, 1, 0, 0, 0, 0, b'g', 1]),
    (Kind::Decide, &[0, 0, 0, 7, 0, 0, 0, 1, 0, 0, 0, 0, b'g', 3]),
    (
        Kind::Decide,
        &[255, 255, 255, 255, 0, 0, 0, 1, 0, 0, 0, 0, b'g', 1],
    ),
    (Kind::Prepare, &[0, 0, 0, 0]),
    (
        Kind::Heuristic,
        &[0, 0, 0, 7, 0, 0, 0, 1, 0, 0, 0, 0, b'g', 0],
    ),
    (
        Kind::Heuristic,
        &[255, 255, 255, 255, 0, 0, 0, 1, 0, 0, 0, 0, b'g', 2],
    ),
    (Kind::Heuristic, &[1]),
    (Kind::Forget, &[0, 0, 0, 7, 0, 0, 0, 1, 0, 0, 0, 0, b'g', 1]),
    (
        Kind::Forget,
        &[255, 255, 255, 255, 0, 0, 0, 1, 0, 0, 0, 0, b'g'],
    ),
];

#[test]
fn other_bodies_are_damaged(rt: HostRuntime) {
    for (kind, body) in &STRANGERS {
        assert!(rt; is_damaged(rt.alloc(), *kind, body), "{body:?}");
    }
}

//! Writing the bodies of records.

ghost use Rattle.std.specs.Prelude.{◌≡◌, ◌+◌, ◌^◌, ◌<◌, ◌≤◌, ◌++◌, [], ◌∷◌, IsOk, OnErr, OnOk, length, map, vec_capacity, vec_len};
ghost use Rattle.std.specs.List.{flat_map};
ghost use Rattle.row_values.specs.Bytes.{Keeps};
ghost use Rattle.tables.specs.Change.{change_bytes};
ghost use Rattle.tables.specs.ChangeView.{change_of};
ghost use Rattle.unit_locks.specs.Claim.{claim_bytes};
ghost use Rattle.unit_records.specs.Fronts.{listed};
ghost use Rattle.unit_records.specs.Records.{IsGood, committed, decided, decision_byte, forgotten, heuristic, prepared, record_bytes};

use crate::length::{commit_length, decide_length, forget_length, prepare_length, xid_bytes};
use std::alloc::AllocError;
use tables::Change;
use unit_locks::Claim;
use xa_calls::Xid;
use xa_manager::Decision;

/// Appends the body of a commit with these changes, by one growth at most. It is shorter than 2^32
/// bytes, which `commit_length` tells. Out of memory, nothing is appended.
pub fn write_commit(out: &mut Vec<u8>, changes: &[Change]) -> Result<(), AllocError>
    requires { length (record_bytes (committed (map change_of changes.now))) < 2 ^ 32 }
    ensures good { IsGood (committed (map change_of changes.now)) }
    ensures ok { OnOk result (out.new.items ≡ out.old.items ++ record_bytes (committed (map change_of changes.now))) }
    ensures err { OnErr result (out.new.items ≡ out.old.items) }
{
    out.reserve(commit_length(changes))?;
    let start = out.len();
    let written = put_changes(out, changes);
    if written.is_err() {
        out.truncate(start);
    }
    written
}

/// Appends the body of a prepare with these changes and claims, by one growth at most. It is shorter
/// than 2^32 bytes, which `prepare_length` tells. Out of memory, nothing is appended.
pub fn write_prepare(
    out: &mut Vec<u8>,
    xid: &Xid,
    changes: &[Change],
    claims: &[Claim],
) -> Result<(), AllocError>
    requires { length (record_bytes (prepared xid.now (map change_of changes.now) claims.now)) < 2 ^ 32 }
    ensures good { IsGood (prepared xid.now (map change_of changes.now) claims.now) }
    ensures ok { OnOk result (out.new.items ≡ out.old.items ++ record_bytes (prepared xid.now (map change_of changes.now) claims.now)) }
    ensures err { OnErr result (out.new.items ≡ out.old.items) }
{
    out.reserve(prepare_length(xid, changes, claims))?;
    let start = out.len();
    let written = put_prepare(out, xid, changes, claims);
    if written.is_err() {
        out.truncate(start);
    }
    written
}

/// Appends the body of a decision, which is the same of a heuristic one. Out of memory, nothing is appended; with
/// room for 141 bytes in `out` it does not fail.
pub fn write_decide(out: &mut Vec<u8>, xid: &Xid, decision: Decision) -> Result<(), AllocError>
    ensures good { IsGood (decided xid.now decision) }
    ensures good_heuristic { IsGood (heuristic xid.now decision) }
    ensures room { vec_len out.old + 141 ≤ vec_capacity out.old → IsOk result }
    ensures ok { OnOk result (out.new.items ≡ out.old.items ++ record_bytes (decided xid.now decision)) }
    ensures err { OnErr result (out.new.items ≡ out.old.items) }
{
    out.reserve(decide_length(xid))?;
    let start = out.len();
    let written = put_decide(out, xid, decision);
    if written.is_err() {
        out.truncate(start);
    }
    written
}

/// Appends the body of a forgetting. Out of memory, nothing is appended; with room for 140 bytes in `out` it does not
/// fail.
pub fn write_forget(out: &mut Vec<u8>, xid: &Xid) -> Result<(), AllocError>
    ensures good { IsGood (forgotten xid.now) }
    ensures room { vec_len out.old + 140 ≤ vec_capacity out.old → IsOk result }
    ensures ok { OnOk result (out.new.items ≡ out.old.items ++ record_bytes (forgotten xid.now)) }
    ensures err { OnErr result (out.new.items ≡ out.old.items) }
{
    out.reserve(forget_length(xid))?;
    out.extend_from_slice(xid_bytes(xid))
}

// Appends the bytes of an XID, and of claims and changes behind their numbers, or some of them.
fn put_prepare(
    out: &mut Vec<u8>,
    xid: &Xid,
    changes: &[Change],
    claims: &[Claim],
) -> Result<(), AllocError>
    requires { length (record_bytes (prepared xid.now (map change_of changes.now) claims.now)) < 2 ^ 32 }
    ensures ok { OnOk result (out.new.items ≡ out.old.items ++ record_bytes (prepared xid.now (map change_of changes.now) claims.now)) }
    ensures err { OnErr result (Keeps out.old.items out.new.items) }
{
    out.extend_from_slice(xid_bytes(xid))?;
    put_claims(out, claims)?;
    put_changes(out, changes)
}

// Appends the bytes of a decision, or some of them.
fn put_decide(out: &mut Vec<u8>, xid: &Xid, decision: Decision) -> Result<(), AllocError>
    ensures room { vec_len out.old + 141 ≤ vec_capacity out.old → IsOk result }
    ensures ok { OnOk result (out.new.items ≡ out.old.items ++ record_bytes (decided xid.now decision)) }
    ensures err { OnErr result (Keeps out.old.items out.new.items) }
{
    out.extend_from_slice(xid_bytes(xid))?;
    out.push(decision_code(decision))?;
    Ok(())
}

fn decision_code(decision: Decision) -> u8
    ensures { result ≡ decision_byte decision }
{
    match decision {
        Decision::Commit => 1,
        Decision::RollBack => 2,
    }
}

// Appends claims behind their number, or some of that.
fn put_claims(out: &mut Vec<u8>, claims: &[Claim]) -> Result<(), AllocError>
    requires { length claims.now < 2 ^ 32 }
    ensures ok { OnOk result (out.new.items ≡ out.old.items ++ listed claim_bytes claims.now) }
    ensures err { OnErr result (Keeps out.old.items out.new.items) }
{
    out.extend_from_slice(&(claims.len() as u32).to_be_bytes())?;
    put_each_claim(out, claims)
}

// Appends claims, or some of them.
fn put_each_claim(out: &mut Vec<u8>, claims: &[Claim]) -> Result<(), AllocError>
    ensures ok { OnOk result (out.new.items ≡ out.old.items ++ flat_map claim_bytes claims.now) }
    ensures err { OnErr result (Keeps out.old.items out.new.items) }
{
    let mut left = claims;
    while let [claim, rest @ ..] = left {
        out.extend_from_slice(claim.to_bytes())?;
        left = rest;
    }
    Ok(())
}

// Appends changes behind their number, or some of that.
fn put_changes(out: &mut Vec<u8>, changes: &[Change]) -> Result<(), AllocError>
    requires { length changes.now < 2 ^ 32 }
    ensures ok { OnOk result (out.new.items ≡ out.old.items ++ listed change_bytes (map change_of changes.now)) }
    ensures err { OnErr result (Keeps out.old.items out.new.items) }
{
    out.extend_from_slice(&(changes.len() as u32).to_be_bytes())?;
    put_each_change(out, changes)
}

// Appends changes, or some of them.
fn put_each_change(out: &mut Vec<u8>, changes: &[Change]) -> Result<(), AllocError>
    ensures ok { OnOk result (out.new.items ≡ out.old.items ++ flat_map change_bytes (map change_of changes.now)) }
    ensures err { OnErr result (Keeps out.old.items out.new.items) }
{
    let mut left = changes;
    while let [change, rest @ ..] = left {
        change.write(out)?;
        left = rest;
    }
    Ok(())
}

//! What a state shows.

use rdb_core::PlainState;
use row_values::{RowRef, Schema};
use std::alloc::{AllocError, Global};
use tables::{Rows, TableView};
use test_calls::{push_bytes, push_row, push_text};
use unit_table::{Owner, PlainUnit};
use xa_manager::{Branch, BranchState, Decision};

fn said_state(alloc: Global, state: &BranchState) -> Result<String, AllocError> {
    match state {
        BranchState::Active(last) => format!(in alloc; "active of {last}"),
        BranchState::Idle(last) => format!(in alloc; "idle, last of {last}"),
        BranchState::RollbackOnly(last) => format!(in alloc; "rollback only, last of {last}"),
        BranchState::Prepared => String::from_str(alloc, "prepared"),
        BranchState::Heuristic(Decision::Commit) => {
            String::from_str(alloc, "heuristically committed")
        }
        BranchState::Heuristic(Decision::RollBack) => {
            String::from_str(alloc, "heuristically rolled back")
        }
    }
}

/// Appends each branch and where it stands.
pub fn push_branches(alloc: Global, branches: &[Branch], out: &mut Vec<u8>) -> Option<()> {
    if branches.is_empty() {
        return push_text(out, "no branch");
    }
    for (place, branch) in branches.iter().enumerate() {
        push_text(out, if place == 0 { "" } else { ", " })?;
        push_bytes(alloc, out, branch.xid.as_bytes())?;
        push_text(out, " ")?;
        push_text(out, &said_state(alloc, &branch.state).ok()?)?;
    }
    Some(())
}

fn push_owner(alloc: Global, owner: &Owner, out: &mut Vec<u8>) -> Option<()> {
    match owner {
        Owner::Local(number) => push_text(out, &format!(in alloc; "unit of {number}").ok()?),
        Owner::Global(xid) => {
            push_text(out, "unit of ")?;
            push_bytes(alloc, out, xid.as_bytes())
        }
    }
}

// Each unit that has work, and how many changes and claims it has.
fn push_units(alloc: Global, units: &[PlainUnit], out: &mut Vec<u8>) -> Option<()> {
    if units.is_empty() {
        return push_text(out, "no unit, ");
    }
    for unit in units {
        let (changes, claims) = (unit.changes.len(), unit.claims.len());
        push_owner(alloc, &unit.owner, out)?;
        push_text(
            out,
            &format!(in alloc; " with {changes} changes and {claims} claims, ").ok()?,
        )?;
    }
    Some(())
}

/// Appends how many changes the first unit has, and how many bytes they are.
pub fn push_changes(alloc: Global, units: &[PlainUnit], out: &mut Vec<u8>) -> Option<()> {
    let mut bytes: usize = 0;
    let unit = units.first()?;
    for change in &unit.changes {
        bytes = bytes.saturating_add(change.length());
    }
    let count = unit.changes.len();
    push_text(
        out,
        &format!(in alloc; "{count} changes of {bytes} bytes").ok()?,
    )
}

fn push_rows(alloc: Global, schema: &Schema, rows: &Rows, out: &mut Vec<u8>) -> Option<()> {
    push_text(
        out,
        if rows.is_empty() {
            ", T has no row"
        } else {
            ", T has"
        },
    )?;
    for i in 0..rows.len() {
        match RowRef::parse(schema, rows.row(i)) {
            Ok(row) => push_row(alloc, out, row)?,
            Err(_) => return None,
        }
    }
    Some(())
}

// The committed rows of T.
fn push_table(alloc: Global, state: PlainState, out: &mut Vec<u8>) -> Option<()> {
    let mut tables = state.into_tables();
    match tables.schema(alloc, "T").ok()? {
        Some(schema) => { push_rows(alloc, &schema, &tables.scan(alloc, "T").ok()?, out) }
        None => push_text(out, ", no T"),
    }
}

/// Appends what a state shows.
pub fn push_state(alloc: Global, state: PlainState, out: &mut Vec<u8>) -> Option<()> {
    push_units(alloc, state.units(), out)?;
    push_branches(alloc, state.branches(), out)?;
    push_table(alloc, state, out)
}

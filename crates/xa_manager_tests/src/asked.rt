//! What is asked, a line each.

use crate::calls::{Call, call_of, decision_of, number_of, xid_of};
use std::alloc::{AllocError, Global};
use xa_calls::Xid;
use xa_manager::{BranchState, Decision, RestoreError, XaTable};

fn settle(table: &mut XaTable, call: Call, told: &mut String) -> Result<(), AllocError> {
    let (conversation, verb, xid, work) = call;
    let due = table.due(conversation, verb, &xid, work);
    table.settle(conversation, &xid, due)?;
    let code = due.code.number();
    write!(told, "{code}")
}

fn tell_due(table: &XaTable, call: Call, told: &mut String) -> Result<(), AllocError> {
    let (conversation, verb, xid, work) = call;
    let due = table.due(conversation, verb, &xid, work);
    let (code, action) = (due.code.number(), due.action);
    write!(told, "{code} {action:?}")
}

fn tell_xid(xid: Option<&Xid>, told: &mut String) -> Result<(), AllocError> {
    match xid {
        Some(xid) => {
            let number = number_of(xid);
            write!(told, " {number}")
        }
        None => told.push_str(" none"),
    }
}

// The branches that are known, in their order.
fn tell_branches(table: &XaTable, told: &mut String) -> Result<(), AllocError> {
    let branches = table.branches();
    let count = branches.len();
    write!(told, "{count} branches:")?;
    for branch in branches {
        tell_xid(Some(&branch.xid), told)?;
    }
    Ok(())
}

fn tell_doubts(alloc: Global, table: &XaTable, told: &mut String) -> Result<(), AllocError> {
    let xids = table.recover(alloc)?;
    let count = xids.as_slice().len();
    write!(told, "{count} in doubt:")?;
    for xid in xids.as_slice() {
        tell_xid(Some(xid), told)?;
    }
    Ok(())
}

fn said_restored(table: &mut XaTable, xid: &Xid, decided: Option<Decision>) -> &'static str {
    match table.restore(xid, decided) {
        Ok(()) => "restored",
        Err(RestoreError::Known) => "known",
        Err(RestoreError::Full) => "full",
        Err(RestoreError::NoMemory) => "no memory",
    }
}

// A branch is decided heuristically, where it is prepared.
fn said_decided(table: &mut XaTable, xid: &Xid, decided: Option<Decision>) -> &'static str {
    match (table.state(xid), decided) {
        (Some(BranchState::Prepared), Some(decision)) => {
            table.decide(xid, decision);
            "decided"
        }
        _ => "not in doubt",
    }
}

fn tell_state(table: &XaTable, xid: &Xid, told: &mut String) -> Result<(), AllocError> {
    match table.state(xid) {
        Some(state) => write!(told, "{state:?}"),
        None => told.push_str("unknown"),
    }
}

// A look at the table, a branch that is found in doubt, or one that is decided heuristically, as the word behind it says.
fn look(
    table: &mut XaTable,
    verb: &str,
    rest: &str,
    number: u32,
    told: &mut String,
) -> Result<(), AllocError> {
    let (branch, word) = rest.split_once(' ').unwrap_or((rest, ""));
    let decided = decision_of(word);
    match (verb, call_of(rest, number), xid_of(branch, number)) {
        ("due", Some(call), _) => tell_due(table, call, told),
        ("joined", _, _) => tell_xid(table.joined(rest.parse::<u64>().unwrap_or(0)), told),
        ("restore", _, Some(xid)) => told.push_str(said_restored(table, &xid, decided)),
        ("decide", _, Some(xid)) => told.push_str(said_decided(table, &xid, decided)),
        ("state", _, Some(xid)) => tell_state(table, &xid, told),
        _ => told.push_str("nothing is asked"),
    }
}

// A step that begins with a conversation's number is a call, whose code is told once it is settled.
fn step(
    alloc: Global,
    table: &mut XaTable,
    text: &str,
    number: u32,
    told: &mut String,
) -> Result<(), AllocError> {
    if let Some(call) = call_of(text, number) {
        return settle(table, call, told);
    }
    let (verb, rest) = text.split_once(' ').unwrap_or((text, ""));
    match verb {
        "new" => *table = XaTable::new(alloc),
        "lost" => table.lost(rest.parse::<u64>().unwrap_or(0)),
        "branches" => return tell_branches(table, told),
        "recover" => return tell_doubts(alloc, table, told),
        _ => return look(table, verb, rest, number, told),
    }
    told.push_str("done")
}

// Steps are parted by semicolons; a number stands for $.
fn steps(
    alloc: Global,
    table: &mut XaTable,
    text: &str,
    number: u32,
    told: &mut String,
) -> Result<(), AllocError> {
    for (place, text) in text.split("; ").enumerate() {
        told.push_str(if place == 0 { "" } else { "; " })?;
        step(alloc, table, text, number, told)?;
    }
    Ok(())
}

// How many numbers below 1,024 stand for $, from one on, each so far behind the one before; and the steps.
fn numbers_of(text: &str) -> Option<(u32, u32, u32, &str)> {
    let (count, rest) = text.split_once(' ')?;
    let (first, rest) = rest.split_once(' ')?;
    let (distance, steps) = rest.split_once(' ')?;
    Some((
        count.parse::<u32>().ok()?,
        first.parse::<u32>().ok()?,
        distance.parse::<u32>().ok()?,
        steps,
    ))
}

// What the steps come to with the last number.
fn tell_last(
    alloc: Global,
    table: &mut XaTable,
    text: &str,
    told: &mut String,
) -> Result<(), AllocError> {
    let (count, first, distance, text) = numbers_of(text).unwrap_or((0, 0, 0, text));
    let mut last = String::new(alloc);
    for i in 0..count {
        last.clear();
        let number = first.wrapping_add(i.wrapping_mul(distance)) % 1024;
        steps(alloc, table, text, number, &mut last)?;
    }
    told.push_str(&last)
}

/// Tells a line and what it comes to, where it does not begin with #: it is steps, or `each` in front of numbers and steps.
pub fn tell(
    alloc: Global,
    table: &mut XaTable,
    line: &str,
    told: &mut String,
) -> Result<(), AllocError> {
    write!(told, "{line}\n")?;
    if line.starts_with('#') {
        return Ok(());
    }
    told.push_str("  ")?;
    match line.strip_prefix("each ") {
        Some(text) => tell_last(alloc, table, text, told)?,
        None => steps(alloc, table, line, 0, told)?,
    }
    told.push_str("\n")
}

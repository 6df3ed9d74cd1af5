//! What is asked of an open store that no call of a conversation asks, and how it is told.

use crate::bench::Core;
use drda_disk::Flusher;
use durable_core::{Checkpointed, Decided, OpenError, PlainError, Together};
use std::alloc::{AllocError, Global};
use test_calls::{push_bytes, push_text, xid_of};
use unit_records::{Asked, GroupCall, Phase};
use xa_manager::{BranchState, Decision};

/// Why a disk was not opened, and its size when it is handed back.
pub fn told_refusal(alloc: Global, error: OpenError, size: usize) -> Result<String, AllocError> {
    let told = match error {
        OpenError::Damaged { at } => {
            return format!(in alloc; "damaged at {at}, {size} bytes back");
        }
        OpenError::NotAStore => "no store",
        OpenError::DeviceFailed => "the device failed",
        OpenError::NoMemory => "no memory",
    };
    format!(in alloc; "{told}, {size} bytes back")
}

fn told_checkpoint(alloc: Global, told: Checkpointed) -> Result<String, AllocError> {
    let told = match told {
        Checkpointed::Full { need, room } => return format!(in alloc; "full, {need} into {room}"),
        Checkpointed::Done => "done",
        Checkpointed::NoMemory => "no memory",
        Checkpointed::DeviceFailed => "the device failed",
        Checkpointed::Closed => "closed",
    };
    String::from_str(alloc, told)
}

fn told_together(told: Together) -> &'static str {
    match told {
        Together::Done => "done",
        Together::Alone => "alone",
        Together::DeviceFailed => "the device failed",
        Together::Closed => "closed",
    }
}

fn told_decided(told: Decided) -> &'static str {
    match told {
        Decided::Done => "done",
        Decided::NotInDoubt => "not in doubt",
        Decided::OldLayout => "old layout",
        Decided::NoMemory => "no memory",
        Decided::DeviceFailed => "the device failed",
        Decided::Closed => "closed",
    }
}

// The phase of two-phase commit that a word names.
fn phase_named(word: &str) -> Option<Phase> {
    match word {
        "prepare" => Some(Phase::Prepare),
        "commit" => Some(Phase::Decide(Decision::Commit)),
        "rollback" => Some(Phase::Decide(Decision::RollBack)),
        _ => None,
    }
}

// A call of a group: that the conversation of this number commits, or a phase and the number of a branch behind =, for which the
// conversation of that number asks.
fn group_call(alloc: Global, word: &str) -> Option<GroupCall> {
    let Some((name, number)) = word.split_once('=') else {
        return Some(GroupCall {
            conversation: word.parse::<u64>().ok()?,
            asked: Asked::Commit,
        });
    };
    let branch = word.strip_prefix(name)?;
    Some(GroupCall {
        conversation: number.parse::<u64>().ok()?,
        asked: Asked::Through(phase_named(name)?, xid_of(alloc, branch)?),
    })
}

// The disk is flushed, where it is to be.
fn told_flush(
    flusher: Option<Flusher>,
    done: &'static str,
    not_done: &'static str,
) -> &'static str {
    match flusher {
        Some(flusher) => {
            let _flushed = flusher.flush();
            done
        }
        None => not_done,
    }
}

// The records of these calls are laid ahead of being made, or count early.
fn tell_group(alloc: Global, core: &mut Core, verb: &str, words: &str) -> Option<&'static str> {
    let mut calls = Vec::new(alloc);
    for word in words.split_ascii_whitespace() {
        calls.push(group_call(alloc, word)?).ok()?;
    }
    match verb {
        "ahead" => Some(told_flush(core.lay_ahead(&calls), "laid", "not laid")),
        "early" => Some(told_flush(core.open_early(&calls), "early", "not early")),
        _ => Some(told_together(core.make_together(&calls))),
    }
}

// The branch of an XID is decided heuristically, to `commit` or to `rollback`.
fn decide(alloc: Global, core: &mut Core, rest: &str) -> Option<Decided> {
    let (branch, word) = rest.split_once(' ')?;
    let xid = xid_of(alloc, branch)?;
    match phase_named(word)? {
        Phase::Decide(decision) => Some(core.decide(&xid, decision)),
        Phase::Prepare => None,
    }
}

// What stands behind the XID of a branch in doubt.
fn outcome_of(state: Option<BranchState>) -> &'static str {
    match state {
        Some(BranchState::Prepared) => "",
        Some(BranchState::Heuristic(Decision::Commit)) => " (committed)",
        Some(BranchState::Heuristic(Decision::RollBack)) => " (rolled back)",
        Some(BranchState::Active(_)) => " (active)",
        Some(BranchState::Idle(_)) => " (idle)",
        Some(BranchState::RollbackOnly(_)) => " (rollback only)",
        None => " (unknown)",
    }
}

// The global parts of the XIDs in doubt, and how those were decided that were so heuristically.
fn tell_in_doubt(alloc: Global, core: &Core, out: &mut Vec<u8>) -> Option<()> {
    push_text(out, "in doubt")?;
    let mut xids = core.in_doubt();
    for _ in 0..usize::MAX {
        let Some(xid) = xids.next() else { break };
        push_text(out, " ")?;
        push_bytes(alloc, out, xid.global())?;
        push_text(out, outcome_of(core.branch_state(xid)))?;
    }
    Some(())
}

// The same, each with the state that it is lent with.
fn tell_branches(alloc: Global, core: &Core, out: &mut Vec<u8>) -> Option<()> {
    push_text(out, "branches")?;
    let mut branches = core.in_doubt();
    for _ in 0..usize::MAX {
        let Some(branch) = branches.next_branch() else {
            break;
        };
        push_text(out, " ")?;
        push_bytes(alloc, out, branch.xid.global())?;
        push_text(out, outcome_of(Some(branch.state)))?;
    }
    Some(())
}

// Whether the state was copied.
fn told_copy(core: &mut Core) -> &'static str {
    match core.plain() {
        Ok(_) => "copied",
        Err(PlainError::NoMemory) => "no memory",
        Err(PlainError::DeviceFailed) => "the device failed",
        Err(PlainError::Closed) => "closed",
    }
}

/// `together` makes calls together: each is C, the commit of the conversation C, or PHASE=N, by which the conversation N asks for a phase
/// of the branch =N. `ahead` lays their records ahead of that, `early` has them count, and `settle` settles the disk. `decide XID commit` or `rollback` decides a
/// branch heuristically, `checkpoint` makes a checkpoint, `room` tells the store's name and the room of its journal, `layout` the layout of
/// its active half, `in_doubt` and `branches` which branches are in doubt, and `copy` copies the state.
pub fn tell(
    alloc: Global,
    core: &mut Core,
    verb: &str,
    rest: &str,
    out: &mut Vec<u8>,
) -> Option<()> {
    match verb {
        "together" | "ahead" | "early" => push_text(out, tell_group(alloc, core, verb, rest)?),
        "settle" => {
            core.settle(Flusher::nothing().flush());
            push_text(out, "settled")
        }
        "decide" => push_text(out, told_decided(decide(alloc, core, rest)?)),
        "checkpoint" => push_text(out, &told_checkpoint(alloc, core.checkpoint()).ok()?),
        "room" => {
            let (name, room) = (core.name(), core.room());
            push_text(out, &format!(in alloc; "{name} has room {room}").ok()?)
        }
        "layout" => {
            let is_old = core.is_of_old_layout();
            push_text(out, if is_old { "layout 1" } else { "layout 2" })
        }
        "in_doubt" => tell_in_doubt(alloc, core, out),
        "branches" => tell_branches(alloc, core, out),
        "copy" => push_text(out, told_copy(core)),
        _ => None,
    }
}

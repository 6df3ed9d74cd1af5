//! The units in doubt of a store, as text.

ghost use Rattle.std.specs.Prelude.{◌≡◌, ◌++◌, IfOk, OnOk, string_bytes};
ghost use Rattle.recovery.specs.Part.{outcome_at};
ghost use Rattle.told_stores.specs.Doubts.{doubt_line, doubt_text, listed_in, outcome_word};

use command_line::xid_text;
use drda_disk::Disk;
use durable_core::DurableCore;
use std::alloc::{AllocError, Global};
use std::fmt::Write;
use xa_calls::Xid;
use xa_manager::{BranchState, Decision};

/// A line for each unit in doubt.
pub(crate) fn doubt_text<D: Disk + Drop>(
    alloc: Global,
    core: &DurableCore<D>,
) -> Result<String, AllocError>
    ensures { IfOk result (λ text. string_bytes text ≡ doubt_text (listed_in core.now.state.branches)) }
{
    let mut left = core.in_doubt();
    let mut text = String::new(alloc);
    while let Some(xid) = left.next() {
        push_line(alloc, &mut text, xid, core.branch_state(xid))?;
    }
    Ok(text)
}

// The line of a unit in doubt, by its XID and where its branch stands.
fn push_line(
    alloc: Global,
    text: &mut String,
    xid: &Xid,
    state: Option<BranchState>,
) -> Result<(), AllocError>
    ensures { OnOk result (string_bytes text.new ≡ string_bytes text.old ++ doubt_line (xid.now, outcome_at state)) }
{
    let words = xid_text(alloc, xid)?;
    match writeln!(text, "{}{}", words.as_str(), outcome_word(state)) {
        Ok(()) => Ok(()),
        Err(_) => Err(AllocError),
    }
}

/// How a unit was decided heuristically, where it was.
pub(crate) fn outcome_word(state: Option<BranchState>) -> &'static str
    ensures { result.now ≡ outcome_word (outcome_at state) }
{
    match state {
        Some(BranchState::Heuristic(Decision::Commit)) => " committed",
        Some(BranchState::Heuristic(Decision::RollBack)) => " rolledback",
        Some(
            BranchState::Active(_)
            | BranchState::Idle(_)
            | BranchState::RollbackOnly(_)
            | BranchState::Prepared,
        )
        | None => "",
    }
}

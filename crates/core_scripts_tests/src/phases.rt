//! Phases of two-phase commit, and calls that are made together, as a line spells them.

use unit_records::{Asked, GroupCall, Phase};
use xa_calls::Xid;
use xa_manager::Decision;

/// The phase of this name.
pub fn phase_of(name: &str) -> Option<Phase> {
    match name {
        "prepare" => Some(Phase::Prepare),
        "commit" => Some(Phase::Decide(Decision::Commit)),
        "rollback" => Some(Phase::Decide(Decision::RollBack)),
        _ => None,
    }
}

/// A call of a group: `C` is that the conversation C commits, and `PHASE:C=N` that it asks for a phase of the branch of the number N.
pub fn group_call(word: &str) -> Option<GroupCall> {
    let Some((name, rest)) = word.split_once(':') else {
        return Some(GroupCall {
            conversation: word.parse::<u64>().ok()?,
            asked: Asked::Commit,
        });
    };
    let (conversation, number) = rest.split_once('=')?;
    let [high, low] = number.parse::<u16>().ok()?.to_be_bytes();
    let xid = Xid::read(&[0, 0, 0, 1, 0, 0, 0, 2, 0, 0, 0, 0, high, low]).ok()?;
    Some(GroupCall {
        conversation: conversation.parse::<u64>().ok()?,
        asked: Asked::Through(phase_of(name)?, xid),
    })
}

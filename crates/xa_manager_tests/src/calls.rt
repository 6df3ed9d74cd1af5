//! Calls, and the XIDs that they name.

use xa_calls::{Ending, Verb, Xid};
use xa_manager::{Decision, Work};

/// The conversation that asks, what it asks of which branch, and what the caller knows of the units.
pub type Call = (u64, Verb, Xid, Work);

/// The XID of format 7 whose global part is the number that a word spells, or this one for $, without a branch part.
pub fn xid_of(word: &str, number: u32) -> Option<Xid> {
    let number = if word == "$" {
        number
    } else {
        word.parse::<u32>().ok()?
    };
    let [a, b, c, d] = number.to_be_bytes();
    Xid::read(&[0, 0, 0, 7, 0, 0, 0, 4, 0, 0, 0, 0, a, b, c, d]).ok()
}

/// The number that is its global part.
pub fn number_of(xid: &Xid) -> u32 {
    match xid.global() {
        [a, b, c, d] => u32::from_be_bytes([*a, *b, *c, *d]),
        _ => u32::MAX,
    }
}

fn verb_of(word: &str) -> Option<Verb> {
    match word {
        "start" => Some(Verb::Start),
        "join" => Some(Verb::Join),
        "end" => Some(Verb::End(Ending::Kept)),
        "fail" => Some(Verb::End(Ending::Failed)),
        "prepare" => Some(Verb::Prepare),
        "commit" => Some(Verb::Commit),
        "one-phase" => Some(Verb::CommitOnePhase),
        "rollback" => Some(Verb::RollBack),
        "forget" => Some(Verb::Forget),
        _ => None,
    }
}

/// The decision that a word names.
pub fn decision_of(word: &str) -> Option<Decision> {
    match word {
        "committed" => Some(Decision::Commit),
        "rolledback" => Some(Decision::RollBack),
        _ => None,
    }
}

/// The call that a text spells: the conversation, the verb, the branch, and whether the unit has changes or the conversation local work.
pub fn call_of(text: &str, number: u32) -> Option<Call> {
    let (conversation, rest) = text.split_once(' ')?;
    let (verb, rest) = rest.split_once(' ')?;
    let (branch, work) = rest.split_once(' ').unwrap_or((rest, ""));
    let work = Work {
        is_local: work == "local",
        has_changes: work == "changed",
    };
    Some((
        conversation.parse::<u64>().ok()?,
        verb_of(verb)?,
        xid_of(branch, number)?,
        work,
    ))
}

//! Cues as lines spell them.

use crate::boards::{Deed, Stand};
use crate::stages::{Act, Cue, Point};

// `call N`, `read N`, `write N` or `closed`, and what stands behind it.
fn point_of(text: &str) -> Option<(Point, &str)> {
    if let Some(rest) = text.strip_prefix("closed ") {
        return Some((Point::Closed, rest));
    }
    let (kind, rest) = text.split_once(' ')?;
    let (number, rest) = rest.split_once(' ')?;
    let number = number.parse::<u64>().ok()?;
    let point = match kind {
        "call" => Point::Call(number),
        "read" => Point::Read(number),
        "write" => Point::Write(number),
        _ => return None,
    };
    Some((point, rest))
}

// `tells`, or `awaits N`.
fn act_of(text: &str) -> Option<Act> {
    if text == "tells" {
        return Some(Act::Tells);
    }
    let number = text.strip_prefix("awaits ")?;
    Some(Act::Awaits(number.parse::<u64>().ok()?))
}

/// The cue of the conversations from one number to another at a point: `FROM TO POINT ACT`.
pub fn cue_of(text: &str) -> Option<Cue> {
    let (from, rest) = text.split_once(' ')?;
    let (to, rest) = rest.split_once(' ')?;
    let (point, rest) = point_of(rest)?;
    Some(Cue {
        conversations: (from.parse::<u64>().ok()?, to.parse::<u64>().ok()?),
        point,
        act: act_of(rest)?,
    })
}

// `stands N`, `lasts N`, or what is done at a point.
fn deed_of(text: &str) -> Option<Deed> {
    match text.split_once(' ') {
        Some(("stands", number)) => Some(Deed::Stands(number.parse::<u64>().ok()?)),
        Some(("lasts", hours)) => Some(Deed::Lasts(hours.parse::<u64>().ok()?)),
        _ => Some(Deed::Does(act_of(text)?)),
    }
}

/// What the disk does in a sync: `NUMBER DEED`.
pub fn stand_of(text: &str) -> Option<Stand> {
    let (sync, deed) = text.split_once(' ')?;
    Some(Stand {
        sync: sync.parse::<u64>().ok()?,
        deed: deed_of(deed)?,
    })
}

fn push_cue(cues: &mut Vec<Cue>, conversation: u64, call: u64, act: Act) -> Option<()> {
    cues.push(Cue {
        conversations: (conversation, conversation),
        point: Point::Call(call),
        act,
    })
    .ok()
}

/// Appends the cues of two conversations whose calls are made one after the other, by the numbers of those that make them.
/// Each call waits until those before it were done, which is known when the same conversation is at its next one.
pub fn push_order(cues: &mut Vec<Cue>, callers: &str) -> Option<()> {
    let (mut before, mut first, mut second) = (0_u64, 0_u64, 0_u64);
    for caller in callers.split_ascii_whitespace() {
        let conversation = caller.parse::<u64>().ok()?;
        let made = if conversation == 2 { second } else { first };
        push_cue(cues, conversation, made, Act::Awaits(before))?;
        push_cue(cues, conversation, made.saturating_add(1), Act::Tells)?;
        before = before.saturating_add(1);
        if conversation == 2 {
            second = made.saturating_add(1);
        } else {
            first = made.saturating_add(1);
        }
    }
    Some(())
}

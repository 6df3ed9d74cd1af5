//! Conversations whose requests come in pieces, over a core that is a script.

ghost use Rattle.std.specs.Prelude.{⊤};

use command_kit::Ask;
use conversation::{Front, Need, Settings};
use core_calls::{Answer, CoreCall};
use std::alloc::Global;

// A core of which a statement changes one row, and which does all else that is asked; or one that is lost. It counts
// how often it was asked.
#[derive(Drop)]
struct Scripted {
    is_lost: bool,
    asked: u8,
}

impl Ask for Scripted {
    ghost asks = { λ _ _ _ _. ⊤ };

    fn ask(&mut self, call: &CoreCall<'_, '_, '_>) -> Answer {
        self.asked = self.asked.saturating_add(1);
        match call {
            _ if self.is_lost => Answer::Closed,
            CoreCall::Run { .. } => Answer::Count(1),
            _ => Answer::Done,
        }
    }
}

// What the conversation has to say next, with ample memory; whether there may be more.
fn push_answer(front: &mut Front, asker: &mut Scripted, out: &mut Vec<u8>) -> Option<bool> {
    out.reserve(21).ok()?;
    match front.next(asker, out) {
        Need::Local => Some(true),
        Need::Short(bytes) => {
            out.extend_from_slice(&bytes).ok()?;
            Some(true)
        }
        Need::Bytes | Need::Closed => Some(false),
    }
}

// All that the conversation has to say now.
fn push_answers(front: &mut Front, asker: &mut Scripted, out: &mut Vec<u8>) -> Option<()> {
    for _ in 0..100 {
        if !push_answer(front, asker, out)? {
            break;
        }
    }
    Some(())
}

// Feeds a piece, command by command, and writes down what is answered.
fn push_answers_to(
    front: &mut Front,
    asker: &mut Scripted,
    piece: &[u8],
    out: &mut Vec<u8>,
) -> Option<()> {
    let mut left = piece;
    for _ in 0..=piece.len() {
        let count = front.feed_command(left);
        push_answers(front, asker, out)?;
        left = &left[count..];
    }
    Some(())
}

// Feeds a request in a first piece and then others of this size, and writes down what is answered.
fn push_answers_in_pieces(
    front: &mut Front,
    asker: &mut Scripted,
    request: &[u8],
    first: usize,
    size: usize,
    out: &mut Vec<u8>,
) -> Option<()> {
    let mut left = request;
    let mut next = first;
    for _ in 0..request.len() {
        let (piece, others) = left.split_at(next.min(left.len()));
        left = others;
        next = size;
        push_answers_to(front, asker, piece, out)?;
    }
    Some(())
}

/// What became of a request.
#[derive(Clone, Copy, PartialEq, Eq)]
pub struct Outcome {
    /// Whether the reply that was expected answered it.
    pub is_answered: bool,
    /// How often the core was asked.
    pub asked: u8,
    /// Whether the conversation is closed then.
    pub is_closed: bool,
}

// What becomes of a request that comes in such pieces.
fn outcome_in_pieces(
    alloc: Global,
    request: &[u8],
    reply: &[u8],
    is_lost: bool,
    (first, size): (usize, usize),
) -> Option<Outcome> {
    let settings = Settings::new(alloc, "ana", "pw", "SHOP").ok()?;
    let mut front = Front::new(alloc, &settings).ok()?;
    let mut asker = Scripted { is_lost, asked: 0 };
    let mut out = Vec::new(alloc);
    push_answers_in_pieces(&mut front, &mut asker, request, first, size, &mut out)?;
    Some(Outcome {
        is_answered: out.as_slice() == reply,
        asked: asker.asked,
        is_closed: front.is_closed(),
    })
}

const WHOLE: usize = 1_000_000;

/// What becomes of a request over a core that is lost or not, where it is the same whatever pieces it comes in: whole, in
/// pieces of some sizes, and cut at each place. None where it is not, and without memory.
pub fn judged(alloc: Global, request: &[u8], reply: &[u8], is_lost: bool) -> Option<Outcome> {
    let whole = outcome_in_pieces(alloc, request, reply, is_lost, (WHOLE, WHOLE))?;
    for size in [1, 2, 3, 7, 10] {
        if outcome_in_pieces(alloc, request, reply, is_lost, (size, size))? != whole {
            return None;
        }
    }
    for cut in 1..request.len() {
        if outcome_in_pieces(alloc, request, reply, is_lost, (cut, WHOLE))? != whole {
            return None;
        }
    }
    Some(whole)
}

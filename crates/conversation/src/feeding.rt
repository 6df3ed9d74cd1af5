//! One conversation and the bytes that come to it.

ghost use Rattle.std.specs.Prelude.{◌≡◌, ◌⊎◌, ◌≤◌, ◌<◌, ◌+◌, length, take, vec_len, vec_capacity};
ghost use Rattle.conversation.specs.declared.fed.FedState.TheVariants as state;
ghost use Rattle.conversation.specs.declared.fed.Heard.TheVariants as heard_as;
ghost use Rattle.conversation.specs.Attended.{attended_by};
ghost use Rattle.conversation.specs.Feeding.{IsBetweenCommands, Takes, state_for};
ghost use Rattle.conversation.specs.Pieces.{HearsPiece};
ghost use Rattle.conversation.specs.Steps.{Steps};

use crate::ahead::begins_with_end;
use crate::fed::{Fed, FedState, Heard, HeardSome};
use crate::front::{Front, Need};
use command_kit::Ask;

/// Gives a conversation bytes, does each command that is whole, and appends its replies to `out`. All bytes
/// are taken where the conversation stays open; none where it was closed before. No bytes behind the command
/// under way are handed on, so that what is taken was answered or belongs to one command.
pub fn feed<A: Ask>(front: &mut Front, asker: &mut A, piece: &[u8], out: &mut Vec<u8>) -> Fed
    requires { IsBetweenCommands front.old }
    ensures settled { IsBetweenCommands front.new }
    ensures settings { front.new.settings ≡ front.old.settings }
    ensures takes { Takes A.asks front.old.settings (attended_by front.old asker.old) piece.now out.old.items result (attended_by front.new asker.new) out.new.items }
{
    dss_frames::laws::stays_read();
    if front.is_closed() {
        return Fed {
            taken: 0,
            state: FedState::Closed,
        };
    }
    let mut taken = 0;
    'pieces: loop {
        let Ok(()) = out.reserve(21) else {
            return Fed {
                taken,
                state: FedState::Later,
            };
        };
        let fed = hand_on(front, asker, &piece[taken..], out);
        taken += fed.taken;
        match fed.state {
            FedState::Open => {
                if taken == piece.len() {
                    return Fed {
                        taken,
                        state: FedState::Open,
                    };
                }
            }
            state => return Fed { taken, state },
        }
    }
}

/// Gives a conversation all of a piece, and appends its replies to `out`, those that say that a command found
/// no memory among them. Where memory is refused, a prefix of the piece was heard, and all of its replies were
/// appended, but perhaps not the last, which says that a command found no memory.
pub fn feed_all<A: Ask>(front: &mut Front, asker: &mut A, piece: &[u8], out: &mut Vec<u8>) -> Heard
    requires { IsBetweenCommands front.old }
    ensures settled { IsBetweenCommands front.new }
    ensures settings { front.new.settings ≡ front.old.settings }
    ensures hears { HearsPiece A.asks front.old.settings (attended_by front.old asker.old) piece.now out.old.items result (attended_by front.new asker.new) out.new.items }
{
    feed_some(front, asker, piece, usize::MAX, out).heard
}

/// The same, until `out` is longer than `most` bytes behind a command: so it never has more than these and the replies
/// to one command. What was taken of the piece was heard as `feed_all` hears a piece; the rest is to be fed again. Whoever
/// is asked rests behind it, since a stream may be waited for next.
pub fn feed_some<A: Ask>(
    front: &mut Front,
    asker: &mut A,
    piece: &[u8],
    most: usize,
    out: &mut Vec<u8>,
) -> HeardSome
    requires { IsBetweenCommands front.old }
    ensures settled { IsBetweenCommands front.new }
    ensures settings { front.new.settings ≡ front.old.settings }
    ensures within { result.taken ≤ length piece.now }
    ensures hears { HearsPiece A.asks front.old.settings (attended_by front.old asker.old) (take result.taken piece.now) out.old.items result.heard (attended_by front.new asker.new) out.new.items }
    ensures goes_on { result.heard ≡ heard_as.Open → 1 ≤ length piece.now → 1 ≤ result.taken }
    ensures all { result.heard ≡ heard_as.Open → (result.taken ≡ length piece.now) ⊎ (most < vec_len out.new) }
{
    dss_frames::laws::stays_read();
    let mut at = 0;
    'feeding: loop {
        let Ok(()) = out.reserve(21) else {
            return so_far(asker, at, Heard::NoMemory);
        };
        let fed = hand_on(front, asker, &piece[at..], out);
        at += fed.taken;
        match fed.state {
            FedState::Open => {
                if at == piece.len() || out.len() > most {
                    return so_far(asker, at, Heard::Open);
                }
            }
            FedState::Closed => return so_far(asker, at, Heard::Closed),
            FedState::Later => return so_far(asker, at, Heard::NoMemory),
            FedState::Short(reply) => match out.extend_from_slice(&reply) {
                Ok(()) => {}
                Err(_) => return so_far(asker, at, Heard::NoMemory),
            },
        }
    }
}

// So much was heard, and whoever is asked rests.
#[inline(always)]
fn so_far<A: Ask>(asker: &mut A, taken: usize, heard: Heard) -> HeardSome
    ensures told { result ≡ record { taken = taken; heard = heard } }
    ensures rests { asker.new ≡ asker.old }
{
    asker.rest();
    HeardSome { taken, heard }
}

// One step, with the bytes in front that belong to one command: some of them, where there are any, or none
// where memory is refused.
#[inline(always)]
fn hand_on<A: Ask>(front: &mut Front, asker: &mut A, piece: &[u8], out: &mut Vec<u8>) -> Fed
    requires settled { IsBetweenCommands front.old }
    requires room { vec_len out.old + 21 ≤ vec_capacity out.old }
    ensures settled { IsBetweenCommands front.new }
    ensures settings { front.new.settings ≡ front.old.settings }
    ensures within { result.taken ≤ length piece.now }
    ensures takes { Takes A.asks front.old.settings (attended_by front.old asker.old) (take result.taken piece.now) out.old.items result (attended_by front.new asker.new) out.new.items }
    ensures moves { result.state ≡ state.Open → 1 ≤ length piece.now → 1 ≤ result.taken }
    ensures stuck { result.state ≡ state.Later → result.taken ≡ 0 }
{
    dss_frames::laws::stays_read();
    let taken = front.feed_command(piece);
    let need = next_before(front, asker, &piece[taken..], out);
    Fed {
        taken,
        state: state_of(need, taken > 0 || piece.is_empty()),
    }
}

// Does the next command, where all of it has come, and these bytes have come behind it.
#[inline(always)]
fn next_before<A: Ask>(front: &mut Front, asker: &mut A, behind: &[u8], out: &mut Vec<u8>) -> Need
    requires room { vec_len out.old + 21 ≤ vec_capacity out.old }
    ensures { Steps A.asks front.old asker.old out.old.items result front.new asker.new out.new.items }
{
    if front.may_ask() {
        asker.expect_end(begins_with_end(behind));
    }
    front.next(asker, out)
}

// How it stands behind one step, by whether bytes were taken or there were none.
#[inline(always)]
fn state_of(need: Need, has_fed: bool) -> FedState
    ensures { result ≡ state_for need has_fed }
{
    match need {
        Need::Bytes | Need::Local => {
            if has_fed {
                FedState::Open
            } else {
                FedState::Later
            }
        }
        Need::Short(bytes) => FedState::Short(bytes),
        Need::Closed => FedState::Closed,
    }
}

//! Who held the lock for long leaves it to others for as long.

use crate::turn::{micros_between, time};
use crate::waiting::Waiting;
use core_calls::CoreCall;
use std::thread::sleep;
use std::time::{Clock, Duration, Instant};
use xa_calls::{Request, Verb};

// A turn of so many microseconds is a long one.
const LONG_MICROS: u64 = 5_000;

// For so many microseconds one stays away at most, and so long at a time: it comes again where nobody else came meanwhile.
const MOST_MICROS: u64 = 1_000_000;

const LOOK_MICROS: u64 = 20_000;

/// For how long a conversation stays away from the lock, which it had for long while others stood at it, as who looks through a large table
/// has. It stays away between two of its units, since what it claims would else be refused to others meanwhile. Who leads a group owes
/// nothing: what it does is done for others. No contract says anything of it.
#[derive(Clone, Copy)]
pub(crate) struct Owing {
    micros: u64,
    since: Option<Instant>,
    is_between: bool,
}

impl Owing {
    /// Nothing is owed.
    pub(crate) fn new() -> Owing {
        Owing {
            micros: 0,
            since: None,
            is_between: true,
        }
    }

    /// Before a call: stays away where it may begin a unit and something is owed, for as long as others come.
    pub(crate) fn pay<R: Clock>(&mut self, rt: &R, waiting: &Waiting, call: &CoreCall<'_, '_, '_>) {
        let begins = self.is_between && !matches!(call, CoreCall::Lost);
        self.is_between = ends_a_unit(call);
        if begins && self.micros > 0 {
            let left = self.left(time(rt));
            self.micros = 0;
            stay_away(rt, waiting, left);
        }
    }

    /// A turn has ended that had the lock for so many microseconds while others stood at it.
    pub(crate) fn owe<R: Clock>(&mut self, rt: &R, held: u64) {
        if held >= LONG_MICROS {
            let now = time(rt);
            self.micros = self.left(now).saturating_add(held).min(MOST_MICROS);
            self.since = now;
        }
    }

    // What is owed then.
    fn left(&self, now: Option<Instant>) -> u64 {
        self.micros.saturating_sub(micros_between(self.since, now))
    }
}

// Stays away for so many microseconds, while others come.
fn stay_away<R: Clock>(rt: &R, waiting: &Waiting, micros: u64) {
    let mut came = waiting.come_so_far();
    for at in 0..micros.div_ceil(LOOK_MICROS) {
        let left = micros.saturating_sub(at.saturating_mul(LOOK_MICROS));
        sleep(rt, Duration::from_micros(left.min(LOOK_MICROS)));
        let before = came;
        came = waiting.come_so_far();
        if came == before {
            return;
        }
    }
}

// Whether a unit ends with this call, if it does as it is told.
fn ends_a_unit(call: &CoreCall<'_, '_, '_>) -> bool {
    match call {
        CoreCall::Commit | CoreCall::RollBack => true,
        CoreCall::Xa(Ok(Request::Branch(verb, _))) => match verb {
            Verb::Commit | Verb::CommitOnePhase | Verb::RollBack => true,
            Verb::Start | Verb::Join | Verb::End(_) | Verb::Prepare | Verb::Forget => false,
        },
        _ => false,
    }
}

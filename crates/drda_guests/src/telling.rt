//! What calls at the lock tell.

use crate::doors::Doors;
use crate::failure::Failure;
use crate::fullness::Fullness;
use crate::log::Log;
use crate::longest::Longest;
use crate::notice::{Notice, Part};
use std::net::OpenStream;
use std::sync::Wait;
use turns::{Gate, Turn};

/// A gate whose turns are told.
#[derive(Clone, Copy)]
pub struct TellingGate<'a, R, G, L, K> {
    pub rt: &'a R,
    pub gate: &'a G,
    pub log: &'a L,
    pub waits: &'a Longest,
    pub holds: &'a Longest,
    pub fullness: &'a Fullness,
    pub failure: &'a Failure,
    pub doors: &'a Doors<K>,
}

impl<R: Wait, G: Gate, L: Log, K: OpenStream + Drop> Gate for TellingGate<'_, R, G, L, K> {
    fn turn(&self, conversation: u64, n: u64) {
        self.gate.turn(conversation, n);
    }

    fn after(&self, conversation: u64, turn: &Turn) {
        self.gate.after(conversation, turn);
        tell_turn(self.log, self.fullness, turn);
        if turn.has_failed && self.failure.note() {
            self.doors.end_all(self.rt, false);
        }
        if let Some(full) = self.fullness.news_of(turn) {
            self.log.tell(Notice::Full {
                conversation,
                need: full.need,
                room: full.room,
                lack: full.lack,
            });
        }
        if self.waits.rises_to(turn.waited) {
            self.log.tell(Notice::LongestWait {
                conversation,
                micros: turn.waited,
            });
        }
        if self.holds.rises_to(turn.held) {
            self.log.tell(Notice::LongestHold {
                conversation,
                micros: turn.held,
            });
        }
    }
}

/// Tells of a checkpoint that was written, of a store that has come to be full, and of a device that failed.
pub fn tell_turn<L: Log>(log: &L, fullness: &Fullness, turn: &Turn) {
    if let Some(room) = turn.checkpointed {
        log.tell(Notice::Checkpoint {
            micros: turn.held,
            room,
        });
    }
    for part in [Part::Journal, Part::Half] {
        if let Some(notice) = fullness.level_of(part, turn) {
            log.tell(notice);
        }
    }
    if turn.has_failed {
        log.tell(Notice::DeviceFailed);
    }
}

//! A log that is kept.

use crate::networks::address;
use drda_program::{Gauge, Lack, Log, Name, Notice, Outcome, Part, Served};
use std::alloc::Global;
use std::fmt::Write;
use std::net::SocketAddr;
use std::sync::{Mutex, Wait};

/// A log that keeps its lines, in which each time is 0. What is told of a time alone is left out: whether it comes
/// depends on the machine.
#[derive(Drop)]
pub struct Kept<'r, T> {
    rt: &'r T,
    lines: Mutex<String>,
}

impl<'r, T: Wait> Kept<'r, T> {
    /// No lines.
    pub fn new(rt: &'r T, alloc: Global) -> Kept<'r, T> {
        Kept {
            rt,
            lines: Mutex::new(String::new(alloc)),
        }
    }

    /// The lines, in the order in which they were told.
    pub fn into_lines(self) -> String {
        self.lines.into_inner()
    }
}

/// Appends the lines of the second conversation, or the others: which of two tells first depends on the machine.
pub fn push_lines(said: &mut Vec<u8>, lines: &str, of_second: bool) -> Option<()> {
    for line in lines.lines() {
        if line.starts_with("drdad: conversation 2") == of_second {
            said.extend_from_slice(line.as_bytes()).ok()?;
            said.push(b'\n').ok()?;
        }
    }
    Some(())
}

impl<T: Wait> Log for Kept<'_, T> {
    fn tell(&self, notice: Notice) {
        if let Some(notice) = timeless(notice) {
            let mut lines = self.lines.lock(self.rt);
            let _ = writeln!(*lines, "{notice}");
        }
    }
}

fn timeless(notice: Notice) -> Option<Notice> {
    match notice {
        Notice::Ends {
            conversation,
            peer,
            outcome,
        } => Some(Notice::Ends {
            conversation,
            peer,
            outcome: Outcome {
                waited: 0,
                held: 0,
                ..outcome
            },
        }),
        Notice::Checkpoint { micros: _, room } => Some(Notice::Checkpoint { micros: 0, room }),
        Notice::LongestWait { .. } | Notice::LongestHold { .. } => None,
        other => Some(other),
    }
}

const GAUGE: Gauge = Gauge {
    room: 200,
    records: 799,
    journal: 1_000,
    tables: 19_000,
    half: 20_000,
};

// What a log may be told, each kind of it at least once.
fn notices() -> [Notice; 21] {
    let peer = Some(address(51234));
    [
        Notice::Begins {
            conversation: 1,
            peer,
        },
        Notice::Begins {
            conversation: u64::MAX,
            peer: None,
        },
        Notice::TurnedAway { peer },
        Notice::TurnedAway { peer: None },
        Notice::Refused { conversation: 2 },
        ends(peer),
        Notice::Checkpoint {
            micros: 1_234,
            room: 2_048,
        },
        Notice::DeviceFailed,
        Notice::EndsFailed,
        Notice::Late { conversation: 6 },
        Notice::Ousted { conversation: 7 },
        Notice::NoThread { conversation: 8 },
        ends_refused(peer),
        Notice::Opened {
            name: Name::of("SHOP"),
            room: 2_048,
            doubts: 3,
        },
        full(10, Lack::Journal),
        full(11, Lack::Unit),
        full(12, Lack::Half),
        Notice::Level {
            part: Part::Journal,
            level: 80,
            gauge: GAUGE,
        },
        Notice::Level {
            part: Part::Half,
            level: 95,
            gauge: GAUGE,
        },
        Notice::LongestWait {
            conversation: 3,
            micros: 1_000,
        },
        Notice::LongestHold {
            conversation: 4,
            micros: 2_500,
        },
    ]
}

/// Writes what a log may be told.
pub fn tell_notices(alloc: Global, told: &mut Vec<u8>) -> Option<()> {
    for notice in notices() {
        let line = format!(in alloc; "{notice}\n").ok()?;
        told.extend_from_slice(line.as_bytes()).ok()?;
    }
    Some(())
}

fn ends(peer: Option<SocketAddr>) -> Notice {
    Notice::Ends {
        conversation: 5,
        peer,
        outcome: Outcome {
            served: Served::NoMemory,
            is_logged_in: true,
            refused: 0,
            calls: 6,
            waited: 7,
            held: 8,
        },
    }
}

fn full(conversation: u64, lack: Lack) -> Notice {
    Notice::Full {
        conversation,
        need: 900,
        room: 800,
        lack,
    }
}

fn ends_refused(peer: Option<SocketAddr>) -> Notice {
    Notice::Ends {
        conversation: 9,
        peer,
        outcome: Outcome {
            served: Served::Done,
            is_logged_in: false,
            refused: 4,
            calls: 1,
            waited: 0,
            held: 0,
        },
    }
}

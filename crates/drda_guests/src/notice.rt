//! What a server tells of its conversations.

use std::fmt;
use std::net::SocketAddr;
use stream_service::Served;
use turns::{Gauge, Lack};

/// The program's version, as its word `version` tells it.
const VERSION: &str = "0.10";

/// What a server tells of its conversations, a line each. Times are in microseconds, 0 where the clock can't be read.
#[derive(Clone, Copy)]
pub enum Notice {
    /// A conversation begins, of a stream of this peer. Its number is given once.
    Begins {
        conversation: u64,
        peer: Option<SocketAddr>,
    },
    /// A stream of this peer is closed at once, since 64 conversations are served.
    TurnedAway {
        peer: Option<SocketAddr>,
    },
    /// The user or the password of a conversation is refused.
    Refused {
        conversation: u64,
    },
    /// Conversations over the database of this name are about to be served, with so many bytes left for records and so many units in
    /// doubt.
    Opened {
        name: Name,
        room: usize,
        doubts: u64,
    },
    /// A record of a conversation, which takes and holds so many bytes, found no room in those that are left, and in what.
    Full {
        conversation: u64,
        need: u64,
        room: u64,
        lack: Lack,
    },
    /// A part of the store has come to be so full, in parts of a hundred.
    Level {
        part: Part,
        level: u64,
        gauge: Gauge,
    },
    /// A conversation has not opened the database in the time that it has, and its stream is ended.
    Late {
        conversation: u64,
    },
    /// A conversation has not opened the database, and its stream is ended since another one wants its place.
    Ousted {
        conversation: u64,
    },
    /// No thread could be made for a conversation: until it has ended, no other one is let in.
    NoThread {
        conversation: u64,
    },
    /// The device has failed, and serving ends.
    EndsFailed,
    /// A conversation of this peer has ended.
    Ends {
        conversation: u64,
        peer: Option<SocketAddr>,
        outcome: Outcome,
    },
    /// A checkpoint was written, with the lock held for so long; so many bytes are left for records.
    Checkpoint {
        micros: u64,
        room: usize,
    },
    /// The device has failed.
    DeviceFailed,
    /// A call of a conversation waited for the lock for so long, longer than any that was told before.
    LongestWait {
        conversation: u64,
        micros: u64,
    },
    /// A call of a conversation held the lock for so long, longer than any that was told before.
    LongestHold {
        conversation: u64,
        micros: u64,
    },
}

/// A part of a store that may be full.
#[derive(Clone, Copy, Debug, PartialEq, Eq)]
pub enum Part {
    /// The journal, until the next checkpoint.
    Journal,
    /// A half, by the tables.
    Half,
}

/// The name of a database, of 18 bytes at most.
#[derive(Clone, Copy)]
pub struct Name {
    bytes: [u8; 18],
    length: usize,
}

impl Name {
    /// The name that a text is, or what stands in front of its 19th byte.
    pub fn of(text: &str) -> Name {
        let mut bytes = [0u8; 18];
        let mut length = 0usize;
        for (place, byte) in bytes.iter_mut().zip(text.as_bytes()) {
            *place = *byte;
            length = length.saturating_add(1);
        }
        Name { bytes, length }
    }
}

impl fmt::Display for Name {
    fn fmt<W: fmt::Write>(&self, f: &mut fmt::Formatter<W>) -> fmt::Result {
        for byte in self.bytes.as_slice().iter().take(self.length) {
            f.write_char(char::from(*byte))?;
        }
        Ok(())
    }
}

/// How a conversation has ended.
#[derive(Clone, Copy)]
pub struct Outcome {
    /// What ended it.
    pub served: Served,
    /// Whether its user and its password were right.
    pub is_logged_in: bool,
    /// How many of its logins were refused.
    pub refused: u64,
    /// How many of its calls are listed, its loss among them.
    pub calls: u64,
    /// For how many microseconds one of them waited for the lock at most.
    pub waited: u64,
    /// For how many microseconds one of them held the lock at most.
    pub held: u64,
}

impl fmt::Display for Notice {
    fn fmt<W: fmt::Write>(&self, f: &mut fmt::Formatter<W>) -> fmt::Result {
        match *self {
            Notice::Begins { conversation, peer } => {
                write!(f, "drdad: conversation {conversation} begins, of ")?;
                write_peer(f, peer)
            }
            Notice::TurnedAway { peer } => {
                write!(f, "drdad: 64 conversations are served, turned away ")?;
                write_peer(f, peer)
            }
            Notice::Refused { conversation } => write!(
                f,
                "drdad: conversation {conversation}: user or password refused"
            ),
            Notice::Opened { name, room, doubts } => write!(
                f,
                "drdad: version {VERSION}, database {name}, room {room}, in doubt {doubts}"
            ),
            Notice::Full { .. }
            | Notice::Level { .. }
            | Notice::Late { .. }
            | Notice::Ousted { .. }
            | Notice::NoThread { .. }
            | Notice::EndsFailed => write_trouble(f, *self),
            Notice::Ends {
                conversation,
                peer,
                outcome,
            } => {
                write!(f, "drdad: conversation {conversation} ends, of ")?;
                write_peer(f, peer)?;
                write_outcome(f, outcome)
            }
            Notice::Checkpoint { micros, room } => write!(
                f,
                "drdad: checkpoint: lock held {micros} us, room {room}"
            ),
            Notice::DeviceFailed => write!(f, "drdad: the device has failed"),
            Notice::LongestWait {
                conversation,
                micros,
            } => write!(
                f,
                "drdad: conversation {conversation} waited {micros} us for the lock, a new longest"
            ),
            Notice::LongestHold {
                conversation,
                micros,
            } => write!(
                f,
                "drdad: conversation {conversation} held the lock {micros} us, a new longest"
            ),
        }
    }
}

// What keeps conversations from being served.
fn write_trouble<W: fmt::Write>(f: &mut fmt::Formatter<W>, notice: Notice) -> fmt::Result {
    match notice {
        Notice::Full {
            conversation,
            need,
            room,
            lack,
        } => write!(
            f,
            "drdad: conversation {conversation}: no room for {need} bytes, {room} are left: {}",
            lacking(lack)
        ),
        Notice::Level { part, level, gauge } => write_level(f, part, level, gauge),
        Notice::Late { conversation } => write!(
            f,
            "drdad: conversation {conversation} has not opened the database in time, ended"
        ),
        Notice::Ousted { conversation } => write!(
            f,
            "drdad: conversation {conversation} has not opened the database, its place is given to another"
        ),
        Notice::NoThread { conversation } => write!(
            f,
            "drdad: no thread for conversation {conversation}, until it ends no other is let in"
        ),
        Notice::EndsFailed => write!(f, "drdad: the device has failed, serving ends"),
        _ => Ok(()),
    }
}

fn write_peer<W: fmt::Write>(f: &mut fmt::Formatter<W>, peer: Option<SocketAddr>) -> fmt::Result {
    match peer {
        Some(peer) => write!(f, "{peer}"),
        None => write!(f, "an unknown peer"),
    }
}

fn write_outcome<W: fmt::Write>(f: &mut fmt::Formatter<W>, outcome: Outcome) -> fmt::Result {
    let (cause, login) = (cause_of(outcome.served), login_of(outcome.is_logged_in));
    let (calls, waited, held) = (outcome.calls, outcome.waited, outcome.held);
    write!(
        f,
        ": {cause}, {login}, calls {calls}, waited at most {waited} us, lock held at most {held} us"
    )?;
    if outcome.refused > 0 {
        let refused = outcome.refused;
        write!(f, ", logins refused {refused}")?;
    }
    Ok(())
}

// How full the store is.
fn write_level<W: fmt::Write>(
    f: &mut fmt::Formatter<W>,
    part: Part,
    level: u64,
    gauge: Gauge,
) -> fmt::Result {
    let (room, journal, tables, half) = (gauge.room, gauge.journal, gauge.tables, gauge.half);
    let full = match part {
        Part::Journal => "the journal is",
        Part::Half => "by its tables a half is",
    };
    write!(f, "drdad: {full} {level} of 100 full: ")?;
    write!(f, "room {room} of {journal}, tables {tables} of {half}")
}

// What has no room.
fn lacking(lack: Lack) -> &'static str {
    match lack {
        Lack::Unit => "behind a checkpoint, smaller units go through",
        Lack::Journal => "the journal has no room until a checkpoint",
        Lack::Half => "the tables no longer fit in a half",
    }
}

// What ended a conversation.
fn cause_of(served: Served) -> &'static str {
    match served {
        Served::Done => "stream ended or closed",
        Served::ReadFault => "read failed or nothing came",
        Served::WriteFault => "write failed",
        Served::NoMemory => "no memory",
    }
}

fn login_of(is_logged_in: bool) -> &'static str {
    if is_logged_in {
        "logged in"
    } else {
        "never logged in"
    }
}

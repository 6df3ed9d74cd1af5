//! Conversations over streams in memory: what they say, and whether they are answered as they should be.

use crate::boards::LIMIT;
use crate::stages::{Point, Stage};
use std::alloc::Global;
use std::io::{self, Read, Write};
use std::net::OpenStream;
use std::sync::atomic::{AtomicU64, Ordering};
use std::thread::yield_now;

/// What a conversation says and what it is to be answered; and what became of it, which each thread may look at.
#[derive(Drop)]
pub struct Talk {
    pieces: Vec<Vec<u8>>,
    replies: Vec<u8>,
    begun: AtomicU64,
    right: AtomicU64,
    wrong: AtomicU64,
    closed: AtomicU64,
}

/// Bytes by a name.
#[derive(Drop)]
pub struct Named {
    pub name: String,
    pub bytes: Vec<u8>,
}

// Appends a copy of the bytes of each that has the name.
fn push_pieces(
    alloc: Global,
    pieces: &mut Vec<Vec<u8>>,
    named: &[Named],
    name: &str,
) -> Option<()> {
    for it in named {
        if it.name.as_str() == name {
            pieces.push(Vec::from_slice(alloc, &it.bytes).ok()?).ok()?;
        }
    }
    Some(())
}

/// The bytes of these names, each of which one read gives; of `NAME*TIMES` so many reads do.
pub fn pieces_of(alloc: Global, named: &[Named], names: &str) -> Option<Vec<Vec<u8>>> {
    let mut pieces = Vec::new(alloc);
    for word in names.split_ascii_whitespace() {
        let (name, times) = word.split_once('*').unwrap_or((word, "1"));
        for _ in 0..times.parse::<u64>().ok()? {
            push_pieces(alloc, &mut pieces, named, name)?;
        }
    }
    Some(pieces)
}

/// These bytes, one after the other.
pub fn joined(alloc: Global, pieces: &[Vec<u8>]) -> Option<Vec<u8>> {
    let mut bytes = Vec::new(alloc);
    for piece in pieces {
        bytes.extend_from_slice(piece).ok()?;
    }
    Some(bytes)
}

impl Talk {
    /// A conversation that says these pieces, and is to be answered so.
    pub fn new(pieces: Vec<Vec<u8>>, replies: Vec<u8>) -> Talk {
        Talk {
            pieces,
            replies,
            begun: AtomicU64::new(0),
            right: AtomicU64::new(0),
            wrong: AtomicU64::new(0),
            closed: AtomicU64::new(0),
        }
    }

    /// What it is read from and written to, as the conversation of this number.
    pub fn streams<'a>(&'a self, stage: &'a Stage<'a>, number: u64) -> (Tape<'a>, Checker<'a>) {
        let tape = Tape {
            talk: self,
            stage,
            number,
            reads: 0,
        };
        let checker = Checker {
            talk: self,
            stage,
            number,
            writes: 0,
            left: &self.replies,
        };
        (tape, checker)
    }

    /// Whether it was read from at all.
    pub fn is_begun(&self) -> bool {
        self.begun.load(Ordering::SeqCst) > 0
    }

    /// Waits until it has ended, as long as is waited for anybody.
    pub fn wait_for_end(&self) {
        for _ in 0..LIMIT {
            if self.closed.load(Ordering::SeqCst) > 0 {
                return;
            }
            yield_now();
        }
    }

    // Whether its one stream was closed, unread and unanswered.
    fn is_turned_away(&self) -> bool {
        !self.is_begun()
            && self.right.load(Ordering::SeqCst) == 0
            && self.wrong.load(Ordering::SeqCst) == 0
            && self.closed.load(Ordering::SeqCst) == 1
    }

    // Whether it was answered to the last byte, once, and by no other byte.
    fn is_answered(&self) -> bool {
        self.right.load(Ordering::SeqCst) == self.replies.len() as u64
            && self.wrong.load(Ordering::SeqCst) == 0
    }

    /// What became of it.
    pub fn end(&self) -> &'static str {
        if self.is_answered() {
            "answered"
        } else if self.is_turned_away() {
            "turned away"
        } else {
            "answered otherwise"
        }
    }
}

/// What a conversation is read from, piece by piece.
pub struct Tape<'a> {
    talk: &'a Talk,
    stage: &'a Stage<'a>,
    number: u64,
    reads: usize,
}

impl Read for Tape<'_> {
    fn read(&mut self, buffer: &mut [u8]) -> io::Result<usize> {
        self.talk.begun.fetch_add(1, Ordering::SeqCst);
        self.stage
            .reach(self.number, Point::Read(self.reads as u64));
        let Some(piece) = self.talk.pieces.get(self.reads) else {
            return Ok(0);
        };
        self.reads = self.reads.saturating_add(1);
        let mut left = piece.as_slice();
        left.read(buffer)
    }
}

impl Drop for Tape<'_> {
    fn drop(self) {
        let Tape {
            talk,
            stage,
            number,
            reads: _,
        } = self;
        talk.closed.fetch_add(1, Ordering::SeqCst);
        stage.reach(number, Point::Closed);
    }
}

/// What a conversation's answers are written on, which compares them with what is still to come.
#[derive(Drop)]
pub struct Checker<'a> {
    talk: &'a Talk,
    stage: &'a Stage<'a>,
    number: u64,
    writes: u64,
    left: &'a [u8],
}

impl Checker<'_> {
    fn check(&mut self, byte: u8) {
        match self.left.split_first() {
            Some((wanted, left)) if *wanted == byte => {
                self.left = left;
                self.talk.right.fetch_add(1, Ordering::SeqCst);
            }
            _ => {
                self.talk.wrong.fetch_add(1, Ordering::SeqCst);
            }
        }
    }
}

// It can't be ended from elsewhere.
impl OpenStream for Checker<'_> {}

impl Write for Checker<'_> {
    fn write(&mut self, bytes: &[u8]) -> io::Result<usize> {
        self.stage.reach(self.number, Point::Write(self.writes));
        self.writes = self.writes.saturating_add(1);
        for byte in bytes {
            self.check(*byte);
        }
        Ok(bytes.len())
    }

    fn flush(&mut self) -> io::Result<()> {
        Ok(())
    }
}

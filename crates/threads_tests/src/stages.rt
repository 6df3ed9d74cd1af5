//! Who waits where, and for whom.

use crate::boards::Board;
use shared_node::{Gate, Turn};

/// Where a conversation is: before a call, a read or a write of its own, counted from 0, or where its stream was closed.
#[derive(Clone, Copy, PartialEq, Eq)]
pub enum Point {
    Call(u64),
    Read(u64),
    Write(u64),
    Closed,
}

/// What is done at a point.
#[derive(Clone, Copy)]
pub enum Act {
    /// It is told that the point was reached.
    Tells,
    /// It is waited until this many were told.
    Awaits(u64),
}

/// What conversations, from one number to another, do at a point.
#[derive(Clone, Copy)]
pub struct Cue {
    pub conversations: (u64, u64),
    pub point: Point,
    pub act: Act,
}

/// Conversations that wait for each other, by these cues; each follows its own in their order.
#[derive(Clone, Copy)]
pub struct Stage<'a> {
    cues: &'a [Cue],
    board: &'a Board,
}

impl<'a> Stage<'a> {
    /// What is told goes to this board.
    pub fn new(cues: &'a [Cue], board: &'a Board) -> Stage<'a> {
        Stage { cues, board }
    }

    /// A conversation has come to a point.
    pub fn reach(&self, conversation: u64, point: Point) {
        for cue in self.cues {
            let (first, last) = cue.conversations;
            if cue.point == point && first <= conversation && conversation <= last {
                self.board.follow(cue.act);
            }
        }
    }

    /// One more is told.
    pub fn tell(&self) {
        self.board.tell();
    }
}

impl Gate for Stage<'_> {
    fn turn(&self, conversation: u64, n: u64) {
        self.reach(conversation, Point::Call(n));
    }

    fn after(&self, _conversation: u64, turn: &Turn) {
        self.board.note(turn);
    }
}

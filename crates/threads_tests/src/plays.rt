//! Conversations that are served over one core, a thread for each.

use crate::boards::{Board, LIMIT, Stand};
use crate::clocks::Ahead;
use crate::stages::{Cue, Stage};
use crate::standing::StandingDisk;
use crate::talks::{Checker, Talk, Tape};
use conversation::Settings;
use drda_disk::MemDisk;
use drda_program::{Failure, Rules, Silent, Streams, serve_streams};
use durable_core::{DurableCore, EarlyUnits, open};
use early_disk::EarlyDisk;
use shared_node::{Book, Shared};
use std::alloc::Global;
use std::marker::{Brand, Sync};
use std::sync::Wait;
use std::thread::{Threads, yield_now};
use std::time::Clock;
use test_core::fresh_store;

/// A disk in memory that may stand in its syncs, and writes early.
pub type Stood<'r> = EarlyDisk<StandingDisk<'r, MemDisk>, EarlyUnits>;

/// A core over such a disk.
pub type Core<'r> = DurableCore<Stood<'r>>;

/// Where plays are played: what they run on, where is looked who sleeps, and the board on which they tell.
#[derive(Drop)]
pub struct House<'r, R> {
    pub rt: &'r R,
    pub files: HostRuntime,
    pub alloc: Global,
    pub board: &'r Board,
}

impl<'r, R> House<'r, R> {
    fn opened(&self, disk: MemDisk) -> Option<Core<'r>> {
        let stood = StandingDisk::new(self.files, self.alloc, self.board, disk);
        match open(self.alloc, EarlyDisk::new(stood)) {
            Ok(core) => Some(core),
            Err(_) => None,
        }
    }

    /// The core of a fresh store of the name SHOP. None without memory.
    pub fn fresh_core(&self) -> Option<Core<'r>> {
        self.opened(fresh_store(self.alloc)?)
    }

    /// What is opened of a core's disk behind a crash, which leaves of each write that was not synced what `pick` says. None
    /// without memory.
    pub fn crashed(&self, core: Core<'r>, pick: u64) -> Option<Core<'r>> {
        self.opened(core.into_disk().into_inner().into_inner().after_crash(pick))
    }
}

/// What conversations say, and where they and the disk wait for each other.
#[derive(Clone, Copy)]
pub struct Script<'a> {
    pub cues: &'a [Cue],
    pub stands: &'a [Stand],
    pub talks: &'a [Talk],
    /// The last conversation comes again and again, until it is heard.
    pub is_crowd: bool,
}

/// What is left when all have ended: how many waited for too long, whether each has given its leave back, and
/// whether the device has failed.
#[derive(Clone, Copy)]
pub struct Left {
    pub late: u64,
    pub is_idle: bool,
    pub is_failed: bool,
}

/// Of more conversations than these, each comes only when the one that came so many before it has ended: so none is turned away.
const MANY: usize = 100;

const AT_A_TIME: u64 = 32;

/// Conversations that come one after the other, and are numbered from 1 on; and one more that comes again and
/// again, until it is heard.
#[derive(Drop)]
struct Callers<'a> {
    stage: &'a Stage<'a>,
    all: &'a [Talk],
    talks: &'a [Talk],
    again: Option<&'a Talk>,
    number: u64,
    tries: u64,
}

impl<'a> Callers<'a> {
    // Where many come, waits until the one that came before those of a time has ended.
    fn wait_for_place(&self) {
        if self.all.len() <= MANY || self.number < AT_A_TIME {
            return;
        }
        let before = self.number.saturating_sub(AT_A_TIME);
        if let Some(talk) = self.all.get(before as usize) {
            talk.wait_for_end();
        }
    }

    // The conversation that comes again and again. Once it is heard, it is told, and none comes any more.
    fn try_again(&mut self) -> Option<(Tape<'a>, Checker<'a>)> {
        let talk = self.again?;
        if talk.is_begun() || self.tries >= LIMIT {
            self.stage.tell();
            return None;
        }
        self.tries = self.tries.saturating_add(1);
        yield_now();
        Some(talk.streams(self.stage, self.number.saturating_add(1)))
    }
}

impl<'a> Streams for Callers<'a> {
    type Reader = Tape<'a>;

    type Writer = Checker<'a>;

    fn next(&mut self) -> Option<(Tape<'a>, Checker<'a>)> {
        let Some((talk, talks)) = self.talks.split_first() else {
            return self.try_again();
        };
        self.wait_for_place();
        self.talks = talks;
        self.number = self.number.saturating_add(1);
        Some(talk.streams(self.stage, self.number))
    }
}

/// Serves the conversations of a script over a core, which is handed back. None without memory.
pub fn play<'r, R: Threads + Wait + Clock + Sync>(
    house: &House<'r, R>,
    core: Core<'r>,
    script: Script<'_>,
) -> Option<(Left, Core<'r>)> {
    house.board.begin(script.stands)?;
    let stage = Stage::new(script.cues, house.board);
    let (talks, again) = match script.talks.split_last() {
        Some((last, others)) if script.is_crowd => (others, Some(last)),
        _ => (script.talks, None),
    };
    let mut callers = Callers {
        stage: &stage,
        all: talks,
        talks,
        again,
        number: 0,
        tries: 0,
    };
    let (book, is_idle) = serve(house, core, &stage, &mut callers)?;
    let left = Left {
        late: house.board.late(),
        is_idle,
        is_failed: book.core().is_failed(),
    };
    Some((left, book.into_core()))
}

// Serves the conversations of these callers over a core, for ana with the password pw. The book that is left, and whether all
// leave came back to it. None without memory.
fn serve<'r, R: Threads + Wait + Clock + Sync>(
    house: &House<'r, R>,
    core: Core<'r>,
    stage: &Stage<'_>,
    callers: &mut Callers<'_>,
) -> Option<(Book<Stood<'r>>, bool)> {
    let alloc = house.alloc;
    let settings = Settings::new(alloc, "ana", "pw", "SHOP").ok()?;
    let shared: Shared<Stood<'r>, Brand> = match Shared::new(alloc, core, u64::MAX) {
        Ok(shared) => shared,
        Err(_) => return None,
    };
    let failure = Failure::new(false);
    let rules = Rules {
        login: 3_600,
        idle: None,
        cursor_bytes: usize::MAX,
        failure: &failure,
    };
    let rt = Ahead {
        rt: house.rt,
        board: house.board,
    };
    let served = serve_streams(
        &rt, alloc, &shared, &settings, stage, &Silent, rules, callers,
    );
    let (book, is_idle) = match shared.close(Vec::new(alloc)) {
        Ok(book) => (book, true),
        Err(book) => (book, false),
    };
    if served.is_ok() {
        Some((book, is_idle))
    } else {
        None
    }
}

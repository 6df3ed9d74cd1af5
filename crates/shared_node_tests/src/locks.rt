//! A book under a lock, and passes, of which some may be another book's.

use crate::books::{Core, Device, place_of};
use crate::tallies::{Tally, Told};
use conversation::Settings;
use counted_streams::{Reader, Writer};
use shared_node::{Desk, Pass, Shared};
use std::alloc::Global;
use std::marker::Brand;
use std::sync::Wait;
use std::time::Clock;
use stream_service::OpenHouse;
use test_bytes::{bytes_of, push_texts};
use test_calls::push_text;

/// A book under a lock, and passes in the order in which they were given, from 1 on.
#[derive(Drop)]
pub struct Locks {
    alloc: Global,
    shared: Option<Shared<Device, Brand>>,
    passes: Vec<Option<Pass>>,
}

// What a conversation says as it opens the database, and how it makes a table and commits: EXCSAT, ACCSEC, SECCHK and ACCRDB;
// EXCSQLIMM with CREATE TABLE T (K INTEGER NOT NULL, PRIMARY KEY (K)); RDBCMM.
const OPEN: [&str; 4] = [
    "001E D001 0001 0018 1041 0014 1404 2407 0007 1C01 0007 1C08 04B8 14C0 0005",
    "0026 D001 0002 0020 106D 0006 11A2 0003 0016 2110 E2C8D6D7 40*14",
    "001D D001 0003 0017 106E 0006 11A2 0003 0007 11A0 616E61 0006 11A1 7077",
    "002D D001 0004 0027 2001 0016 2110 53484F50 20*14 000D 002F 51544453514C415343",
];

const CREATE: [&str; 2] = [
    "000A D051 0006 0004 200A",
    "0044 D003 0006 003E 2414 00 00000034 435245415445205441424C452054 20 284B 20 494E5445474552 20 4E4F54 20 4E554C4C 2C 20 5052494D415259 20 4B4559 20 284B2929 FF",
];

const COMMIT: [&str; 1] = ["000A D001 0006 0004 200E"];

// What a conversation says that commits so many times, and where it `writes` makes a table before.
fn said(alloc: Global, writes: bool, times: u64) -> Option<Vec<u8>> {
    let mut bytes = bytes_of(alloc, &OPEN).ok()?;
    if writes {
        push_texts(&mut bytes, &CREATE).ok()?;
    }
    for _ in 0..times {
        push_texts(&mut bytes, &COMMIT).ok()?;
    }
    Some(bytes)
}

// How many commits these replies tell: ENDUOWRM.
fn ends_in(replies: &[u8]) -> u64 {
    let mut ends = 0_u64;
    for at in 1..replies.len() {
        if replies[at - 1] == 0x22 && replies[at] == 0x0C {
            ends = ends.saturating_add(1);
        }
    }
    ends
}

// The pass of one conversation more that commits so many times, how many of the commits were done, and what was told of its turns. Where
// it `writes`, it has made a table before. None where there is no leave.
fn hold<R: Wait + Clock>(
    rt: &R,
    alloc: Global,
    shared: &Shared<Device, Brand>,
    writes: bool,
    times: u64,
) -> Option<(Pass, u64, Told)> {
    let settings = Settings::new(alloc, "ana", "pw", "SHOP").ok()?;
    let said = said(alloc, writes, times)?;
    let tally = Tally::new();
    let desk = Desk::new(rt, shared, &tally, shared.admit(rt)?);
    let mut reader = Reader::new(said.as_slice());
    let mut writer = Writer::new(Vec::new(alloc));
    let ended = desk.serve(alloc, &settings, &mut reader, &mut writer, &mut OpenHouse);
    Some((ended.pass, ends_in(&writer.into_inner()), tally.told()))
}

// What is told of a book that is to be closed with these passes.
fn closed(shared: Shared<Device, Brand>, passes: Vec<Pass>) -> &'static str {
    if shared.close(passes).is_ok() {
        "closed"
    } else {
        "refused"
    }
}

impl Locks {
    /// No book, and no pass.
    pub fn new(alloc: Global) -> Locks {
        Locks {
            alloc,
            shared: None,
            passes: Vec::new(alloc),
        }
    }

    /// A new book over a core. The passes of the one before it stay.
    pub fn open(&mut self, core: Core) -> Option<()> {
        self.shared = Shared::new(self.alloc, core, u64::MAX).ok();
        if self.shared.is_some() {
            Some(())
        } else {
            None
        }
    }

    /// There is no pass any more.
    pub fn forget(&mut self) {
        self.passes.clear();
    }

    fn hold<R: Wait + Clock>(&mut self, rt: &R, writes: bool, times: &str) -> Option<String> {
        let Some(shared) = &self.shared else {
            return None;
        };
        let times = times.parse::<u64>().ok()?;
        let (pass, done, told) = hold(rt, self.alloc, shared, writes, times)?;
        self.passes.push(Some(pass)).ok()?;
        let (turns, failures, checkpoints) = (told.turns, told.failures, told.checkpoints);
        format!(in self.alloc;
            "done: {done}, turns: {turns}, failures: {failures}, checkpoints: {checkpoints}"
        ).ok()
    }

    fn take_pass(&mut self, number: &str) -> Option<Pass> {
        let Some(slot) = self.passes.get_mut(place_of(number.parse::<u64>().ok()?)?) else {
            return None;
        };
        slot.take()
    }

    fn give_back<R: Wait>(&mut self, rt: &R, number: &str) -> Option<&'static str> {
        let pass = self.take_pass(number)?;
        let Some(shared) = &self.shared else {
            return None;
        };
        Some(if shared.retire(rt, pass) {
            "taken back"
        } else {
            "a stranger's"
        })
    }

    fn take_passes(&mut self, numbers: &str) -> Option<Vec<Pass>> {
        let mut passes = Vec::new(self.alloc);
        for number in numbers.split_ascii_whitespace() {
            passes.push(self.take_pass(number)?).ok()?;
        }
        Some(passes)
    }

    fn close(&mut self, numbers: &str) -> Option<&'static str> {
        let passes = self.take_passes(numbers)?;
        match self.shared.take() {
            Some(shared) => Some(closed(shared, passes)),
            None => None,
        }
    }

    fn consider<R: Wait + Clock>(&mut self, rt: &R) -> Option<String> {
        let Some(shared) = &self.shared else {
            return None;
        };
        let turn = shared.consider_checkpoint(rt);
        let (is_written, has_failed) = (turn.checkpointed.is_some(), turn.has_failed);
        format!(in self.alloc; "checkpoint: {is_written}, failed: {has_failed}").ok()
    }

    /// `holds N` and `writes N` are conversations of so many commits, which end with a loss, `back N` gives a pass back, `consider`
    /// considers a checkpoint, and `close N..` closes the book with these passes.
    pub fn tell<R: Wait + Clock>(
        &mut self,
        rt: &R,
        verb: &str,
        rest: &str,
        out: &mut Vec<u8>,
    ) -> Option<()> {
        match verb {
            "holds" | "writes" => push_text(out, &self.hold(rt, verb == "writes", rest)?),
            "back" => push_text(out, self.give_back(rt, rest)?),
            "consider" => push_text(out, &self.consider(rt)?),
            _ => push_text(out, self.close(rest)?),
        }
    }
}

//! What conversations say and where they wait for each other, a line each.

use crate::boards::{Spent, Stand};
use crate::cues::{cue_of, push_order, stand_of};
use crate::plays::{Core, House, Left, Script, play};
use crate::stages::Cue;
use crate::talks::{Named, Talk, joined, pieces_of};
use std::alloc::Global;
use std::marker::Sync;
use std::sync::Wait;
use std::thread::Threads;
use std::time::Clock;
use test_bytes::bytes_of;

/// Bytes by their names, a core, conversations that are still to be served over it with their cues and those of the disk, and what became
/// of the lines so far.
#[derive(Drop)]
pub struct Rows<'r, R> {
    house: House<'r, R>,
    alloc: Global,
    named: Vec<Named>,
    core: Option<Core<'r>>,
    cues: Vec<Cue>,
    stands: Vec<Stand>,
    talks: Vec<Talk>,
    written: Vec<u8>,
}

fn push_text(out: &mut Vec<u8>, text: &str) -> Option<()> {
    out.extend_from_slice(text.as_bytes()).ok()
}

// How many conversations have their numbers told; of more only how many there are of each end.
const TOLD: usize = 100;

// Appends the numbers of the conversations, from 1 on, behind what became of them, which is told once of those in a row.
fn push_ends(alloc: Global, talks: &[Talk], out: &mut Vec<u8>) -> Option<()> {
    let mut before = "";
    let mut number = 0_u64;
    for talk in talks {
        number = number.saturating_add(1);
        if talk.end() != before {
            before = talk.end();
            push_text(out, &format!(in alloc; "; {before}:").ok()?)?;
        }
        push_text(out, &format!(in alloc; " {number}").ok()?)?;
    }
    Some(())
}

// Appends how many of the conversations were answered.
fn push_count(alloc: Global, talks: &[Talk], out: &mut Vec<u8>) -> Option<()> {
    let answered = talks.iter().filter(|talk| talk.end() == "answered").count();
    let all = talks.len();
    push_text(
        out,
        &format!(in alloc; "; answered: {answered} of {all}").ok()?,
    )
}

// Appends what is left when all have ended; and of a play whose disk stood somewhere, how long that was.
fn push_left(alloc: Global, left: Left, spent: Option<Spent>, out: &mut Vec<u8>) -> Option<()> {
    let (late, is_idle, is_failed) = (left.late, left.is_idle, left.is_failed);
    push_text(
        out,
        &format!(in alloc; "  late: {late}, idle: {is_idle}, failed: {is_failed}").ok()?,
    )?;
    let Some(spent) = spent else {
        return Some(());
    };
    let (syncs, waited, held) = (spent.syncs, spent.waited, spent.held);
    push_text(
        out,
        &format!(in alloc; "; syncs: {syncs}, hours waited: {waited}, held: {held}").ok()?,
    )
}

impl<'r, R: Threads + Wait + Clock + Sync> Rows<'r, R> {
    /// Nothing.
    pub fn new(house: House<'r, R>) -> Rows<'r, R> {
        let alloc = house.alloc;
        Rows {
            house,
            alloc,
            named: Vec::new(alloc),
            core: None,
            cues: Vec::new(alloc),
            stands: Vec::new(alloc),
            talks: Vec::new(alloc),
            written: Vec::new(alloc),
        }
    }

    /// Each line, and what it came to.
    pub fn into_written(self) -> Vec<u8> {
        self.written
    }

    /// Does what each line asks for that is not empty and does not begin with #. None where a line asks for nothing that there is, and
    /// without memory.
    pub fn follow(&mut self, text: &str) -> Option<()> {
        for line in text.lines() {
            push_text(&mut self.written, line)?;
            push_text(&mut self.written, "\n")?;
            if !line.is_empty() && !line.starts_with('#') {
                let (verb, rest) = line.split_once(' ').unwrap_or((line, ""));
                self.answer(verb, rest)?;
            }
        }
        Some(())
    }

    // `name` gives bytes a name, and `fresh` is a core over a fresh store. `talks` lays conversations, `cue` a cue, `order` those of calls
    // that are made one after the other, and `sync` what the disk does in a sync. `serve` serves the conversations, and `crowd` such of
    // which the last one comes until it is heard. `crash` opens what a crash leaves.
    fn answer(&mut self, verb: &str, rest: &str) -> Option<()> {
        match verb {
            "name" => self.lay_name(rest),
            "fresh" => self.begin(),
            "talks" => self.lay_talks(rest),
            "cue" => self.cues.push(cue_of(rest)?).ok(),
            "order" => push_order(&mut self.cues, rest),
            "sync" => self.stands.push(stand_of(rest)?).ok(),
            "serve" | "crowd" => self.serve(verb == "crowd"),
            "crash" => self.crash(rest),
            _ => None,
        }
    }

    fn crash(&mut self, pick: &str) -> Option<()> {
        let pick = pick.parse::<u64>().ok()?;
        let core = self.core.take()?;
        let crashed = self.house.crashed(core, pick);
        self.hold(crashed)
    }

    fn begin(&mut self) -> Option<()> {
        let core = self.house.fresh_core();
        self.hold(core)
    }

    // It alone puts a core in the place of one.
    fn hold(&mut self, core: Option<Core<'r>>) -> Option<()> {
        self.core = core;
        if self.core.is_some() { Some(()) } else { None }
    }

    fn lay_name(&mut self, rest: &str) -> Option<()> {
        let (name, bytes) = rest.split_once(' ')?;
        let name = String::from_str(self.alloc, name).ok()?;
        let bytes = bytes_of(self.alloc, &[bytes]).ok()?;
        self.named.push(Named { name, bytes }).ok()
    }

    // `COUNT NAMES | NAMES`: so many conversations more that say the bytes of the first names, each a piece, and are to be answered
    // those of the others.
    fn lay_talks(&mut self, rest: &str) -> Option<()> {
        let (count, names) = rest.split_once(' ')?;
        let (said, heard) = names.split_once('|')?;
        for _ in 0..count.parse::<u64>().ok()? {
            let pieces = pieces_of(self.alloc, &self.named, said)?;
            let replies = joined(self.alloc, &pieces_of(self.alloc, &self.named, heard)?)?;
            self.talks.push(Talk::new(pieces, replies)).ok()?;
        }
        Some(())
    }

    // Serves the conversations over the core, and tells what became of them. Then there are none.
    fn serve(&mut self, is_crowd: bool) -> Option<()> {
        let core = self.core.take()?;
        let script = Script {
            cues: &self.cues,
            stands: &self.stands,
            talks: &self.talks,
            is_crowd,
        };
        let (left, core) = play(&self.house, core, script)?;
        self.hold(Some(core))?;
        self.tell(left)?;
        self.cues.clear();
        self.stands.clear();
        self.talks.clear();
        Some(())
    }

    fn tell(&mut self, left: Left) -> Option<()> {
        let spent = if self.stands.is_empty() {
            None
        } else {
            Some(self.house.board.spent())
        };
        push_left(self.alloc, left, spent, &mut self.written)?;
        if self.talks.len() > TOLD {
            push_count(self.alloc, &self.talks, &mut self.written)?;
        } else {
            push_ends(self.alloc, &self.talks, &mut self.written)?;
        }
        push_text(&mut self.written, "\n")
    }
}

//! A disk in memory that crashes and fails, and a journal on it.

use crate::calls::{
    change, image, number_in, numbers_in, tell, tell_both, tell_call, tell_is, tell_text,
};
use crate::journals::{add, count, open, settle, tell_begun, tell_record};
use crate::staged::{go_on, lay_ahead, put};
use drda_disk::{Disk, FuseDisk, MemDisk, Region, WriteError};
use std::alloc::{AllocError, Global};
use std::mem;
use test_bytes::bytes_of;
use unit_journal::{Journal, Record, Staged};

/// A disk in memory behind a fuse, the region of a journal on it, the journal, if one is open, by itself or with a group laid ahead, and
/// the records that were found last.
#[derive(Drop)]
pub struct Memory {
    alloc: Global,
    disk: FuseDisk<MemDisk>,
    region: Region,
    journal: Option<Journal>,
    staged: Option<Staged>,
    records: Vec<Record>,
}

// A disk of so many zeros, with room set aside for so many writes of so many bytes; its fuse lets each call through.
fn fresh(alloc: Global, asked: &str) -> Result<FuseDisk<MemDisk>, AllocError> {
    let [size, writes, bytes, _] = numbers_in(asked);
    let mut disk = MemDisk::new(alloc, size)?;
    disk.set_aside(writes, bytes)?;
    Ok(FuseDisk::new(disk, u64::MAX, false))
}

// What a crash leaves of a disk, or the disk behind another fuse, which fails once or always behind so many calls.
fn remade(disk: FuseDisk<MemDisk>, verb: &str, number: u64) -> FuseDisk<MemDisk> {
    let inner = disk.into_inner();
    match verb {
        "crash" => FuseDisk::new(inner.after_crash(number), u64::MAX, false),
        _ => FuseDisk::new(inner, number, verb == "once"),
    }
}

fn region_of(asked: &str) -> Region {
    let [at, length, _, _] = numbers_in(asked);
    if at.checked_add(length).is_none() {
        return Region { at: 0, length: 0 };
    }
    Region { at, length }
}

// What a byte is that a crash leaves where an old one or a new one may be: the old one, the new one, or neither; where they are the same,
// another one, or that one.
fn place_of(old: u8, new: u8, left: u8) -> usize {
    match (old == new, left == old, left == new) {
        (true, true, _) => 4,
        (true, false, _) => 3,
        (false, true, _) => 0,
        (false, false, true) => 1,
        (false, false, false) => 2,
    }
}

// Counts the bytes that a crash leaves, each at its place.
fn count_bytes(counts: &mut [usize; 5], old: &[u8; 16], new: &[u8; 16], left: &[u8; 16]) {
    for i in 0..16 {
        if let Some(count) = counts.get_mut(place_of(old[i], new[i], left[i])) {
            *count = count.saturating_add(1);
        }
    }
}

impl Memory {
    /// No bytes, and no journal.
    pub fn new(alloc: Global) -> Result<Memory, AllocError> {
        Ok(Memory {
            alloc,
            disk: fresh(alloc, "0")?,
            region: Region { at: 0, length: 0 },
            journal: None,
            staged: None,
            records: Vec::new(alloc),
        })
    }

    // The first 16 bytes that a crash leaves of a copy; zeros where there are fewer.
    fn left(&self, pick: u64) -> Result<[u8; 16], AllocError> {
        let mut left = self.disk.inner().copy(self.alloc)?.after_crash(pick);
        Ok(image(&mut left).unwrap_or([0; 16]))
    }

    // How many records a crash leaves of a copy, or why there are none.
    fn tell_left(&self, pick: u64, out: &mut String) -> Result<(), AllocError> {
        let mut left = self.disk.inner().copy(self.alloc)?.after_crash(pick);
        tell(out, &count(self.alloc, &mut left, self.region))
    }

    // How many records a copy has with other bytes at a place, or why there are none.
    fn tell_changed(&self, asked: &str, out: &mut String) -> Result<(), AllocError> {
        let mut copy = self.disk.inner().copy(self.alloc)?;
        match change(self.alloc, &mut copy, "put", asked)? {
            Ok(()) => tell(out, &count(self.alloc, &mut copy, self.region)),
            Err(fault) => tell(out, &fault),
        }
    }

    // How many bytes of each kind, as `place_of` tells them, crashes of the picks from 2 on leave.
    fn count_torn(&self, to: u64) -> Result<[usize; 5], AllocError> {
        let old = self.left(0)?;
        let new = self.left(1)?;
        let mut counts = [0usize; 5];
        for pick in 2..to {
            let left = self.left(pick)?;
            count_bytes(&mut counts, &old, &new, &left);
        }
        Ok(counts)
    }

    // Whether more bytes than so many are old, new and neither, and how many are changed that were not written.
    fn tell_torn(&self, asked: &str, out: &mut String) -> Result<(), AllocError> {
        let [to, olds, news, others] = numbers_in(asked);
        let [old, new, other, outside, _] = self.count_torn(to as u64)?;
        tell_both(out, ("old", old > olds), ("new", new > news))?;
        tell_both(out, ("neither", other > others), ("outside", outside))
    }

    // Whether a crash of one of the picks from 2 on leaves just these bytes.
    fn tell_seen(&self, asked: &str, out: &mut String) -> Result<(), AllocError> {
        let (to, bytes) = number_in(asked);
        let bytes = bytes_of(self.alloc, &[bytes])?;
        let mut is_seen = false;
        for pick in 2..to {
            is_seen = is_seen || self.left(pick as u64)?.iter().eq(bytes.iter());
        }
        tell_is(out, "seen", is_seen)
    }

    fn remake(&mut self, verb: &str, number: usize) -> Result<(), AllocError> {
        let empty = fresh(self.alloc, "0")?;
        let disk = mem::replace(&mut self.disk, empty);
        self.disk = remade(disk, verb, number as u64);
        Ok(())
    }

    // Begins the journal of the region, or lays so many of the records that were found last into it, with so many bytes held.
    fn settle(
        &mut self,
        count: Option<usize>,
        held: usize,
        out: &mut String,
    ) -> Result<(), AllocError> {
        let settled = settle(
            self.alloc,
            &mut self.disk,
            self.region,
            &self.records,
            count,
            held,
        );
        match settled {
            Ok(journal) => {
                self.journal = Some(journal);
                tell_text(out, "settled")
            }
            Err(fault) => {
                self.journal = None;
                tell(out, &fault)
            }
        }
    }

    fn begin(&mut self, asked: &str, out: &mut String) -> Result<(), AllocError> {
        self.region = region_of(asked);
        self.settle(None, 0, out)
    }

    fn lay_found(&mut self, asked: &str, out: &mut String) -> Result<(), AllocError> {
        let [count, held, _, _] = numbers_in(asked);
        self.settle(Some(count), held, out)
    }

    // What stands in the region.
    fn open(&mut self, out: &mut String) -> Result<(), AllocError> {
        match open(self.alloc, &mut self.disk, self.region) {
            Ok((journal, records)) => {
                self.journal = Some(journal);
                self.records = records;
                tell(out, &self.records)
            }
            Err(fault) => tell(out, &fault),
        }
    }

    // Adds to the journal or holds bytes back. A journal whose device failed is not used again.
    fn add(&mut self, asked: &str, out: &mut String) -> Result<(), AllocError> {
        let (verb, asked) = asked.split_once(' ').unwrap_or((asked, ""));
        let Some(journal) = &mut self.journal else {
            return tell_text(out, "no journal");
        };
        let told = add(self.alloc, journal, &mut self.disk, verb, asked)?;
        if told == Err(WriteError::DeviceFailed) {
            self.journal = None;
        }
        tell(out, &told)
    }

    // The journal with nothing laid behind it.
    fn stage(&mut self) -> Result<(), AllocError> {
        self.staged = match self.journal.take() {
            Some(journal) => Some(Staged::at_rest(journal)),
            None => None,
        };
        Ok(())
    }

    // Lays a group ahead. A journal whose device failed is not used again.
    fn lay_ahead(&mut self, asked: &str, out: &mut String) -> Result<(), AllocError> {
        let Some(staged) = &mut self.staged else {
            return tell_text(out, "no journal");
        };
        let told = lay_ahead(self.alloc, staged, &mut self.disk, numbers_in(asked))?;
        if told.is_err() {
            self.staged = None;
        }
        tell(out, &told)
    }

    // Adds a group, or a record alone.
    fn put(&mut self, verb: &str, asked: &str, out: &mut String) -> Result<(), AllocError> {
        let Some(staged) = &mut self.staged else {
            return tell_text(out, "no journal");
        };
        let told = put(self.alloc, staged, &mut self.disk, verb, numbers_in(asked))?;
        if told == Err(WriteError::DeviceFailed) {
            self.staged = None;
        }
        tell(out, &told)
    }

    // Settles, or comes to rest.
    fn go_on(&mut self, verb: &str, out: &mut String) -> Result<(), AllocError> {
        let Some(staged) = &mut self.staged else {
            return tell_text(out, "no journal");
        };
        let told = go_on(staged, &mut self.disk, verb);
        if told.is_err() {
            self.staged = None;
        }
        tell(out, &told)
    }

    // What is left, whatever was laid ahead.
    fn tell_staged(&self, out: &mut String) -> Result<(), AllocError> {
        let Some(staged) = &self.staged else {
            return tell_text(out, "no journal");
        };
        tell_both(
            out,
            ("room", staged.journal().room()),
            ("held", staged.journal().held()),
        )
    }

    fn tell_room(&self, out: &mut String) -> Result<(), AllocError> {
        match &self.journal {
            Some(journal) => { tell_both(out, ("room", journal.room()), ("held", journal.held())) }
            None => tell_text(out, "no journal"),
        }
    }

    // A fresh disk in the place of this one.
    fn lay(&mut self, asked: &str) -> Result<(), AllocError> {
        self.disk = fresh(self.alloc, asked)?;
        Ok(())
    }

    fn tell_first_bytes(&self, pick: u64, out: &mut String) -> Result<(), AllocError> {
        tell(out, &self.left(pick)?)
    }

    fn tell_calls(&self, out: &mut String) -> Result<(), AllocError> {
        let behind = self.disk.inner().failures();
        tell_both(
            out,
            ("calls", self.disk.calls()),
            ("failures behind", behind),
        )
    }

    /// Does a step, and tells what it comes to. `disk` is a fresh one; `crash` leaves of it what it may, and `once` and `always` change its
    /// fuse. `left` tells the first bytes that a crash leaves of a copy, `seen` and `torn` what crashes of many picks leave.
    pub fn answer(&mut self, verb: &str, rest: &str, out: &mut String) -> Result<(), AllocError> {
        let (number, _) = number_in(rest);
        match verb {
            "disk" => self.lay(rest),
            "crash" | "once" | "always" => self.remake(verb, number),
            "left" => self.tell_first_bytes(number as u64, out),
            "torn" => self.tell_torn(rest, out),
            "seen" => self.tell_seen(rest, out),
            "calls" => self.tell_calls(out),
            "add" => self.add(rest, out),
            _ => self.answer_of_journal(verb, rest, out),
        }
    }

    // `journal` begins one in a region; `start`, `lay`, `open` and others concern it. `found` tells how many records a crash leaves of a
    // copy, and `with` how many are there with another byte. `stage` lets groups be laid ahead: `ahead` lays one of so many records, with
    // the bytes that are held back and released behind their number; `whole` adds one and `alone` a record; `settle` and `rest` go on, and
    // `staged` tells what is left. All else is a call of the disk.
    fn answer_of_journal(
        &mut self,
        verb: &str,
        rest: &str,
        out: &mut String,
    ) -> Result<(), AllocError> {
        let (number, _) = number_in(rest);
        match verb {
            "journal" => self.begin(rest, out),
            "start" => self.settle(None, 0, out),
            "lay" => self.lay_found(rest, out),
            "open" => self.open(out),
            "room" => self.tell_room(out),
            "found" => self.tell_left(number as u64, out),
            "with" => self.tell_changed(rest, out),
            "begun" => tell_begun(self.alloc, out),
            "record" => tell_record(self.alloc, rest, out),
            "stage" => self.stage(),
            "ahead" => self.lay_ahead(rest, out),
            "whole" | "alone" => self.put(verb, rest, out),
            "settle" | "rest" => self.go_on(verb, out),
            "staged" => self.tell_staged(out),
            _ => tell_call(self.alloc, &mut self.disk, verb, rest, out),
        }
    }
}

//! A disk, or a store that is open on one, and what is done to it.

use crate::told::{tell, told_refusal};
use crate::worn::WornDisk;
use core_calls::{Answer, CoreCall};
use drda_disk::{Disk, FuseDisk, MemDisk};
use durable_core::{Checkpointed, DurableCore, EarlyUnits, Refused, open};
use early_disk::EarlyDisk;
use half_store::format;
use std::alloc::Global;
use test_bytes::bytes_of;
use test_calls::{Calls, Scripts, push_text};

// A disk in memory that may fail or wear out, on which units may count before they are made.
type Device = EarlyDisk<WornDisk<FuseDisk<MemDisk>>, EarlyUnits>;

/// A core over such a disk.
pub type Core = DurableCore<Device>;

/// A disk that is not open, or a store that is open on one; behind how many calls of conversations a checkpoint is made, where it is behind
/// some, and how many there were since the last one.
#[derive(Drop)]
pub struct Bench {
    alloc: Global,
    disk: Option<MemDisk>,
    core: Option<Core>,
    every: Option<u64>,
    since: u64,
}

// A disk of so many zeros, or with a fresh store of the name SHOP.
fn disk_of(alloc: Global, size: &str, is_store: bool) -> Option<MemDisk> {
    let mut disk = MemDisk::new(alloc, size.parse::<usize>().ok()?).ok()?;
    if is_store {
        format(alloc, &mut disk, "SHOP").ok()?;
    }
    Some(disk)
}

// Writes bytes to a disk, where their range lies on it.
fn put(alloc: Global, disk: &mut MemDisk, rest: &str) -> Option<()> {
    let (at, bytes) = rest.split_once(' ')?;
    let at = at.parse::<usize>().ok()?;
    let bytes = bytes_of(alloc, &[bytes]).ok()?;
    if at > disk.size() || bytes.len() > disk.size() - at {
        return None;
    }
    disk.write_at(at, &bytes).ok()
}

impl Bench {
    /// No disk.
    pub fn new(alloc: Global) -> Bench {
        Bench {
            alloc,
            disk: None,
            core: None,
            every: None,
            since: 0,
        }
    }

    // The disk, also where a store is open on it, and how many calls it had since it was opened.
    fn take_disk(&mut self) -> Option<(MemDisk, u64)> {
        match self.core.take() {
            Some(core) => {
                let disk = core.into_disk().into_inner().into_inner();
                let calls = disk.calls();
                Some((disk.into_inner(), calls))
            }
            None => Some((self.disk.take()?, 0)),
        }
    }

    fn begin(&mut self, disk: WornDisk<FuseDisk<MemDisk>>, out: &mut Vec<u8>) -> Option<()> {
        match open(self.alloc, EarlyDisk::new(disk)) {
            Ok(core) => {
                self.core = Some(core);
                push_text(out, "opened")
            }
            Err(Refused { disk, error }) => {
                let told = told_refusal(self.alloc, error, disk.size());
                self.disk = Some(disk.into_inner().into_inner().into_inner());
                push_text(out, &told.ok()?)
            }
        }
    }

    // Opens the disk, whose calls fail behind so many: the next one alone, or all.
    fn open(&mut self, calls: u64, is_once: bool, out: &mut Vec<u8>) -> Option<()> {
        let (disk, _) = self.take_disk()?;
        let disk = FuseDisk::new(disk, calls, is_once);
        self.begin(WornDisk::new(self.alloc, disk), out)
    }

    // The disk, and how many calls an opening of it makes, which writes nothing.
    fn look(&mut self) -> Option<(MemDisk, u64)> {
        let mut told = Vec::new(self.alloc);
        self.open(u64::MAX, true, &mut told)?;
        self.take_disk()
    }

    // Opens the disk, of whose calls behind those of the opening the one behind so many fails.
    fn open_and_stop(&mut self, calls: &str, out: &mut Vec<u8>) -> Option<()> {
        let (disk, opening) = self.look()?;
        let calls = opening.saturating_add(calls.parse::<u64>().ok()?);
        let disk = FuseDisk::new(disk, calls, true);
        self.begin(WornDisk::new(self.alloc, disk), out)
    }

    // Opens the disk, of which reads give these bytes at a place, behind the calls of the opening and so many more.
    fn open_and_wear(&mut self, rest: &str, out: &mut Vec<u8>) -> Option<()> {
        let (calls, rest) = rest.split_once(' ')?;
        let (at, bytes) = rest.split_once(' ')?;
        let at = at.parse::<usize>().ok()?;
        let bytes = bytes_of(self.alloc, &[bytes]).ok()?;
        let (disk, opening) = self.look()?;
        let calls = opening.saturating_add(calls.parse::<u64>().ok()?);
        let disk = FuseDisk::new(disk, u64::MAX, true);
        self.begin(WornDisk::worn(disk, calls, at, bytes), out)
    }

    // How many calls the disk had since it was opened. The store is not open any more then.
    fn tell_calls(&mut self, out: &mut Vec<u8>) -> Option<()> {
        let (disk, calls) = self.take_disk()?;
        self.disk = Some(disk);
        push_text(out, &format!(in self.alloc; "{calls} calls").ok()?)
    }

    // A checkpoint is made behind each so many calls, or behind none.
    fn make_checkpoints(&mut self, every: &str, out: &mut Vec<u8>) -> Option<()> {
        let every = every.parse::<u64>().ok()?;
        self.every = if every > 0 { Some(every) } else { None };
        self.since = 0;
        push_text(out, "begun")
    }

    // What a call was answered. A checkpoint stands behind it where one is to.
    fn answered(&mut self, answer: Answer) -> Option<Answer> {
        self.since = self.since.saturating_add(1);
        match self.every {
            Some(every) if self.since >= every => {}
            _ => return Some(answer),
        }
        self.since = 0;
        let Some(core) = &mut self.core else {
            return None;
        };
        match core.checkpoint() {
            Checkpointed::Done => Some(answer),
            _ => None,
        }
    }

    // `zeros SIZE` is a disk of zeros, `fresh SIZE` one with a fresh store, `put AT BYTES` puts bytes to it, and `crash PICK` leaves what a
    // crash leaves.
    fn change(&mut self, verb: &str, rest: &str) -> Option<&'static str> {
        let (disk, told) = match verb {
            "zeros" => (disk_of(self.alloc, rest, false)?, "zeros"),
            "fresh" => (disk_of(self.alloc, rest, true)?, "formatted"),
            "put" => {
                let (mut disk, _) = self.take_disk()?;
                put(self.alloc, &mut disk, rest)?;
                (disk, "put")
            }
            _ => {
                let (disk, _) = self.take_disk()?;
                (disk.after_crash(rest.parse::<u64>().ok()?), "crashed")
            }
        };
        self.core = None;
        self.disk = Some(disk);
        Some(told)
    }
}

impl Calls for Bench {
    fn step(&mut self, conversation: u64, call: &CoreCall<'_, '_, '_>) -> Option<Answer> {
        let Some(core) = &mut self.core else {
            return None;
        };
        let answer = match call {
            CoreCall::Lost => core.lost(conversation),
            _ => core.step(conversation, call),
        };
        self.answered(answer)
    }

    // `open` opens the disk; `fails N` and `breaks N` do, where the call behind so many fails, or all; `stops N` does where the one behind
    // so many fails that come behind the opening, and `worn N AT BYTES` where from the one behind so many on reads give these bytes at a
    // place. `calls` tells how many calls the disk had since it was opened, and closes the store. From `checkpoints N` on a checkpoint is
    // made behind each so many calls of conversations, or behind none.
    fn do_other(
        &mut self,
        _scripts: &Scripts,
        verb: &str,
        rest: &str,
        out: &mut Vec<u8>,
    ) -> Option<()> {
        match verb {
            "open" => self.open(u64::MAX, true, out),
            "fails" | "breaks" => self.open(rest.parse::<u64>().ok()?, verb == "fails", out),
            "stops" => self.open_and_stop(rest, out),
            "worn" => self.open_and_wear(rest, out),
            "calls" => self.tell_calls(out),
            "checkpoints" => self.make_checkpoints(rest, out),
            "zeros" | "fresh" | "put" | "crash" => push_text(out, self.change(verb, rest)?),
            _ => {
                let Some(core) = &mut self.core else {
                    return None;
                };
                tell(self.alloc, core, verb, rest, out)
            }
        }
    }
}

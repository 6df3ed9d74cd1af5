//! What is asked, a line each.

use crate::conversations::push_act;
use crate::runs::{Bench, tell_opened, tell_run};
use crate::spoiled::SpoiledDisk;
use crate::sweeps::tell_sweep;
use drda_disk::{Disk, FuseDisk, MemDisk};
use drda_node::{Node, Settings, open};
use std::alloc::Global;
use test_bytes::push_texts;
use test_core::fresh_store;

/// Writes down each line, and what it comes to; a blank line ends a section. None where a line asks for nothing that there is, and without
/// memory.
pub fn follow(alloc: Global, text: &str, told: &mut String) -> Option<()> {
    let opening = calls_of_opening(alloc)?;
    let mut disk = FuseDisk::new(fresh_store(alloc)?, 0, false);
    for section in text.split("\n\n") {
        disk = follow_section(alloc, opening, disk, section, told)?;
        told.push_str("\n").ok()?;
    }
    Some(())
}

// A node for ana with the password pw, over the store of a disk. None where the disk is no store, and without memory.
fn node_over<D: Disk + Drop>(alloc: Global, disk: D) -> Option<Node<D>> {
    let settings = Settings::new(alloc, "ana", "pw", "SHOP").ok()?;
    let core = match open(alloc, disk) {
        Ok(core) => core,
        Err(_) => return None,
    };
    match Node::start(alloc, settings, core) {
        Ok(node) => Some(node),
        Err(_) => None,
    }
}

// How many device calls the opening of a fresh store makes.
fn calls_of_opening(alloc: Global) -> Option<u64> {
    let disk = FuseDisk::new(fresh_store(alloc)?, u64::MAX, false);
    let disk = node_over(alloc, disk)?.into_core().into_disk();
    Some(disk.calls())
}

// The number behind a verb in a section.
fn number_behind(section: &str, verb: &str) -> Option<u64> {
    for line in section.lines() {
        if let Some(number) = line.strip_prefix(verb) {
            return Some(number.parse::<usize>().ok()? as u64);
        }
    }
    None
}

// A section has a node over a fresh store of its own, or by `crash PICK` over what a crash of this pick leaves of the disk of the section
// before. By `stops N` the device fails behind so many calls and those of the opening of a fresh store; `calls` at the end tells how many
// more there were. By `spoils AT` the byte at this offset of the disk reads as another one from its second reading on.
fn follow_section(
    alloc: Global,
    opening: u64,
    disk: FuseDisk<MemDisk>,
    section: &str,
    told: &mut String,
) -> Option<FuseDisk<MemDisk>> {
    let store = match number_behind(section, "crash ") {
        Some(pick) => disk.into_inner().after_crash(pick),
        None => fresh_store(alloc)?,
    };
    let calls = match number_behind(section, "stops ") {
        Some(count) => opening.saturating_add(count),
        None => u64::MAX,
    };
    let place = match number_behind(section, "spoils ") {
        Some(place) => Some(place as usize),
        None => None,
    };
    let disk = SpoiledDisk::new(FuseDisk::new(store, calls, false), place);
    let mut node = node_over(alloc, disk)?;
    let done = follow_lines(alloc, &mut node, section, told);
    let disk = node.into_core().into_disk().into_inner();
    done?;
    if section.ends_with("\ncalls") {
        let count = disk.calls().saturating_sub(opening);
        writeln!(told, "  {count} calls").ok()?;
    }
    Some(disk)
}

fn follow_lines(alloc: Global, node: &mut Bench, lines: &str, told: &mut String) -> Option<()> {
    let mut events = Vec::new(alloc);
    for line in lines.lines() {
        writeln!(told, "{line}").ok()?;
        answer(alloc, node, &mut events, line, told)?;
    }
    Some(())
}

// A line that begins with # is a note. `event` and `times` append bytes of events. A number is a conversation's, which does what stands
// behind it: its event comes at once. `sweep` is a run over the events so far that is stopped at each of its last calls, and what else there
// is are runs of the node over them.
fn answer(
    alloc: Global,
    node: &mut Bench,
    events: &mut Vec<u8>,
    line: &str,
    told: &mut String,
) -> Option<()> {
    let (verb, rest) = line.split_once(' ').unwrap_or((line, ""));
    match verb {
        "#" | "fresh" | "stops" | "spoils" | "calls" | "crash" => return Some(()),
        "event" => return push_texts(events, &[rest]).ok(),
        "times" => return push_times(events, rest),
        "opened" => return tell_opened(node, told),
        "sweep" => return tell_sweep(alloc, rest, events, told),
        "run" | "slow" | "fails" | "pieces" | "full" | "feed" => {}
        number => {
            let number = u8::try_from(number.parse::<usize>().ok()?).ok()?;
            push_act(alloc, events, number, rest)?;
        }
    }
    let done = tell_run(alloc, node, verb, rest, events, told);
    events.clear();
    done
}

// Appends so many times the bytes of a text.
fn push_times(events: &mut Vec<u8>, rest: &str) -> Option<()> {
    let (times, text) = rest.split_once(' ')?;
    for _ in 0..times.parse::<usize>().ok()? {
        push_texts(events, &[text]).ok()?;
    }
    Some(())
}

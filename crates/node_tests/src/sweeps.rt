//! A crash at each device call of a run.

use counted_streams::{Reader, Writer};
use drda_disk::{FuseDisk, MemDisk};
use std::alloc::Global;
use store_service::{PlainState, RunEnd, run_store, survives};
use tables::TableView;
use test_core::fresh_store;

// How many device calls an opening and a run over these events make.
fn calls_of(alloc: Global, store: MemDisk, events: &[u8]) -> u64 {
    let mut reader = Reader::new(events);
    let mut writer = Writer::new(Vec::new(alloc));
    let disk = FuseDisk::new(store, u64::MAX, false);
    let (disk, _end) = run_store(alloc, disk, "ana", "pw", &mut reader, &mut writer);
    disk.calls()
}

// How many tables, rows of T and branches in doubt there are.
fn shown(alloc: Global, state: PlainState) -> Option<(usize, usize, usize)> {
    let in_doubt = state.branches().len();
    let mut tables = state.into_tables();
    let count = tables.tables().ok()? as usize;
    if count == 0 {
        return Some((0, 0, in_doubt));
    }
    let rows = tables.scan(alloc, "T").ok()?;
    Some((count, rows.len(), in_doubt))
}

// The same of what a crash leaves of a run over a fresh store, whose device fails behind so many calls.
fn left(alloc: Global, events: &[u8], calls: u64, pick: u64) -> Option<(usize, usize, usize)> {
    let store = fresh_store(alloc)?;
    let (end, state) = survives(alloc, store, calls, pick, "ana", "pw", events);
    if end != Ok(RunEnd::Ended) {
        return None;
    }
    shown(alloc, state.ok()?)
}

fn tell_left(alloc: Global, events: &[u8], calls: u64, told: &mut String) -> Option<()> {
    for pick in 0..8_u64 {
        let (tables, rows, in_doubt) = left(alloc, events, calls, pick)?;
        write!(told, " {tables},{rows},{in_doubt}").ok()?;
    }
    Some(())
}

/// Tells what a crash leaves of a run over these events whose device fails: in a line for each of the last calls, this many, and one for
/// none of them, how many tables, rows of the table T and branches in doubt are there, for each way in which it may leave what was not
/// synced, from 0 to 7.
pub fn tell_sweep(alloc: Global, last: &str, events: &[u8], told: &mut String) -> Option<()> {
    let last = last.parse::<u64>().ok()?;
    let first = calls_of(alloc, fresh_store(alloc)?, events).checked_sub(last)?;
    for call in 0..=last {
        write!(told, "  {call}:").ok()?;
        tell_left(alloc, events, first.saturating_add(call), told)?;
        told.push_str("\n").ok()?;
    }
    Some(())
}

//! Devices that fail while a checkpoint is written, and crashes then.
use crate::changes::Step;
use crate::stores::{again, apply, commit, new_store, open_held, plain_of, shows};
use checkpoint_writer::ImageError;
use drda_disk::{FuseDisk, MemDisk};
use std::alloc::Global;
use std::test::Fail;
use tables::PlainView;

const OLD: [Step; 4] = [
    Step::Create("A"),
    Step::Put("A", (-5, 6, 2_000)),
    Step::Create("T_2"),
    Step::Put("T_2", (1, 2, 3)),
];

/// Changes on pages and since: rows put, changed and taken out, and a table more.
const MORE: [Step; 4] = [
    Step::Put("A", (3, 4, 9)),
    Step::Remove("T_2", (1, 1, 0)),
    Step::Create("B"),
    Step::Put("B", (7, 1, 2_000)),
];

// A checkpoint over a disk that fails at this call behind the opening's and at all that follow; and the disk then.
fn failing(
    alloc: Global,
    disk: MemDisk,
    call: u64,
) -> Result<(Result<(), ImageError>, MemDisk), Fail> {
    let disk = FuseDisk::new(disk, call, false);
    let mut held = open_held(alloc, disk)?;
    commit(alloc, &mut held, &MORE)?;
    let went = held.checkpoint(alloc, 50);
    Ok((went, held.into_disk().into_inner()))
}

// How many calls an opening makes, and the disk then.
fn opening_calls(alloc: Global, disk: MemDisk) -> Result<(u64, MemDisk), Fail> {
    let disk = FuseDisk::new(disk, u64::MAX, false);
    let disk = open_held(alloc, disk)?.into_disk();
    Ok((disk.calls(), disk.into_inner()))
}

/// Which tables a store has: the old ones, the new ones, or neither.
#[derive(Clone, Copy, PartialEq, Eq)]
enum Tables {
    Old,
    New,
    Neither,
}

fn tables_of(
    alloc: Global,
    disk: MemDisk,
    old: &mut PlainView,
    new: &mut PlainView,
) -> Result<(Tables, MemDisk), Fail> {
    let mut held = open_held(alloc, disk)?;
    let is_old = shows(alloc, &mut held, old)?;
    let is_new = shows(alloc, &mut held, new)?;
    let tables = match (is_old, is_new) {
        (true, _) => Tables::Old,
        (false, true) => Tables::New,
        (false, false) => Tables::Neither,
    };
    Ok((tables, held.into_disk()))
}

// The tables that are there after a checkpoint over a device that fails at this call, and a crash of this pick,
// with the disk then; neither where the checkpoint was told otherwise than it went.
fn left(
    alloc: Global,
    disk: MemDisk,
    (call, pick): (u64, u64),
    old: &mut PlainView,
    new: &mut PlainView,
) -> Result<(Tables, MemDisk), Fail> {
    let (went, disk) = failing(alloc, again(alloc, disk, &OLD)?, call)?;
    let (tables, disk) = tables_of(alloc, disk.after_crash(pick), old, new)?;
    let is_told = match went {
        Ok(()) => tables == Tables::New,
        Err(ImageError::DeviceFailed) => true,
        Err(_) => false,
    };
    Ok((if is_told { tables } else { Tables::Neither }, disk))
}

/// What a crash has of the writes since the last sync: none, all, and a draw.
const PICKS: [u64; 3] = [0, 1, 77];

/// More calls than a checkpoint of these tables makes.
const CALLS: u64 = 24;

// How often the old tables, the new ones and neither were left, over all calls, with the disk then.
fn counts(alloc: Global, disk: MemDisk, pick: u64) -> Result<([u64; 3], MemDisk), Fail> {
    let (opening, mut disk) = opening_calls(alloc, again(alloc, disk, &OLD)?)?;
    let mut old = plain_of(alloc, &OLD)?;
    let mut new = plain_of(alloc, &OLD)?;
    apply(alloc, &mut new, &MORE)?;
    let mut seen = [0_u64; 3];
    for call in 0..CALLS {
        let at = (opening.wrapping_add(call), pick);
        let (tables, then) = left(alloc, disk, at, &mut old, &mut new)?;
        disk = then;
        let place = match tables {
            Tables::Old => 0,
            Tables::New => 1,
            Tables::Neither => 2,
        };
        seen[place] = seen[place].wrapping_add(1);
    }
    Ok((seen, disk))
}

#[test]
fn a_crash_leaves_the_old_tables_or_the_new_ones(rt: HostRuntime) -> Result<(), Fail> {
    let mut disk = new_store(rt.alloc())?;
    for pick in PICKS {
        let (seen, then) = counts(rt.alloc(), disk, pick)?;
        disk = then;
        assert!(rt;
            seen[0] > 10 && seen[1] > 2 && seen[2] == 0,
            "{pick}: {seen:?}"
        );
    }
    Ok(())
}

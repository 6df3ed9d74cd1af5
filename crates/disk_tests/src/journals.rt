//! Calls on journals whose conditions are tested. One that does not hold shows as a fault of the device.
ghost use Rattle.std.specs.Prelude.{IsTrue, length};
ghost use Rattle.unit_journal.specs.Adding.{IsPlace};

use crate::calls::{number_in, tell, tell_both};
use drda_disk::{Disk, Region, WriteError};
use std::alloc::{AllocError, Global};
use test_bytes::bytes_of;
use unit_journal::{Journal, Kind, LaidGroup, LaidRecord, LayError, OpenError, Record};

fn may_be_a_journal<D: Disk>(disk: &D, region: Region) -> bool
    ensures { IsTrue result → IsPlace (length (D.life disk.now).seen) region }
{
    0 < region.length && region.length <= 1 << 32 && region.end() <= disk.size()
}

/// Begins a journal, or lays one of the first of these records, so many, with so many bytes held.
pub fn settle<D: Disk>(
    alloc: Global,
    disk: &mut D,
    region: Region,
    records: &[Record],
    count: Option<usize>,
    held: usize,
) -> Result<Journal, LayError> {
    if !may_be_a_journal(disk, region) {
        return Err(LayError::DeviceFailed);
    }
    let Some(count) = count else {
        return Ok(Journal::start(disk, region)?);
    };
    match records.get(..count) {
        Some(records) => Journal::lay(alloc, disk, region, records, held),
        None => Err(LayError::DeviceFailed),
    }
}

/// The journal of a region of a disk that is synced first, and its records.
pub fn open<D: Disk>(
    alloc: Global,
    disk: &mut D,
    region: Region,
) -> Result<(Journal, Vec<Record>), OpenError> {
    disk.sync()?;
    if !may_be_a_journal(disk, region) {
        return Err(OpenError::DeviceFailed);
    }
    Journal::open(alloc, disk, region)
}

/// How many records a region has.
pub fn count<D: Disk>(alloc: Global, disk: &mut D, region: Region) -> Result<usize, OpenError> {
    match open(alloc, disk, region) {
        Ok((_, records)) => Ok(records.len()),
        Err(fault) => Err(fault),
    }
}

fn kind_of(word: &str) -> Kind {
    match word {
        "prepare" => Kind::Prepare,
        "decide" => Kind::Decide,
        "heuristic" => Kind::Heuristic,
        "forget" => Kind::Forget,
        _ => Kind::Commit,
    }
}

/// The record of this kind with this body.
pub fn laid_record(alloc: Global, kind: &str, body: &str) -> Result<LaidRecord, AllocError> {
    let body = bytes_of(alloc, &[body])?;
    if body.len() >= 1 << 32 {
        return Err(AllocError);
    }
    let mut bytes = LaidRecord::begin(alloc, body.len())?;
    bytes.extend_from_slice(&body)?;
    LaidRecord::finish(kind_of(kind), bytes)
}

/// Tells the kind and the body of the record of a kind with a body.
pub fn tell_record(alloc: Global, asked: &str, out: &mut String) -> Result<(), AllocError> {
    let (kind, body) = asked.split_once(' ').unwrap_or((asked, ""));
    let laid = laid_record(alloc, kind, body)?;
    tell(out, &(laid.kind(), laid.body()))
}

/// Tells whether a record that was begun is laid: neither call fails whatever memory is refused.
pub fn tell_begun(alloc: Global, out: &mut String) -> Result<(), AllocError> {
    let mut bytes = LaidRecord::begin(alloc, 3)?;
    let is_extended = bytes.extend_from_slice(&[1, 2, 3]).is_ok();
    let is_laid = LaidRecord::finish(Kind::Commit, bytes).is_ok();
    tell_both(out, ("extended", is_extended), ("laid", is_laid))
}

/// The group of so many records, the first a commit of one byte and the others prepares of two.
pub fn group_of(alloc: Global, count: usize) -> Result<LaidGroup, AllocError> {
    let mut group = LaidGroup::of(laid_record(alloc, "commit", "01")?);
    let next = laid_record(alloc, "prepare", "0203")?;
    for _ in 1..count {
        group.push(&next)?;
    }
    Ok(group)
}

fn append<D: Disk>(
    journal: &mut Journal,
    disk: &mut D,
    laid: &LaidRecord,
    hold: usize,
    release: usize,
) -> Result<(), WriteError> {
    if journal.region().end() > disk.size()
        || laid.body().len() >= 1 << 32
        || hold >= 1 << 32
        || release > journal.held()
    {
        return Err(WriteError::DeviceFailed);
    }
    journal.append(disk, laid, hold, release)
}

fn append_group<D: Disk>(
    journal: &mut Journal,
    disk: &mut D,
    group: &LaidGroup,
    hold: usize,
    release: usize,
) -> Result<(), WriteError> {
    if journal.region().end() > disk.size()
        || group.len() >= 1 << 32
        || hold >= 1 << 32
        || release > journal.held()
    {
        return Err(WriteError::DeviceFailed);
    }
    journal.append_group(disk, group, hold, release)
}

/// Holds so many bytes back, or adds a group of so many records or a record of a kind; in front of the body or the number of records stand
/// the bytes that are held then, and those that are released.
pub fn add<D: Disk>(
    alloc: Global,
    journal: &mut Journal,
    disk: &mut D,
    verb: &str,
    asked: &str,
) -> Result<Result<(), WriteError>, AllocError> {
    let (hold, asked) = number_in(asked);
    let (release, asked) = number_in(asked);
    match verb {
        "hold" => Ok(match journal.hold(hold) {
            Ok(()) => Ok(()),
            Err(full) => Err(WriteError::Full(full)),
        }),
        "group" => {
            let group = group_of(alloc, number_in(asked).0)?;
            Ok(append_group(journal, disk, &group, hold, release))
        }
        _ => {
            let laid = laid_record(alloc, verb, asked)?;
            Ok(append(journal, disk, &laid, hold, release))
        }
    }
}

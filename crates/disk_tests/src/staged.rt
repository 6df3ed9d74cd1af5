//! A journal behind whose records a group may be laid ahead. A call whose conditions do not hold shows as a fault of the device.
ghost use Rattle.std.specs.Prelude.{IsTrue, length};
ghost use Rattle.unit_journal.specs.Adding.{MayAdd};
ghost use Rattle.unit_journal.specs.Staged.{journal_of};

use crate::journals::{group_of, laid_record};
use drda_disk::{Disk, DiskFault, WriteError};
use std::alloc::{AllocError, Global};
use unit_journal::{LaidGroup, LaidRecord, Staged};

// Whether records of so many bytes may be added.
fn may_add<D: Disk>(staged: &Staged, disk: &D, bytes: usize, hold: usize, release: usize) -> bool
    ensures { IsTrue result → MayAdd (length (D.life disk.now).seen) (journal_of staged.now) bytes hold release }
{
    staged.journal().region().end() <= disk.size()
        && bytes < 1 << 33
        && hold < 1 << 32
        && release <= staged.journal().held()
}

fn lay<D: Disk>(
    staged: &mut Staged,
    disk: &mut D,
    group: LaidGroup,
    hold: usize,
    release: usize,
) -> Result<bool, DiskFault> {
    if !may_add(staged, disk, group.len(), hold, release) {
        return Err(DiskFault);
    }
    staged.lay_ahead(disk, group, hold, release)
}

fn append_group<D: Disk>(
    staged: &mut Staged,
    disk: &mut D,
    group: &LaidGroup,
    hold: usize,
    release: usize,
) -> Result<(), WriteError> {
    if !may_add(staged, disk, group.len(), hold, release) {
        return Err(WriteError::DeviceFailed);
    }
    staged.append_group(disk, group, hold, release)
}

fn append<D: Disk>(
    staged: &mut Staged,
    disk: &mut D,
    laid: &LaidRecord,
    hold: usize,
    release: usize,
) -> Result<(), WriteError> {
    if laid.body().len() >= 1 << 32
        || !may_add(staged, disk, 6 + laid.body().len(), hold, release)
    {
        return Err(WriteError::DeviceFailed);
    }
    staged.append(disk, laid, hold, release)
}

/// Lays a group of so many records ahead, with so many bytes held back and released: whether it lies there then.
pub fn lay_ahead<D: Disk>(
    alloc: Global,
    staged: &mut Staged,
    disk: &mut D,
    asked: [usize; 4],
) -> Result<Result<bool, DiskFault>, AllocError> {
    let [count, hold, release, _] = asked;
    let group = group_of(alloc, count)?;
    Ok(lay(staged, disk, group, hold, release))
}

/// Adds a group of so many records, or one record alone, with so many bytes held back and released.
pub fn put<D: Disk>(
    alloc: Global,
    staged: &mut Staged,
    disk: &mut D,
    verb: &str,
    asked: [usize; 4],
) -> Result<Result<(), WriteError>, AllocError> {
    let [count, hold, release, _] = asked;
    match verb {
        "whole" => {
            let group = group_of(alloc, count)?;
            Ok(append_group(staged, disk, &group, hold, release))
        }
        _ => {
            let laid = laid_record(alloc, "commit", "01")?;
            Ok(append(staged, disk, &laid, hold, release))
        }
    }
}

/// The disk settles by a flush from outside, or the journal comes to rest.
pub fn go_on<D: Disk>(staged: &mut Staged, disk: &mut D, verb: &str) -> Result<(), DiskFault> {
    match verb {
        "settle" => {
            let flushed = disk.flusher().flush();
            staged.settle(disk, flushed)
        }
        _ => staged.rest(disk),
    }
}

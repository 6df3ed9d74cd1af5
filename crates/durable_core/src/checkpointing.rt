//! Checkpoints.

ghost use Rattle.std.specs.Prelude.{◌≡◌, ◌≤◌, IfOk, false, length, map, true};
ghost use Rattle.half_store.specs.declared.header.Layout.TheVariants.{Two};
ghost use Rattle.unit_journal.specs.Record.{entries_of, entry_of};
ghost use Rattle.unit_records.specs.Records.{entry_of as written};
ghost use Rattle.xa_manager.specs.Branch.{in_doubt_xids, state_of as branch_of};
ghost use Rattle.recovery.specs.Laws.{held_for};
ghost use Rattle.recovery.specs.Laying.{laid_of, records_of};
ghost use Rattle.recovery.specs.Journaled.{Journaled, shown_on};
ghost use Rattle.recovery.specs.Part.{doubt_at, durable_part, outcome_at};
ghost use Rattle.rdb_core.specs.State.{state_of};
ghost use Rattle.durable_core.specs.Checkpointing.{Checkpoints, told_of};

use crate::durable::DurableCore;
use crate::holding::held_at;
use drda_disk::Disk;
use half_store::Layout;
use journal_recorder::{CheckpointError, heuristic_record, prepare_record};
use rdb_core::Core;
use recovery::find_places;
use std::alloc::AllocError;
use unit_journal::Record;
use unit_records::{DeviceFailed, Recorder};
use xa_calls::Xid;
use xa_manager::{BranchState, Decision};

/// What became of a checkpoint.
#[derive(Clone, Copy, Debug, PartialEq, Eq)]
pub enum Checkpointed {
    /// The committed tables and the branches in doubt stand in the other half, of layout 2, which is the active one now.
    Done,
    /// The other half is too short: it has `room` bytes, and `need` are needed.
    Full { need: usize, room: usize },
    /// Memory was refused, or there is no generation left.
    NoMemory,
    DeviceFailed,
    /// The device had failed before.
    Closed,
}

impl<D: Disk> DurableCore<D> {
    /// Writes a checkpoint: the committed tables, the rows of their pages with the changes since, go into the
    /// half of the store that is not active, and behind them a record of each branch in doubt; then that half
    /// is the active one, and its journal has the room that they leave. From then on rows are read from its
    /// pages, and no change is left in memory. It is of layout 2, whatever the old one is: so a store of layout
    /// 1 is migrated. What a core is does not change by it: at each moment, inside a device call too, a crash
    /// leaves a disk that opens to the same tables and branches in doubt.
    ///
    /// Of a device that gives back what was written `Full` comes exactly where the half is too short, and before
    /// anything is written; `need` stops at 2^64 - 1. After it and after `NoMemory` the core goes on over the
    /// old half. `DeviceFailed` comes in the call in which the device fails, or gives what is no page of the
    /// tables, and `Closed` in each later one, which makes no device call. In a store that other programs wrote
    /// a unit in doubt may have lost the places of its changes: then nothing is written, and `NoMemory` is
    /// answered.
    pub fn checkpoint(&mut self) -> Checkpointed
        ensures told { Checkpoints D.is_modelled result (shown_on D.life self.old) (shown_on D.life self.new) }
        ensures journaled { Journaled D.is_modelled (shown_on D.life self.old) (shown_on D.life self.new) }
    {
        store_check::laws::moments_hold();
        recovery::laws::doubts_are_laid();
        recovery::laws::records_lead_to_sound_states();
        store_check::laws::checkpoints_are_known();
        recovery::laws::groups_stay();
        recovery::laws::calls_make_records::<D>();
        recovery::laws::calls_go_on::<D>();
        journal_recorder::laws::pages_are_kept::<D>();
        if self.core.recorder.is_failed() {
            return Checkpointed::Closed;
        }
        let records = match records_in(&self.core) {
            Ok(records) => records,
            Err(AllocError) => return Checkpointed::NoMemory,
        };
        match find_places(self.core.alloc, &self.core.base.tables, records.as_slice()) {
            Ok(()) => {}
            Err(_) => return Checkpointed::NoMemory,
        }
        let held = held_in(&self.core);
        match self.core.recorder.rest() {
            Ok(()) => {}
            Err(DeviceFailed) => return Checkpointed::DeviceFailed,
        }
        told(
            self.core
                .recorder
                .checkpoint(&mut self.core.base.tables, records.as_slice(), held),
        )
    }
}

// What is told of a checkpoint.
fn told(written: Result<(), CheckpointError>) -> Checkpointed
    ensures { result ≡ told_of written }
{
    match written {
        Ok(()) => Checkpointed::Done,
        Err(CheckpointError::NoMemory) => Checkpointed::NoMemory,
        Err(CheckpointError::Full { need, room }) => Checkpointed::Full { need, room },
        Err(CheckpointError::DeviceFailed) => Checkpointed::DeviceFailed,
    }
}

// The records of the branches in doubt, in the order of their XIDs. None is too long for a journal, as each was
// in one.
fn records_in<R: Recorder>(core: &Core<R>) -> Result<Vec<Record>, AllocError>
    ensures { IfOk result (λ records. entries_of records.items ≡ map written (records_of (durable_part (state_of core.now)).doubts)) }
{
    let mut records = Vec::new(core.alloc);
    let mut xids = core.in_doubt();
    while let Some(xid) = xids.next() {
        records.push(record_of(core, xid)?)?;
    }
    Ok(records)
}

// The record of a branch in doubt.
fn record_of<R: Recorder>(core: &Core<R>, xid: &Xid) -> Result<Record, AllocError>
    ensures { IfOk result (λ r. entry_of r ≡ written (laid_of (xid.now, doubt_at (state_of core.now).branches (state_of core.now).base.units xid.now))) }
{
    let record = match outcome_in(core, xid) {
        None => prepare_record(
            core.alloc,
            xid,
            core.changes_in_doubt(xid),
            core.claims_in_doubt(xid),
        ),
        Some(decision) => heuristic_record(core.alloc, xid, decision),
    };
    match record {
        Ok(record) => Ok(record),
        Err(_) => Err(AllocError),
    }
}

// How the branch of an XID was decided heuristically, where it was.
fn outcome_in<R: Recorder>(core: &Core<R>, xid: &Xid) -> Option<Decision>
    ensures { result ≡ outcome_at (branch_of (state_of core.now).branches xid.now) }
{
    match core.branch_state(xid) {
        Some(BranchState::Heuristic(decision)) => Some(decision),
        Some(BranchState::Active(_)) => None,
        Some(BranchState::Idle(_)) => None,
        Some(BranchState::RollbackOnly(_)) => None,
        Some(BranchState::Prepared) => None,
        None => None,
    }
}

// How many bytes the branches in doubt hold back in layout 2.
fn held_in<R: Recorder>(core: &Core<R>) -> usize
    requires few { length (in_doubt_xids (state_of core.now).branches) ≤ 256 }
    ensures { result ≡ held_for Two (durable_part (state_of core.now)).doubts }
{
    let mut held = 0;
    let mut xids = core.in_doubt();
    while let Some(xid) = xids.next() {
        held += held_at(Layout::Two, xid, outcome_in(core, xid));
    }
    held
}

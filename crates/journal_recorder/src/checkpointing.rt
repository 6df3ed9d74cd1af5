//! Writing checkpoints.

ghost use Rattle.std.specs.Prelude.{◌≡◌, ◌≢◌, ◌≤◌, IfErr, IfOk, IsTrue, Ok, OnOk, false, length, map};
ghost use Rattle.drda_disk.specs.Disk.{Stays};
ghost use Rattle.drda_disk.specs.Region.{end_of};
ghost use Rattle.half_store.specs.Active.{active_of};
ghost use Rattle.half_store.specs.Layout.{is_store_size};
ghost use Rattle.half_store.specs.Opened.{CountsOpen, Tells, store_of};
ghost use Rattle.paged_tables.specs.PagedTables.{store_in};
ghost use Rattle.tables.specs.ChangeView.{change_of};
ghost use Rattle.unit_journal.specs.Journal.{region_of};
ghost use Rattle.unit_journal.specs.LaidRecord.{entry_in};
ghost use Rattle.unit_journal.specs.Record.{entries_of, entry_of};
ghost use Rattle.unit_journal.specs.Staged.{IsAtRest};
ghost use Rattle.unit_records.specs.Records.{IsGood, entry_of as written, heuristic, prepared};
ghost use Rattle.journal_recorder.specs.declared.checkpointing.CheckpointError.TheVariants.{DeviceFailed, NoMemory};
ghost use Rattle.journal_recorder.specs.Checkpointing.{IsTooLong};
ghost use Rattle.journal_recorder.specs.Recording.{disk_of, has_failed, journal_of, staged_of};

use crate::laying::{lay_heuristic, lay_prepare};
use crate::recorder::DiskRecorder;
use checkpoint_writer::ImageError;
use drda_disk::Disk;
use half_store::{Active, Layout, OpenError};
use paged_checkpoints::write_checkpoint;
use paged_tables::PagedTables;
use row_pages::Pager;
use std::alloc::{AllocError, Global};
use tables::Change;
use thiserror::Error;
use unit_journal::{LaidRecord, Record, Staged};
use unit_locks::Claim;
use unit_records::RecordError;
use xa_calls::Xid;
use xa_manager::Decision;

/// Why no checkpoint was written.
#[derive(Clone, Copy, Debug, PartialEq, Eq, Error)]
pub enum CheckpointError {
    /// Memory was refused, or there is no generation left.
    #[error("no memory")]
    NoMemory,
    /// The half that was to be written is too short: it has `room` bytes, and needs `need`.
    #[error("{need} bytes are needed, and there are {room}")]
    Full { need: usize, room: usize },
    #[error("the device failed")]
    DeviceFailed,
}

/// The longest body of a record is below 2^32 bytes.
const LONGEST_RECORD_BYTES: usize = 4_294_967_295;

/// The record that prepares a unit with these changes and claims, to be laid behind a checkpoint. `Full`
/// only where it has 2^32 bytes or more with what it holds back in layout 2, so that no half has room for it.
pub fn prepare_record(
    alloc: Global,
    xid: &Xid,
    changes: &[Change],
    claims: &[Claim],
) -> Result<Record, CheckpointError>
    ensures record { IfOk result (λ r. entry_of r ≡ written (prepared xid.now (map change_of changes.now) claims.now)) }
    ensures good { IfOk result (λ r. IsGood (prepared xid.now (map change_of changes.now) claims.now)) }
    ensures other { IfErr result (λ error. error ≢ DeviceFailed) }
    ensures refused { IfErr result (λ error. IsTooLong (prepared xid.now (map change_of changes.now) claims.now) error) }
{
    let laid = match lay_prepare(
        alloc,
        Layout::Two,
        xid,
        changes,
        claims,
        LONGEST_RECORD_BYTES,
    ) {
        Ok(laid) => laid,
        Err(RecordError::NoMemory) => return Err(CheckpointError::NoMemory),
        Err(RecordError::Full { need, room }) => {
            return Err(CheckpointError::Full {
                need: need as usize,
                room: room as usize,
            });
        }
        Err(RecordError::DeviceFailed) => unreachable!(),
    };
    record_of(alloc, &laid)
}

/// The record that decides a branch heuristically, to be laid behind a checkpoint.
pub fn heuristic_record(
    alloc: Global,
    xid: &Xid,
    decision: Decision,
) -> Result<Record, CheckpointError>
    ensures record { IfOk result (λ r. entry_of r ≡ written (heuristic xid.now decision)) }
    ensures good { IfOk result (λ r. IsGood (heuristic xid.now decision)) }
    ensures other { IfErr result (λ error. error ≡ NoMemory) }
{
    match lay_heuristic(alloc, xid, decision) {
        Ok(laid) => record_of(alloc, &laid),
        Err(AllocError) => Err(CheckpointError::NoMemory),
    }
}

// The record that was laid.
fn record_of(alloc: Global, laid: &LaidRecord) -> Result<Record, CheckpointError>
    ensures record { IfOk result (λ r. entry_of r ≡ entry_in laid.now) }
    ensures other { IfErr result (λ error. error ≡ NoMemory) }
{
    match Vec::from_slice(alloc, laid.body()) {
        Ok(body) => Ok(Record {
            at: 0,
            kind: laid.kind(),
            body,
        }),
        Err(AllocError) => Err(CheckpointError::NoMemory),
    }
}

// The active half, read anew. No page is kept from then on.
fn find_active<D: Disk>(alloc: Global, pager: &mut Pager<D>) -> Result<Active, OpenError>
    ensures active { IsTrue D.is_modelled → Tells (active_of (D.life pager.old).seen) result }
    ensures size { OnOk result (IsTrue (is_store_size (length (D.life pager.new).seen))) }
    ensures stays { Stays (D.life pager.old) (D.life pager.new) }
    ensures cause { CountsOpen result (D.life pager.old).faults (D.life pager.new).faults }
{
    let found = half_store::open(alloc, pager);
    pager.forget();
    found
}

impl<D: Disk> DiskRecorder<D> {
    ghost use Rattle.journal_recorder.specs.Checkpointing.{Checkpoints, HasStore};
    ghost use Rattle.journal_recorder.specs.Reading.{HasPages};

    /// Writes a checkpoint: the rows of these tables, those of their pages with the changes since, into
    /// the half of the store that is not active, and behind them these records and no others; then that
    /// half is the active one, of layout 2, and what is recorded next stands behind them. `held` bytes are
    /// held back then. The journal is at rest before. The tables lie over the new pages then, with no changes in memory. Whatever
    /// becomes of it, they have the same rows, and their pages can be read as before.
    ///
    /// A crash at any moment leaves the old half or the new one (`Moment`). Of a disk that gives back what
    /// was written `Full` comes exactly where the half is too short for all of it, and before anything is
    /// written; `need` stops at 2^64 - 1. After it and after `NoMemory` the old half goes on. On
    /// `DeviceFailed` either of the two may count when the store is opened again, and nothing is recorded
    /// or read any more. `NoMemory` comes too where the head of the disk doesn't read as a store's, and
    /// `DeviceFailed` where a page of the tables is not as it was written; neither comes so of a disk that
    /// gives back what was written.
    pub fn checkpoint(
        &mut self,
        tables: &mut PagedTables,
        records: &[Record],
        held: usize,
    ) -> Result<(), CheckpointError>
        requires going { has_failed self.old ≡ false }
        requires rest { IsAtRest (staged_of self.old) }
        requires inside { end_of (region_of (journal_of self.old)) ≤ length (D.life (disk_of self.old)).seen }
        requires pages { HasPages D.is_modelled D.life self.old tables.old.tables }
        ensures told { Checkpoints D.is_modelled D.life self.old (store_in tables.old) (entries_of records.now) held result self.new }
        ensures tables { store_in tables.new ≡ store_in tables.old }
        ensures pages { HasStore D.is_modelled D.life self.old → HasPages D.is_modelled D.life self.new tables.new.tables }
    {
        let active = match find_active(self.alloc, &mut self.pager) {
            Ok(active) => active,
            Err(OpenError::DeviceFailed) => {
                self.is_failed = true;
                return Err(CheckpointError::DeviceFailed);
            }
            Err(OpenError::NotAStore) => return Err(CheckpointError::NoMemory),
            Err(OpenError::Damaged { .. }) => return Err(CheckpointError::NoMemory),
            Err(OpenError::NoMemory) => return Err(CheckpointError::NoMemory),
        };
        self.write_over(&active, tables, records, held)
    }

    // The same, where this is the active half.
    fn write_over(
        &mut self,
        active: &Active,
        tables: &mut PagedTables,
        records: &[Record],
        held: usize,
    ) -> Result<(), CheckpointError>
        requires going { has_failed self.old ≡ false }
        requires rest { IsAtRest (staged_of self.old) }
        requires size { IsTrue (is_store_size (length (D.life (disk_of self.old)).seen)) }
        requires active { IsTrue D.is_modelled → active_of (D.life (disk_of self.old)).seen ≡ Ok (store_of active.now) }
        requires pages { HasPages D.is_modelled D.life self.old tables.old.tables }
        ensures told { Checkpoints D.is_modelled D.life self.old (store_in tables.old) (entries_of records.now) held result self.new }
        ensures tables { store_in tables.new ≡ store_in tables.old }
        ensures pages { HasStore D.is_modelled D.life self.old → HasPages D.is_modelled D.life self.new tables.new.tables }
    {
        match write_checkpoint(self.alloc, &mut self.pager, active, tables, records, held) {
            Ok(relaid) => {
                self.staged = Staged::at_rest(relaid.switched.journal);
                self.layout = Layout::Two;
                tables.relaid(self.alloc, relaid.pages);
                Ok(())
            }
            Err(ImageError::NoMemory) => Err(CheckpointError::NoMemory),
            Err(ImageError::Full(full)) => Err(CheckpointError::Full {
                need: full.need,
                room: full.room,
            }),
            Err(ImageError::DeviceFailed) => {
                self.is_failed = true;
                Err(CheckpointError::DeviceFailed)
            }
            Err(ImageError::Damaged) => {
                self.is_failed = true;
                Err(CheckpointError::DeviceFailed)
            }
        }
    }
}

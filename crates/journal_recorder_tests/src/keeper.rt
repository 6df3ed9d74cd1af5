//! A recorder with the tables of its store. What may not be asked of it shows as want of memory, as refused, or as a device
//! that failed.

ghost use Rattle.std.specs.Prelude.{◌≡◌, ◌≤◌, IsTrue, length, false};
ghost use Rattle.drda_disk.specs.Region.{end_of};
ghost use Rattle.unit_journal.specs.Journal.{held_of, region_of};
ghost use Rattle.journal_recorder.specs.Recording.{disk_of, has_failed, journal_of};

use crate::records::released_by;
use ahead_view::{ReadError, Source};
use drda_disk::Disk;
use journal_recorder::{CheckpointError, DiskRecorder};
use paged_tables::{JudgedRows, PagedTables};
use std::alloc::{AllocError, Global};
use std::marker::Model;
use tables::{Change, Rows};
use unit_records::{DeviceFailed, GroupError, RecordContents, RecordError, Recorder};

/// A recorder, and tables whose pages it can read.
#[derive(Drop)]
pub struct Keeper<D: Disk> {
    alloc: Global,
    recorder: DiskRecorder<D>,
    tables: PagedTables,
}

impl<D: Disk> Model for Keeper<D> {
    ghost use Rattle.paged_tables.specs.TablesByName.{Tables};
    ghost use Rattle.journal_recorder.specs.Reading.{HasPages};

    ghost Value = { Tables };

    ghost view = { λ k. k.tables.tables };

    ghost invariant = { λ k. HasPages D.is_modelled D.life k.recorder k.tables.tables };
}

// Whether a record that releases so much may be asked for.
fn may_record<D: Disk>(recorder: &DiskRecorder<D>, release: usize) -> bool
    ensures going { IsTrue result → has_failed recorder.now ≡ false }
    ensures inside { IsTrue result → end_of (region_of (journal_of recorder.now)) ≤ length (D.life (disk_of recorder.now)).seen }
    ensures released { IsTrue result → release ≤ held_of (journal_of recorder.now) }
{
    !recorder.is_failed()
        && recorder.region().end() <= recorder.disk().size()
        && release <= recorder.held()
}

impl<D: Disk> Keeper<D> {
    /// A recorder, and no tables.
    pub fn new(alloc: Global, recorder: DiskRecorder<D>) -> Keeper<D> {
        Keeper {
            alloc,
            recorder,
            tables: PagedTables::new(alloc),
        }
    }

    /// The recorder.
    pub fn recorder(&self) -> &DiskRecorder<D> {
        &self.recorder
    }

    /// The same, when nothing more is asked for.
    pub fn into_recorder(self) -> DiskRecorder<D> {
        self.recorder
    }

    /// Records it.
    pub fn record(&mut self, saying: RecordContents<'_>) -> Result<(), RecordError> {
        journal_recorder::laws::pages_are_kept::<D>();
        if !may_record(&self.recorder, released_by(self.recorder.layout(), saying)) {
            return Err(RecordError::NoMemory);
        }
        match self.recorder.record(saying) {
            Ok(()) => Ok(()),
            Err(error) => Err(error),
        }
    }

    /// Records these together.
    pub fn record_three(
        &mut self,
        first: RecordContents<'_>,
        second: RecordContents<'_>,
        third: RecordContents<'_>,
    ) -> Result<(), GroupError> {
        journal_recorder::laws::pages_are_kept::<D>();
        let layout = self.recorder.layout();
        let release = released_by(layout, first)
            + released_by(layout, second)
            + released_by(layout, third);
        if !may_record(&self.recorder, release) {
            return Err(GroupError::Refused);
        }
        match self.recorder.record_all(&[first, second, third]) {
            Ok(()) => Ok(()),
            Err(GroupError::Refused) => Err(GroupError::Refused),
            Err(GroupError::DeviceFailed) => Err(GroupError::DeviceFailed),
        }
    }

    /// Lays these ahead of being made together: whether they lie there then.
    pub fn lay_three(
        &mut self,
        first: RecordContents<'_>,
        second: RecordContents<'_>,
        third: RecordContents<'_>,
    ) -> Result<bool, DeviceFailed> {
        journal_recorder::laws::pages_are_kept::<D>();
        let layout = self.recorder.layout();
        let release = released_by(layout, first)
            + released_by(layout, second)
            + released_by(layout, third);
        if !may_record(&self.recorder, release) {
            return Err(DeviceFailed);
        }
        match self.recorder.lay_ahead(&[first, second, third]) {
            Ok(lie) => Ok(lie),
            Err(DeviceFailed) => Err(DeviceFailed),
        }
    }

    /// Settles, by a flush from outside.
    pub fn settle(&mut self) -> Result<(), DeviceFailed> {
        journal_recorder::laws::pages_are_kept::<D>();
        if self.recorder.is_failed() {
            return Err(DeviceFailed);
        }
        let flushed = self.recorder.flusher().flush();
        match self.recorder.settle(flushed) {
            Ok(()) => Ok(()),
            Err(DeviceFailed) => Err(DeviceFailed),
        }
    }

    /// Gives up what was laid, and settles.
    pub fn rest(&mut self) -> Result<(), DeviceFailed> {
        journal_recorder::laws::pages_are_kept::<D>();
        if self.recorder.is_failed() {
            return Err(DeviceFailed);
        }
        match self.recorder.rest() {
            Ok(()) => Ok(()),
            Err(DeviceFailed) => Err(DeviceFailed),
        }
    }

    /// A checkpoint with no records, that holds so many bytes back, of a journal at rest.
    pub fn checkpoint(&mut self, held: usize) -> Result<(), CheckpointError>
        requires { D.is_modelled ≡ false }
    {
        journal_recorder::laws::pages_are_kept::<D>();
        if !may_record(&self.recorder, 0) {
            return Err(CheckpointError::NoMemory);
        }
        match self.recorder.rest() {
            Ok(()) => {}
            Err(DeviceFailed) => return Err(CheckpointError::DeviceFailed),
        }
        self.recorder.checkpoint(&mut self.tables, &[], held)
    }

    /// Makes a change of the tables in memory.
    pub fn change(&mut self, change: Change) -> Result<(), AllocError> {
        journal_recorder::laws::pages_are_kept::<D>();
        let mut changes = Vec::new(self.alloc);
        changes.push(change)?;
        self.tables.reserve(self.alloc, &changes)?;
        self.tables.apply_reserved(self.alloc, changes);
        Ok(())
    }

    /// The row of a key.
    pub fn row(&mut self, table: &str, key: &[u8]) -> Result<Option<Vec<u8>>, ReadError> {
        match self.recorder.row(self.alloc, &self.tables, table, key) {
            Ok(found) => Ok(found.row),
            Err(ReadError::NoMemory) => Err(ReadError::NoMemory),
            Err(ReadError::DeviceFailed) => Err(ReadError::DeviceFailed),
        }
    }

    /// All rows of a table.
    pub fn rows(&mut self, table: &str) -> Result<Rows, ReadError> {
        match self.recorder.rows(self.alloc, &self.tables, table) {
            Ok(
                JudgedRows {
                    rows,
                    are_judged: _,
                },
            ) => Ok(rows),
            Err(ReadError::NoMemory) => Err(ReadError::NoMemory),
            Err(ReadError::DeviceFailed) => Err(ReadError::DeviceFailed),
        }
    }

    /// What was read last is no row of its table.
    pub fn fail(&mut self)
        requires { D.is_modelled ≡ false }
    {
        self.recorder.fail();
    }
}

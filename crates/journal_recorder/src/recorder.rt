//! Who records in a journal.

ghost use Rattle.std.specs.Prelude.{◌≡◌, ◌+◌, ◌<◌, ◌≤◌, ◌^◌, false, List, IfErr, OnOk, length};
ghost use Rattle.drda_disk.specs.Region.{end_of};
ghost use Rattle.unit_journal.specs.Journal.{held_of, region_of, room_of};
ghost use Rattle.unit_journal.specs.LaidRecord.{entry_in};
ghost use Rattle.unit_journal.specs.Record.{laid as spelled};
ghost use Rattle.unit_records.specs.MadeRecords.{none_made};
ghost use Rattle.unit_records.specs.Records.{UnitRecord};
ghost use Rattle.unit_records.specs.Together.{FailsTogether};

use crate::laying::{held_by, lay, released_by};
use crate::laying_all::{LaidTogether, lay_all};
use crate::made::MadeRecords;
use drda_disk::{Disk, Region, WriteError};
use half_store::Layout;
use row_pages::Pager;
use std::alloc::Global;
use unit_journal::{Journal, LaidRecord, Staged};
use unit_records::{DeviceFailed, GroupError, RecordContents, RecordError, Recorder};

/// Records in the journal of a disk, each record by four device calls: write, sync, gate, sync. Records
/// that are made together take as many for all of them, and may be laid ahead: where the disk was flushed since,
/// gate and sync are left. A prepare holds the bytes of its decision back,
/// and in layout 2 those of its forgetting too, so that a decision, a heuristic one and a forgetting
/// always have room. It reads the rows of tables whose pages lie in front of the journal, and keeps pages
/// until the next checkpoint. Once the device has failed nothing is recorded or read any more,
/// and no device call is made.
#[derive(Drop)]
pub struct DiskRecorder<D: Disk> {
    pub(crate) alloc: Global,
    pub(crate) pager: Pager<D>,
    pub(crate) staged: Staged,
    pub(crate) layout: Layout,
    pub(crate) is_failed: bool,
    pub(crate) made: MadeRecords,
}

impl<D: Disk> DiskRecorder<D> {
    ghost use Rattle.journal_recorder.specs.Laying.{AreLaid, Says};
    ghost use Rattle.journal_recorder.specs.Recording.{AreLeftOpen, Fails, Records, RecordsAll, disk_of, has_failed, journal_of, layout_of, made_of, staged_of};
    ghost use Rattle.unit_journal.specs.Staged.{IsAtRest};

    /// Records in this journal of this disk, whose device has not failed, and which is lent with the pages of it
    /// that are kept. The journal has this layout.
    pub fn new(alloc: Global, pager: Pager<D>, journal: Journal, layout: Layout) -> DiskRecorder<D>
        ensures disk { disk_of result ≡ pager }
        ensures journal { journal_of result ≡ journal }
        ensures layout { layout_of result ≡ layout }
        ensures going { has_failed result ≡ false }
        ensures rest { IsAtRest (staged_of result) }
        ensures made { made_of result ≡ none_made }
    {
        DiskRecorder {
            alloc,
            pager,
            staged: Staged::at_rest(journal),
            layout,
            is_failed: false,
            made: MadeRecords::none(),
        }
    }

    /// The disk.
    pub fn disk(&self) -> &D
        ensures { result.now ≡ disk_of self.now }
    {
        self.pager.disk()
    }

    /// Whether the device has failed.
    pub fn is_failed(&self) -> bool
        ensures { result ≡ has_failed self.now }
    {
        self.is_failed
    }

    /// The layout of the journal, by which bytes are held back and released.
    pub fn layout(&self) -> Layout
        ensures { result ≡ layout_of self.now }
    {
        self.layout
    }

    /// The part of the disk that the journal has.
    pub fn region(&self) -> Region
        ensures { result ≡ region_of (journal_of self.now) }
    {
        self.staged.journal().region()
    }

    /// How many bytes of the journal are left for records; those that were laid ahead take none.
    pub fn room(&self) -> usize
        ensures { result ≡ room_of (journal_of self.now) }
    {
        self.staged.journal().room()
    }

    /// How many bytes of the journal are held back for decisions and forgettings.
    pub fn held(&self) -> usize
        ensures { result ≡ held_of (journal_of self.now) }
    {
        self.staged.journal().held()
    }

    /// The disk, when nothing more is to be recorded.
    pub fn into_disk(self) -> D
        ensures { result ≡ disk_of self }
    {
        self.pager.into_disk()
    }

    // The room, which is below 2^32 as a journal's region is at most that long.
    fn small_room(&self) -> usize
        ensures value { result ≡ room_of (journal_of self.now) }
        ensures small { result < 2 ^ 32 }
    {
        self.staged.journal().room()
    }

    // Adds a record that fits; a failure of the device is remembered.
    fn append(&mut self, laid: &LaidRecord, hold: usize, release: usize) -> Result<(), RecordError>
        requires going { has_failed self.old ≡ false }
        requires inside { end_of (region_of (journal_of self.old)) ≤ length (D.life (disk_of self.old)).seen }
        requires released { release ≤ held_of (journal_of self.old) }
        requires fits { 6 + length (entry_in laid.now).body + hold ≤ room_of (journal_of self.old) + release }
        ensures ok { (said : UnitRecord) → Says (layout_of self.old) said (entry_in laid.now) hold release → OnOk result (Records D.is_modelled D.life self.old said self.new) }
        ensures err { (said : UnitRecord) → Says (layout_of self.old) said (entry_in laid.now) hold release → IfErr result (λ error. Fails D.is_modelled D.life self.old said error self.new) }
    {
        match self.staged.append(&mut self.pager, laid, hold, release) {
            Ok(()) => {
                self.made.note(laid.kind(), laid.body());
                Ok(())
            }
            Err(WriteError::Full(full)) => Err(RecordError::Full {
                need: full.need as u64,
                room: full.room as u64,
            }),
            Err(WriteError::DeviceFailed) => {
                self.is_failed = true;
                self.made.leave_open(laid.kind(), laid.body());
                Err(RecordError::DeviceFailed)
            }
        }
    }

    // Adds records at once, all of them or none; a failure of the device is remembered.
    fn append_all(&mut self, laid: &LaidTogether) -> Result<(), GroupError>
        requires going { has_failed self.old ≡ false }
        requires inside { end_of (region_of (journal_of self.old)) ≤ length (D.life (disk_of self.old)).seen }
        requires counted { length (spelled laid.now.group) + laid.now.hold < 2 ^ 64 }
        requires released { laid.now.release ≤ held_of (journal_of self.old) }
        ensures ok { (records : List UnitRecord) → AreLaid (layout_of self.old) records laid.now.group laid.now.hold laid.now.release → OnOk result (RecordsAll D.is_modelled D.life self.old records self.new) }
        ensures err { (records : List UnitRecord) → AreLaid (layout_of self.old) records laid.now.group laid.now.hold laid.now.release → IfErr result (λ error. FailsTogether (AreLeftOpen D.is_modelled D.life) records error self.old self.new) }
    {
        match self
            .staged
            .append_group(&mut self.pager, &laid.group, laid.hold, laid.release)
        {
            Ok(()) => {
                self.made.note_all(&laid.group);
                Ok(())
            }
            Err(WriteError::Full(_)) => Err(GroupError::Refused),
            Err(WriteError::DeviceFailed) => {
                self.is_failed = true;
                self.made.leave_all_open(&laid.group);
                Err(GroupError::DeviceFailed)
            }
        }
    }
}

impl<D: Disk> Recorder for DiskRecorder<D> {
    ghost use Rattle.journal_recorder.specs.Recording.{Allows, AllowsAll, AreLeftOpen, Fails, Records, RecordsAll};

    ghost allows = { λ old said. Allows D.is_modelled D.life old said };

    ghost records = { λ old said new. Records D.is_modelled D.life old said new };

    ghost fails = { λ old said error new. Fails D.is_modelled D.life old said error new };

    fn record(&mut self, saying: RecordContents<'_>) -> Result<(), RecordError> {
        let laid = lay(self.alloc, self.layout, saying, self.small_room())?;
        let hold = held_by(self.layout, saying);
        let release = released_by(self.layout, saying);
        self.append(&laid, hold, release)
    }

    ghost allows_all = { λ old records. AllowsAll D.is_modelled D.life old records };

    ghost records_all = { λ old records new. RecordsAll D.is_modelled D.life old records new };

    ghost fails_all = { λ old records new. AreLeftOpen D.is_modelled D.life old records new };

    fn record_all(&mut self, sayings: &[RecordContents<'_>]) -> Result<(), GroupError> {
        match lay_all(self.alloc, self.layout, sayings, self.small_room()) {
            Some(laid) => self.append_all(&laid),
            None => Err(GroupError::Refused),
        }
    }

    ghost use Rattle.journal_recorder.specs.Ahead.{FailsAhead, LaysAhead, nothing_laid};

    ghost lays_ahead = { λ old new. LaysAhead D.is_modelled D.life old new };

    ghost fails_ahead = { λ old new. FailsAhead D.is_modelled D.life old new };

    fn lay_ahead(&mut self, sayings: &[RecordContents<'_>]) -> Result<bool, DeviceFailed> {
        match lay_all(self.alloc, self.layout, sayings, self.small_room()) {
            Some(laid) => self.lay_group(laid),
            None => Ok(false),
        }
    }

    ghost use Rattle.journal_recorder.specs.Ahead.{AllowsEarly};

    ghost allows_early = { λ r records. AllowsEarly D.is_modelled D.life D.allows r records };

    fn open_early(&mut self, sayings: &[RecordContents<'_>]) -> Result<bool, DeviceFailed> {
        match lay_all(self.alloc, self.layout, sayings, self.small_room()) {
            Some(laid) => self.open_group(&laid),
            None => Ok(false),
        }
    }

    ghost lays_none = { λ r. nothing_laid D.is_modelled D.life r };
}

//! Records that are laid ahead of being made.

ghost use Rattle.std.specs.Prelude.{◌≡◌, ◌+◌, ◌<◌, ◌≤◌, ◌^◌, false, IsTrue, OnErr, OnOk, length};
ghost use Rattle.drda_disk.specs.Disk.{Stays};
ghost use Rattle.drda_disk.specs.Region.{end_of};
ghost use Rattle.unit_journal.specs.Journal.{held_of, region_of, room_of};
ghost use Rattle.unit_journal.specs.Record.{laid as spelled};

use crate::laying_all::LaidTogether;
use crate::recorder::DiskRecorder;
use drda_disk::{Disk, DiskFault, Flushed, Flusher};
use unit_records::DeviceFailed;

impl<D: Disk> DiskRecorder<D> {
    ghost use Rattle.journal_recorder.specs.Ahead.{FailsAhead, LaysAhead};
    ghost use Rattle.journal_recorder.specs.Recording.{disk_of, has_failed, journal_of, staged_of};
    ghost use Rattle.unit_journal.specs.Staged.{IsAtRest, MayOpenEarly};

    // Lays records behind the others, and tells whether they lie there; a failure of the device is remembered.
    pub(crate) fn lay_group(&mut self, laid: LaidTogether) -> Result<bool, DeviceFailed>
        requires going { has_failed self.old ≡ false }
        requires inside { end_of (region_of (journal_of self.old)) ≤ length (D.life (disk_of self.old)).seen }
        requires counted { length (spelled laid.group) + laid.hold < 2 ^ 64 }
        requires released { laid.release ≤ held_of (journal_of self.old) }
        ensures ok { OnOk result (LaysAhead D.is_modelled D.life self.old self.new) }
        ensures err { OnErr result (FailsAhead D.is_modelled D.life self.old self.new) }
    {
        match self
            .staged
            .lay_ahead(&mut self.pager, laid.group, laid.hold, laid.release)
        {
            Ok(lies) => Ok(lies),
            Err(DiskFault) => {
                self.is_failed = true;
                Err(DeviceFailed)
            }
        }
    }

    // Has records count on the device before they are made, where they were laid and the disk has settled since, and tells whether they
    // do; a failure of the device is remembered.
    pub(crate) fn open_group(&mut self, laid: &LaidTogether) -> Result<bool, DeviceFailed>
        requires going { has_failed self.old ≡ false }
        requires inside { end_of (region_of (journal_of self.old)) ≤ length (D.life (disk_of self.old)).seen }
        requires counted { length (spelled laid.now.group) + laid.now.hold < 2 ^ 64 }
        requires released { laid.now.release ≤ held_of (journal_of self.old) }
        requires allowed { IsTrue D.is_modelled → length (spelled laid.now.group) + laid.now.hold ≤ room_of (journal_of self.old) + laid.now.release
            → MayOpenEarly D.is_modelled (D.life (disk_of self.old)) (staged_of self.old) laid.now.group D.allows }
        ensures ok { OnOk result (LaysAhead D.is_modelled D.life self.old self.new) }
        ensures err { OnErr result (FailsAhead D.is_modelled D.life self.old self.new) }
    {
        match self
            .staged
            .open_early(&mut self.pager, &laid.group, laid.hold, laid.release)
        {
            Ok(stands) => Ok(stands),
            Err(DiskFault) => {
                self.is_failed = true;
                Err(DeviceFailed)
            }
        }
    }

    /// What flushes the disk from outside, while others are served: all that was written so far. See `Disk::flusher`.
    pub fn flusher(&self) -> Flusher {
        self.pager.flusher()
    }

    /// The disk settles, by a flush from outside or by a sync: what was laid ahead may be made without one. A failure of the
    /// device is remembered. See `Disk::settle`.
    pub fn settle(&mut self, flushed: Flushed) -> Result<(), DeviceFailed>
        requires going { has_failed self.old ≡ false }
        ensures ok { OnOk result (LaysAhead D.is_modelled D.life self.old self.new) }
        ensures err { OnErr result (FailsAhead D.is_modelled D.life self.old self.new) }
    {
        match self.staged.settle(&mut self.pager, flushed) {
            Ok(()) => Ok(()),
            Err(DiskFault) => {
                self.is_failed = true;
                Err(DeviceFailed)
            }
        }
    }

    /// Gives up what was laid ahead, and syncs where anything was written since the last sync, so that a checkpoint can be
    /// written: a crash leaves what is read then. A failure of the device is remembered.
    pub fn rest(&mut self) -> Result<(), DeviceFailed>
        requires going { has_failed self.old ≡ false }
        ensures ok { OnOk result (LaysAhead D.is_modelled D.life self.old self.new) }
        ensures rest { OnOk result (IsAtRest (staged_of self.new)) }
        ensures stays { Stays (D.life (disk_of self.old)) (D.life (disk_of self.new)) }
        ensures err { OnErr result (FailsAhead D.is_modelled D.life self.old self.new) }
    {
        match self.staged.rest(&mut self.pager) {
            Ok(()) => Ok(()),
            Err(DiskFault) => {
                self.is_failed = true;
                Err(DeviceFailed)
            }
        }
    }
}

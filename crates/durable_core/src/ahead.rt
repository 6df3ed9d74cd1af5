//! Records that are laid ahead of being made together, so that the disk is flushed from outside meanwhile.

ghost use Rattle.recovery.specs.Journaled.{Journaled, shown_on};
ghost use Rattle.std.specs.Prelude.{IsTrue};
ghost use Rattle.durable_core.specs.Ahead.{LetsOpenEarly, StaysAhead};

use crate::durable::DurableCore;
use drda_disk::{Disk, Flushed, Flusher};
use journal_recorder::DiskRecorder;
use rdb_core::Core;
use unit_records::{DeviceFailed, GroupCall};

impl<D: Disk> DurableCore<D> {
    /// Lays the records of these calls on the disk ahead of their being made together, behind all that counts there, and hands
    /// out what flushes the disk, from another thread too. A hint, and no more: all is as it was. While nothing else is
    /// recorded, making these calls together then needs to write no more than that the records count; where other calls are
    /// made together, or alone, what was laid is given up.
    ///
    /// `None` where they do not lie there: they may not be made together, there is no memory or no room for all of them, the
    /// device fails, which is a failure of the core, or it had failed, and then no device call is made.
    pub fn lay_ahead(&mut self, calls: &[GroupCall]) -> Option<Flusher>
        ensures rests { StaysAhead D.is_modelled (shown_on D.life self.old) (shown_on D.life self.new) }
        ensures journaled { Journaled D.is_modelled (shown_on D.life self.old) (shown_on D.life self.new) }
    {
        recovery::laws::groups_are_recorded();
        recovery::laws::decisions_of_all_are_held();
        recovery::laws::groups_stay();
        recovery::laws::calls_make_records::<D>();
        recovery::laws::calls_make_groups::<D>();
        recovery::laws::calls_go_on::<D>();
        journal_recorder::laws::pages_are_kept::<D>();
        if self.core.recorder().is_failed() {
            return None;
        }
        if !self.core.may_make(calls) {
            return None;
        }
        let laid = self.core.lay_ahead(calls);
        flusher_of(&self.core, laid)
    }

    /// Has the records of these calls count on the disk before the calls are made, where they were laid ahead and the disk has settled
    /// since, and hands out what flushes the disk, from another thread too. A hint, and no more: all is as it was. While nothing else
    /// is recorded, making these calls together then needs no call of the device, once the disk has settled again; else the records
    /// are taken back. Meanwhile a crash of the device leaves what is durable of the core, or that behind all of these calls: what
    /// `Disk::allows` then lets be left.
    ///
    /// `None` where they do not: see `lay_ahead`.
    pub fn open_early(&mut self, calls: &[GroupCall]) -> Option<Flusher>
        requires early { IsTrue D.is_modelled → LetsOpenEarly D.allows }
        ensures rests { StaysAhead D.is_modelled (shown_on D.life self.old) (shown_on D.life self.new) }
        ensures journaled { Journaled D.is_modelled (shown_on D.life self.old) (shown_on D.life self.new) }
    {
        recovery::laws::groups_are_recorded();
        recovery::laws::decisions_of_all_are_held();
        recovery::laws::groups_open();
        recovery::laws::groups_stay();
        recovery::laws::calls_make_records::<D>();
        recovery::laws::calls_make_groups::<D>();
        recovery::laws::calls_go_on::<D>();
        journal_recorder::laws::pages_are_kept::<D>();
        let recorder = self.core.recorder();
        if recorder.is_failed() {
            return None;
        }
        if !self.core.may_make(calls) {
            return None;
        }
        let opened = self.core.open_early(calls);
        flusher_of(&self.core, opened)
    }

    /// Tells the disk what became of the flush: it syncs, where anything was written since. Where either failed the core has
    /// failed. All else is as it was. Nothing is done where the device had failed.
    pub fn settle(&mut self, flushed: Flushed)
        ensures rests { StaysAhead D.is_modelled (shown_on D.life self.old) (shown_on D.life self.new) }
        ensures journaled { Journaled D.is_modelled (shown_on D.life self.old) (shown_on D.life self.new) }
    {
        recovery::laws::groups_stay();
        recovery::laws::calls_make_records::<D>();
        recovery::laws::calls_go_on::<D>();
        journal_recorder::laws::pages_are_kept::<D>();
        let recorder = self.core.recorder();
        if recorder.is_failed() {
            return;
        }
        let _settled = self.core.recorder.settle(flushed);
    }
}

// What flushes the disk, where records lie ahead.
fn flusher_of<D: Disk>(
    core: &Core<DiskRecorder<D>>,
    laid: Result<bool, DeviceFailed>,
) -> Option<Flusher> {
    match laid {
        Ok(true) => Some(core.recorder().flusher()),
        Ok(false) => None,
        Err(DeviceFailed) => None,
    }
}

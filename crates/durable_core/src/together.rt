//! Calls that are made together.

ghost use Rattle.recovery.specs.Journaled.{Journaled, shown_on};
ghost use Rattle.durable_core.specs.Together.{MakeTogether};

use crate::durable::DurableCore;
use drda_disk::Disk;
use unit_records::{GroupCall, GroupError};

/// What became of calls that were to be made together.
#[derive(Clone, Copy, Debug, PartialEq, Eq)]
pub enum Together {
    /// Each was made.
    Done,
    /// Nothing was done, and each may be made alone: they do not go together, or there is no memory or no room
    /// for all of them.
    Alone,
    /// The device failed. None was made; whether what was to be recorded is there, all or none, shows when
    /// the store is opened again.
    DeviceFailed,
    /// The device had failed before. Nothing was done.
    Closed,
}

impl<D: Disk> DurableCore<D> {
    /// These calls are made, one after another in this order: commits, prepares and decisions, each about another unit. Each
    /// has a record, and all are made by as many device calls as one: a crash at any moment leaves a disk that opens to
    /// the tables and the units in doubt from before them all or from after them all.
    pub fn make_together(&mut self, calls: &[GroupCall]) -> Together
        ensures makes { MakeTogether (shown_on D.life self.old) calls.now result (shown_on D.life self.new) }
        ensures journaled { Journaled D.is_modelled (shown_on D.life self.old) (shown_on D.life self.new) }
    {
        unit_records::laws::calls_go_together();
        recovery::laws::groups_are_recorded();
        recovery::laws::decisions_of_all_are_held();
        recovery::laws::groups_stay();
        recovery::laws::calls_make_records::<D>();
        recovery::laws::calls_make_groups::<D>();
        recovery::laws::calls_go_on::<D>();
        journal_recorder::laws::pages_are_kept::<D>();
        if self.core.recorder().is_failed() {
            return Together::Closed;
        }
        if !self.core.may_make(calls) {
            return Together::Alone;
        }
        match self.core.make_together(calls) {
            Ok(()) => Together::Done,
            Err(GroupError::Refused) => Together::Alone,
            Err(GroupError::DeviceFailed) => Together::DeviceFailed,
        }
    }
}

//! What records say, and what they release.

ghost use Rattle.std.specs.Prelude.{◌≡◌, ◌≤◌};
ghost use Rattle.unit_records.specs.Room.{released};
ghost use Rattle.unit_records.specs.RecordContents.{said_by};

use half_store::Layout;
use journal_recorder::{CheckpointError, heuristic_record, prepare_record};
use std::alloc::Global;
use unit_journal::Record;
use unit_records::{
    RecordContents, UnitRecord, held_for_decision, held_for_forgetting, held_in_doubt,
};

/// What a record releases.
pub fn released_by(layout: Layout, saying: RecordContents<'_>) -> usize
    ensures value { result ≡ released layout (said_by saying.entry) }
    ensures short { result ≤ 293 }
{
    match saying {
        RecordContents::Commit { .. } => 0,
        RecordContents::Prepare { .. } => 0,
        RecordContents::Decide { xid, .. } => held_in_doubt(layout, xid),
        RecordContents::Heuristic { xid, .. } => held_for_decision(xid),
        RecordContents::Forget { xid } => held_for_forgetting(xid),
    }
}

/// What a record says.
pub fn saying_of(read: &UnitRecord) -> RecordContents<'_> {
    match read {
        UnitRecord::Commit { changes } => RecordContents::Commit { changes },
        UnitRecord::Prepare {
            xid,
            changes,
            claims,
        } => RecordContents::Prepare {
            xid,
            changes,
            claims,
        },
        UnitRecord::Decide { xid, decision } => RecordContents::Decide {
            xid,
            decision: *decision,
        },
        UnitRecord::Heuristic { xid, decision } => RecordContents::Heuristic {
            xid,
            decision: *decision,
        },
        UnitRecord::Forget { xid } => RecordContents::Forget { xid },
    }
}

/// The record of a branch that is laid behind a checkpoint, where there is one of this.
pub fn laid(alloc: Global, read: &UnitRecord) -> Result<Option<Record>, CheckpointError> {
    match read {
        UnitRecord::Prepare {
            xid,
            changes,
            claims,
        } => Ok(Some(prepare_record(alloc, xid, changes, claims)?)),
        UnitRecord::Heuristic { xid, decision } => {
            Ok(Some(heuristic_record(alloc, xid, *decision)?))
        }
        UnitRecord::Commit { .. } => Ok(None),
        UnitRecord::Decide { .. } => Ok(None),
        UnitRecord::Forget { .. } => Ok(None),
    }
}

//! The records that left the branches in doubt.

ghost use Rattle.std.specs.Prelude.{◌≡◌, ◌↔◌, IfOk, IsTrue, bytes_eq, is_some};
ghost use Rattle.std.specs.List.{list_any};
ghost use Rattle.unit_journal.specs.Record.{entry_of};
ghost use Rattle.recovery.specs.Durable.{doubt_of};
ghost use Rattle.recovery.specs.Replay.{doubts_in};
ghost use Rattle.durable_core.specs.Damage.{HoldsForOne};
ghost use Rattle.durable_core.specs.Holders.{IsHolder, TellsLast};

use recovery::PreparedUnit;
use std::alloc::{AllocError, Global};
use unit_journal::Record;
use unit_records::{ReadError, UnitRecord};
use xa_calls::Xid;

/// The offset of the last record that left one of the branches in doubt, or 0 where none did.
pub(crate) fn last_holder(
    alloc: Global,
    records: &[Record],
    units: &[PreparedUnit],
) -> Result<usize, AllocError>
    ensures { IfOk result (TellsLast (doubts_in units.now) records.now) }
{
    let mut last = 0;
    let mut left = records;
    while let [entry, rest @ ..] = left {
        if holds_for_one(alloc, entry, units)? {
            last = entry.at;
        }
        left = rest;
    }
    Ok(last)
}

// Whether a record left one of the branches in doubt.
fn holds_for_one(alloc: Global, entry: &Record, units: &[PreparedUnit]) -> Result<bool, AllocError>
    ensures { IfOk result (λ holds. IsTrue holds ↔ HoldsForOne (doubts_in units.now) (entry_of entry.now)) }
{
    unit_records::laws::records_have_one_reading();
    let said = UnitRecord::read(alloc, entry.kind, entry.body.as_slice());
    is_holder(units, &said)
}

// Whether what was read of a record left one of the branches in doubt.
fn is_holder(
    units: &[PreparedUnit],
    said: &Result<UnitRecord, ReadError>,
) -> Result<bool, AllocError>
    ensures { IfOk result (IsHolder (doubts_in units.now) said.now) }
{
    match said {
        Ok(UnitRecord::Prepare { xid, .. }) => Ok(is_in_doubt(units, xid)),
        Ok(UnitRecord::Heuristic { xid, .. }) => Ok(is_in_doubt(units, xid)),
        Ok(UnitRecord::Commit { .. }) => Ok(false),
        Ok(UnitRecord::Decide { .. }) => Ok(false),
        Ok(UnitRecord::Forget { .. }) => Ok(false),
        Err(ReadError::Damaged) => Ok(false),
        Err(ReadError::NoMemory) => Err(AllocError),
    }
}

// Whether an XID is one of a branch in doubt.
fn is_in_doubt(units: &[PreparedUnit], xid: &Xid) -> bool
    ensures { result ≡ is_some (doubt_of (doubts_in units.now) xid.now) }
{
    has(units, xid)
}

fn has(units: &[PreparedUnit], xid: &Xid) -> bool
    ensures { result ≡ list_any (λ u. bytes_eq xid.now u.xid) units.now }
{
    units.iter().any(|unit| *xid == unit.xid)
}

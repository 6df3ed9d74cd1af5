//! The bytes that a journal holds back for branches in doubt.

ghost use Rattle.std.specs.Prelude.{◌≡◌, ◌+◌, ◌<◌, ◌≤◌, OnOk};
ghost use Rattle.unit_journal.specs.Journal.{held_of, next_of, region_of, room_of};
ghost use Rattle.recovery.specs.Laws.{held_at, held_for};
ghost use Rattle.recovery.specs.Replay.{doubts_in};
ghost use Rattle.durable_core.specs.Holders.{TellsLast};
ghost use Rattle.durable_core.specs.Reads.{Counts, IsPlain, TellsDamage};

use crate::errors::OpenError;
use crate::holders::last_holder;
use half_store::Layout;
use recovery::PreparedUnit;
use std::alloc::Global;
use unit_journal::{Journal, Record};
use unit_records::{held_for_forgetting, held_in_doubt};
use xa_calls::Xid;
use xa_manager::Decision;

/// Holds back what each branch in doubt holds. Where there is no room for it the journal is damaged: at the
/// last of the records that left a branch in doubt which still is.
pub(crate) fn hold_all(
    alloc: Global,
    layout: Layout,
    journal: &mut Journal,
    records: &[Record],
    units: &[PreparedUnit],
) -> Result<(), OpenError>
    ensures held { OnOk result (held_of journal.new ≡ held_of journal.old + held_for layout (doubts_in units.now)) }
    ensures same { OnOk result ((region_of journal.new ≡ region_of journal.old) × (next_of journal.new ≡ next_of journal.old)) }
    ensures opens { held_for layout (doubts_in units.now) ≤ room_of journal.old → IsPlain result }
    ensures tells { TellsDamage result (λ at. (room_of journal.old < held_for layout (doubts_in units.now)) × TellsLast (doubts_in units.now) records.now at) }
    ensures cause { (n : _) → Counts result n n }
{
    let mut left = units;
    while let [unit, rest @ ..] = left {
        match journal.hold(held_at(layout, &unit.xid, unit.outcome)) {
            Ok(()) => {}
            Err(_) => {
                let at = last_holder(alloc, records, units)?;
                return Err(OpenError::Damaged { at });
            }
        }
        left = rest;
    }
    Ok(())
}

/// How many bytes a branch in doubt holds back, by how it was decided heuristically, where it was: at most 293.
pub(crate) fn held_at(layout: Layout, xid: &Xid, outcome: Option<Decision>) -> usize
    ensures value { result ≡ held_at layout xid.now outcome }
    ensures few { result ≤ 293 }
{
    match outcome {
        None => held_in_doubt(layout, xid),
        Some(_) => held_for_forgetting(xid),
    }
}

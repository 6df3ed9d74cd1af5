//! Records for which a journal has room, laid as they go onto the disk.

ghost use Rattle.std.specs.Prelude.{◌≡◌, ◌+◌, ◌-◌, ◌^◌, ◌<◌, ◌≤◌, IfErr, IfOk, MatchResult, min, map};
ghost use Rattle.half_store.specs.declared.header.Layout.{Layout as LayoutIs};
ghost use Rattle.tables.specs.ChangeView.{change_of};
ghost use Rattle.unit_records.specs.declared.record_error.RecordError.TheVariants.{Full};
ghost use Rattle.unit_journal.specs.LaidRecord.{entry_in};
ghost use Rattle.unit_records.specs.RecordContents.{said_by};
ghost use Rattle.unit_records.specs.Records.{IsGood, committed, decided, forgotten, heuristic, prepared, record_bytes};
ghost use Rattle.unit_records.specs.Room.{held, released};
ghost use Rattle.journal_recorder.specs.Laying.{IsLaid, Refuses};

use half_store::Layout;
use std::alloc::{AllocError, Global};
use tables::Change;
use unit_journal::{HEAD_BYTES, Kind, LaidRecord};
use unit_locks::Claim;
use unit_records::{
    RecordContents, RecordError, commit_length, decide_length, forget_length, held_for_decision,
    held_for_forgetting, held_in_doubt, prepare_length, write_commit, write_decide, write_forget,
    write_prepare,
};
use xa_calls::Xid;
use xa_manager::Decision;

/// A record, where it and the bytes that it holds back fit into this room and the bytes that it releases. A
/// decision, a heuristic one and a forgetting always fit.
pub(crate) fn lay(
    alloc: Global,
    layout: Layout,
    saying: RecordContents<'_>,
    room: usize,
) -> Result<LaidRecord, RecordError>
    requires { room < 2 ^ 32 }
    ensures ok { IfOk result (λ laid. IsLaid layout (said_by saying.entry) room (entry_in laid)) }
    ensures err { IfErr result (λ error. Refuses layout (said_by saying.entry) room error) }
{
    match saying {
        RecordContents::Commit { changes } => lay_commit(alloc, changes, room),
        RecordContents::Prepare {
            xid,
            changes,
            claims,
        } => lay_prepare(alloc, layout, xid, changes, claims, room),
        RecordContents::Decide { xid, decision } => Ok(lay_decide(alloc, xid, decision)?),
        RecordContents::Heuristic { xid, decision } => Ok(lay_heuristic(alloc, xid, decision)?),
        RecordContents::Forget { xid } => Ok(lay_forget(alloc, xid)?),
    }
}

/// How many bytes it holds back.
pub(crate) fn held_by(layout: Layout, saying: RecordContents<'_>) -> usize
    ensures { result ≡ held layout (said_by saying.entry) }
{
    match saying {
        RecordContents::Commit { .. } => 0,
        RecordContents::Prepare { xid, .. } => held_in_doubt(layout, xid),
        RecordContents::Decide { .. } => 0,
        RecordContents::Heuristic { .. } => 0,
        RecordContents::Forget { .. } => 0,
    }
}

/// How many bytes that were held back it releases.
pub(crate) fn released_by(layout: Layout, saying: RecordContents<'_>) -> usize
    ensures { result ≡ released layout (said_by saying.entry) }
{
    match saying {
        RecordContents::Commit { .. } => 0,
        RecordContents::Prepare { .. } => 0,
        RecordContents::Decide { xid, .. } => held_in_doubt(layout, xid),
        RecordContents::Heuristic { xid, .. } => held_for_decision(xid),
        RecordContents::Forget { xid } => held_for_forgetting(xid),
    }
}

// A commit with these changes.
fn lay_commit(alloc: Global, changes: &[Change], room: usize) -> Result<LaidRecord, RecordError>
    requires { room < 2 ^ 32 }
    ensures ok { (layout : LayoutIs) → IfOk result (λ laid. IsLaid layout (committed (map change_of changes.now)) room (entry_in laid)) }
    ensures err { (layout : LayoutIs) → IfErr result (λ error. Refuses layout (committed (map change_of changes.now)) room error) }
{
    let length = commit_length(changes);
    check_room(length, 0, room)?;
    let mut bytes = LaidRecord::begin(alloc, length)?;
    write_commit(&mut bytes, changes)?;
    Ok(LaidRecord::finish(Kind::Commit, bytes)?)
}

/// A prepare with these changes and claims, where the record and what a branch in doubt holds back fit
/// into this room.
pub(crate) fn lay_prepare(
    alloc: Global,
    layout: Layout,
    xid: &Xid,
    changes: &[Change],
    claims: &[Claim],
    room: usize,
) -> Result<LaidRecord, RecordError>
    requires { room < 2 ^ 32 }
    ensures ok { IfOk result (λ laid. IsLaid layout (prepared xid.now (map change_of changes.now) claims.now) room (entry_in laid)) }
    ensures err { IfErr result (λ error. Refuses layout (prepared xid.now (map change_of changes.now) claims.now) room error) }
{
    let length = prepare_length(xid, changes, claims);
    check_room(length, held_in_doubt(layout, xid), room)?;
    let mut bytes = LaidRecord::begin(alloc, length)?;
    write_prepare(&mut bytes, xid, changes, claims)?;
    Ok(LaidRecord::finish(Kind::Prepare, bytes)?)
}

// A decision, for which there is room already.
fn lay_decide(alloc: Global, xid: &Xid, decision: Decision) -> Result<LaidRecord, AllocError>
    ensures { (layout : LayoutIs) (room : _) → IfOk result (λ laid. IsLaid layout (decided xid.now decision) room (entry_in laid)) }
{
    unit_records::laws::decisions_have_room();
    lay_decision(alloc, Kind::Decide, xid, decision)
}

/// A heuristic decision, for which there is room already.
pub(crate) fn lay_heuristic(
    alloc: Global,
    xid: &Xid,
    decision: Decision,
) -> Result<LaidRecord, AllocError>
    ensures { (layout : LayoutIs) (room : _) → IfOk result (λ laid. IsLaid layout (heuristic xid.now decision) room (entry_in laid)) }
{
    unit_records::laws::decisions_have_room();
    lay_decision(alloc, Kind::Heuristic, xid, decision)
}

// A decision of either kind.
fn lay_decision(
    alloc: Global,
    kind: Kind,
    xid: &Xid,
    decision: Decision,
) -> Result<LaidRecord, AllocError>
    ensures entry { IfOk result (λ laid. entry_in laid ≡ record { kind = kind; body = record_bytes (decided xid.now decision) }) }
    ensures good { IsGood (decided xid.now decision) }
{
    let mut bytes = LaidRecord::begin(alloc, decide_length(xid))?;
    write_decide(&mut bytes, xid, decision)?;
    LaidRecord::finish(kind, bytes)
}

// A forgetting, for which there is room already.
fn lay_forget(alloc: Global, xid: &Xid) -> Result<LaidRecord, AllocError>
    ensures { (layout : LayoutIs) (room : _) → IfOk result (λ laid. IsLaid layout (forgotten xid.now) room (entry_in laid)) }
{
    unit_records::laws::decisions_have_room();
    let mut bytes = LaidRecord::begin(alloc, forget_length(xid))?;
    write_forget(&mut bytes, xid)?;
    LaidRecord::finish(Kind::Forget, bytes)
}

// `Full` where a record with a body of this length, and what it holds back, are longer than the room.
fn check_room(length: usize, held: usize, room: usize) -> Result<(), RecordError>
    requires { room < 2 ^ 32 }
    ensures { MatchResult result (λ _. 6 + length + held ≤ room) (λ error. (error ≡ Full (min (6 + length + held) (2 ^ 64 - 1)) room) × (room < 6 + length + held)) }
{
    let need = HEAD_BYTES.saturating_add(length).saturating_add(held);
    if need > room {
        return Err(RecordError::Full {
            need: need as u64,
            room: room as u64,
        });
    }
    Ok(())
}

//! How units end.

ghost use Rattle.std.specs.Prelude.{◌≡◌, IfErr, None, OnErr, OnOk, Some, if◌then◌else◌, map};
ghost use Rattle.tables.specs.ChangeView.{change_of};
ghost use Rattle.paged_tables.specs.PagedTables.{IsReserved, store_in};
ghost use Rattle.paged_tables.specs.TablesByName.{PagesStay};
ghost use Rattle.unit_records.specs.RecordContents.{said_by};
ghost use Rattle.unit_records.specs.Records.{UnitRecord};
ghost use Rattle.unit_records.specs.Due.{action_due, commit_due};
ghost use Rattle.xa_manager.specs.Branch.{is_lost_with};
ghost use Rattle.core_model.specs.Units.{global, unit_of, without};
ghost use Rattle.core_model.specs.Events.{Commit, Leave, bare, bare_run};
ghost use Rattle.core_model.specs.Step.{action_events, lost_xids};
ghost use Rattle.unit_table.specs.Owner.{plain_owner};
ghost use Rattle.unit_statements.specs.Base.{base_of};
ghost use Rattle.rdb_core.specs.Recorded.{IsRecorded, Refuses};
ghost use Rattle.rdb_core.specs.Steps.{left_units};

use paged_tables::PagedTables;
use std::alloc::{AllocError, Global};
use tables::Change;
use unit_records::{RecordContents, RecordError, Recorder};
use unit_statements::Base;
use unit_table::{Owner, Units};
use xa_calls::Xid;
use xa_manager::{Action, Branch, Decision};

/// An owner's unit is committed: its changes are recorded and then made, and it ends with its claims.
/// Memory is taken, and a record is made, only where it has changes. On an error all units and tables
/// stay, and no room is held.
pub(crate) fn commit_unit<R: Recorder>(
    base: &mut Base,
    recorder: &mut R,
    alloc: Global,
    owner: &Owner,
) -> Result<(), RecordError>
    requires allowed { (r : UnitRecord) → commit_due (unit_of (plain_owner owner.now) base.old.units).changes ≡ Some r → R.allows recorder.old r }
    ensures done { OnOk result (base_of base.new ≡ bare (base_of base.old) (Commit (plain_owner owner.now))) }
    ensures recorded { OnOk result (IsRecorded R.records (commit_due (unit_of (plain_owner owner.now) base.old.units).changes) recorder.old recorder.new) }
    ensures kept { OnErr result (base_of base.new ≡ base_of base.old) }
    ensures refused { IfErr result (λ error. Refuses R.fails (commit_due (unit_of (plain_owner owner.now) base.old.units).changes) error recorder.old recorder.new) }
    ensures cause { OnErr result (commit_due (unit_of (plain_owner owner.now) base.old.units).changes ≡ None → ⊥) }
    ensures pages { PagesStay base.old.tables.tables base.new.tables.tables }
{
    if !base.units.has_changes(owner) {
        let _none = base.units.end(owner);
        return Ok(());
    }
    match make_room(&mut base.tables, alloc, base.units.changes(owner)) {
        Ok(()) => {}
        Err(AllocError) => return Err(RecordError::NoMemory),
    }
    let recorded = recorder.record(RecordContents::Commit {
        changes: base.units.changes(owner),
    });
    finish(base, alloc, owner, recorded)
}

/// The unit of a branch in doubt ends as the branch is decided: what is said of that is recorded first. Memory is
/// taken where it commits; rolled back, by the record alone. On an error all units and tables stay, and no
/// room is held.
pub(crate) fn end_decided<R: Recorder>(
    base: &mut Base,
    recorder: &mut R,
    alloc: Global,
    xid: &Xid,
    decision: Decision,
    saying: RecordContents<'_>,
) -> Result<(), RecordError>
    requires allowed { R.allows recorder.old (said_by saying) }
    ensures done { OnOk result (base_of base.new ≡ bare_run (action_events xid.now (Action.Decide decision)) (base_of base.old)) }
    ensures recorded { OnOk result (R.records recorder.old (said_by saying.entry) recorder.new) }
    ensures kept { OnErr result (base_of base.new ≡ base_of base.old) }
    ensures refused { IfErr result (λ error. Refuses R.fails (Some (said_by saying.entry)) error recorder.old recorder.new) }
    ensures pages { PagesStay base.old.tables.tables base.new.tables.tables }
{
    match decision {
        Decision::Commit => commit_decided(base, recorder, alloc, xid, saying),
        Decision::RollBack => roll_back_decided(&mut base.units, recorder, xid, saying),
    }
}

// The unit of a branch in doubt is committed: this is recorded, then its changes are made, and it ends
// with its claims. On an error all units and tables stay, and no room is held.
fn commit_decided<R: Recorder>(
    base: &mut Base,
    recorder: &mut R,
    alloc: Global,
    xid: &Xid,
    saying: RecordContents<'_>,
) -> Result<(), RecordError>
    requires allowed { R.allows recorder.old (said_by saying) }
    ensures done { OnOk result (base_of base.new ≡ bare (base_of base.old) (Commit (global xid.now))) }
    ensures recorded { OnOk result (R.records recorder.old (said_by saying.entry) recorder.new) }
    ensures kept { OnErr result (base_of base.new ≡ base_of base.old) }
    ensures refused { IfErr result (λ error. Refuses R.fails (Some (said_by saying.entry)) error recorder.old recorder.new) }
    ensures pages { PagesStay base.old.tables.tables base.new.tables.tables }
{
    let owner = Owner::Global(*xid);
    match make_room(&mut base.tables, alloc, base.units.changes(&owner)) {
        Ok(()) => {}
        Err(AllocError) => return Err(RecordError::NoMemory),
    }
    let recorded = recorder.record(saying);
    finish(base, alloc, &owner, recorded)
}

// The unit of a branch in doubt is rolled back: this is recorded, then it ends with its claims. On an error
// all units stay.
fn roll_back_decided<R: Recorder>(
    units: &mut Units,
    recorder: &mut R,
    xid: &Xid,
    saying: RecordContents<'_>,
) -> Result<(), RecordError>
    requires allowed { R.allows recorder.old (said_by saying) }
    ensures done { OnOk result (units.new ≡ without (global xid.now) units.old) }
    ensures recorded { OnOk result (R.records recorder.old (said_by saying.entry) recorder.new) }
    ensures kept { OnErr result (units.new ≡ units.old) }
    ensures refused { IfErr result (λ error. Refuses R.fails (Some (said_by saying.entry)) error recorder.old recorder.new) }
{
    recorder.record(saying)?;
    let _changes = units.end(&Owner::Global(*xid));
    Ok(())
}

/// Makes room for changes; out of memory, no room is held. The tables stay.
pub(crate) fn make_room(
    tables: &mut PagedTables,
    alloc: Global,
    changes: &[Change],
) -> Result<(), AllocError>
    ensures tables { store_in tables.new ≡ store_in tables.old }
    ensures room { OnOk result (IsReserved (map change_of changes.now) tables.new) }
    ensures pages { PagesStay tables.old.tables tables.new.tables }
{
    match tables.reserve(alloc, changes) {
        Ok(()) => Ok(()),
        Err(AllocError) => {
            tables.release();
            Err(AllocError)
        }
    }
}

// The changes of an owner's unit, for which there is room, are made where they were recorded, and it
// ends with its claims. Where they were not, the room is given up.
fn finish(
    base: &mut Base,
    alloc: Global,
    owner: &Owner,
    recorded: Result<(), RecordError>,
) -> Result<(), RecordError>
    requires room { IsReserved (unit_of (plain_owner owner.now) base.old.units).changes base.old.tables }
    ensures same { result ≡ recorded }
    ensures done { OnOk recorded (base_of base.new ≡ bare (base_of base.old) (Commit (plain_owner owner.now))) }
    ensures kept { OnErr recorded (base_of base.new ≡ base_of base.old) }
    ensures pages { PagesStay base.old.tables.tables base.new.tables.tables }
{
    match recorded {
        Ok(()) => {
            let changes = base.units.end(owner).into_vec();
            base.tables.apply_reserved(alloc, changes);
            Ok(())
        }
        Err(error) => {
            base.tables.release();
            Err(error)
        }
    }
}

/// What is due of an XID's branch is recorded, and then done to its unit. On an error all units and
/// tables stay; there is none where no record is due.
pub(crate) fn do_due<R: Recorder>(
    base: &mut Base,
    recorder: &mut R,
    alloc: Global,
    xid: &Xid,
    action: Action,
) -> Result<(), RecordError>
    requires allowed { (r : UnitRecord) → action_due xid.now (unit_of (global xid.now) base.old.units) action ≡ Some r → R.allows recorder.old r }
    ensures done { OnOk result (base_of base.new ≡ bare_run (action_events xid.now action) (base_of base.old)) }
    ensures recorded { OnOk result (IsRecorded R.records (action_due xid.now (unit_of (global xid.now) base.old.units) action) recorder.old recorder.new) }
    ensures kept { OnErr result (base_of base.new ≡ base_of base.old) }
    ensures refused { IfErr result (λ error. Refuses R.fails (action_due xid.now (unit_of (global xid.now) base.old.units) action) error recorder.old recorder.new) }
    ensures cause { OnErr result (action_due xid.now (unit_of (global xid.now) base.old.units) action ≡ None → ⊥) }
    ensures pages { PagesStay base.old.tables.tables base.new.tables.tables }
{
    let owner = Owner::Global(*xid);
    match action {
        Action::Nothing | Action::Start | Action::Join | Action::End(_) => Ok(()),
        Action::Prepare => recorder.record(RecordContents::Prepare {
            xid,
            changes: base.units.changes(&owner),
            claims: base.units.claims(&owner),
        }),
        Action::EndUnchanged | Action::CommitOnePhase => {
            commit_unit(base, recorder, alloc, &owner)
        }
        Action::Decide(decision) => {
            let saying = RecordContents::Decide { xid, decision };
            end_decided(base, recorder, alloc, xid, decision, saying)
        }
        Action::RollBack => {
            let _changes = base.units.end(&owner);
            Ok(())
        }
        Action::Forget => recorder.record(RecordContents::Forget { xid }),
    }
}

/// The units of the branches that a conversation was the last to start or join, and that are not in
/// doubt, end without their changes. Takes no memory.
pub(crate) fn end_lost(units: &mut Units, branches: &[Branch], conversation: u64)
    ensures { units.new ≡ left_units (lost_xids branches.now conversation) units.old }
{
    for branch in branches {
        end_if_lost(units, branch, conversation);
    }
}

// The unit of the branch ends, if the conversation takes the branch with it.
fn end_if_lost(units: &mut Units, branch: &Branch, conversation: u64)
    ensures { units.new ≡ (if is_lost_with conversation branch.now.state then without (global branch.now.xid) units.old else units.old) }
{
    if branch.state.is_lost_with(conversation) {
        let _changes = units.end(&Owner::Global(branch.xid));
    }
}

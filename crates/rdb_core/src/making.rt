//! Calls that are made together.

ghost use Rattle.std.specs.Prelude.{◌≡◌, ◌++◌, IfErr, IfOk, OnErr, OnOk, false, if◌then◌else◌, map, true};
ghost use Rattle.tables.specs.ChangeView.{change_of};
ghost use Rattle.paged_tables.specs.PagedTables.{IsReserved, store_in};
ghost use Rattle.paged_tables.specs.TablesByName.{PagesStay};
ghost use Rattle.unit_records.specs.Phases.{action_of, verb_of};
ghost use Rattle.unit_records.specs.RecordContents.{said_by};
ghost use Rattle.unit_records.specs.Together.{AreDue, FailsTogether, IsDueFor, all_changes, all_made, branches_behind, branches_for, changes_for, is_commit, is_prepare, may_make, owner_for, owner_in, record_for, records_of, units_behind};
ghost use Rattle.core_model.specs.Units.{apply_all, unit_of, without};
ghost use Rattle.xa_manager.specs.Due.{after, done, due_of};
ghost use Rattle.unit_statements.specs.Base.{base_of};
ghost use Rattle.rdb_core.specs.State.{pages_of, recorder_of, state_of};

use crate::ending::make_room;
use crate::engine::Core;
use crate::together::{is_prepare, owner_of};
use std::alloc::{AllocError, Global};
use tables::Change;
use unit_records::{Asked, DeviceFailed, GroupCall, GroupError, Phase, RecordContents, Recorder};
use unit_statements::Base;
use unit_table::{Owner, Units};
use xa_calls::Xid;
use xa_manager::{Decision, Work, XaTable};

impl<R: Recorder> Core<R> {
    /// These calls are made, one after another in this order: their records are made together, all or none, and then each
    /// call takes its step. Where the records are refused, or memory is, the core is as before.
    pub fn make_together(&mut self, calls: &[GroupCall]) -> Result<(), GroupError>
        requires may { may_make (state_of self.old) calls.now ≡ true }
        requires allowed { R.allows_all (recorder_of self.old) (records_of (state_of self.old).base.units calls.now) }
        ensures done { OnOk result (state_of self.new ≡ all_made calls.now (state_of self.old)) }
        ensures recorded { OnOk result (R.records_all (recorder_of self.old) (records_of (state_of self.old).base.units calls.now) (recorder_of self.new)) }
        ensures kept { OnErr result (state_of self.new ≡ state_of self.old) }
        ensures refused { IfErr result (λ error. FailsTogether R.fails_all (records_of (state_of self.old).base.units calls.now) error (recorder_of self.old) (recorder_of self.new)) }
        ensures pages { PagesStay (pages_of self.old) (pages_of self.new) }
    {
        unit_records::laws::calls_go_together();
        let _branches = self.branches.branches();
        let changes = match copied_changes(&self.base.units, self.alloc, calls) {
            Ok(changes) => changes,
            Err(AllocError) => return Err(GroupError::Refused),
        };
        match make_room(&mut self.base.tables, self.alloc, changes.as_slice()) {
            Ok(()) => {}
            Err(AllocError) => return Err(GroupError::Refused),
        }
        let recorded = record_all(&self.base.units, &mut self.recorder, self.alloc, calls);
        finish_all(&mut self.base, self.alloc, calls, changes, recorded)?;
        settle_all(&mut self.branches, calls);
        Ok(())
    }
}

impl<R: Recorder> Core<R> {
    /// Lays the records of these calls ahead of being made together, as a hint: whether they lie there then. All is as it was.
    /// Where memory is refused they do not.
    pub fn lay_ahead(&mut self, calls: &[GroupCall]) -> Result<bool, DeviceFailed>
        requires may { may_make (state_of self.old) calls.now ≡ true }
        requires allowed { R.allows_all (recorder_of self.old) (records_of (state_of self.old).base.units calls.now) }
        ensures laid { OnOk result (R.lays_ahead (recorder_of self.old) (recorder_of self.new)) }
        ensures failed { OnErr result (R.fails_ahead (recorder_of self.old) (recorder_of self.new)) }
        ensures state { state_of self.new ≡ state_of self.old }
        ensures pages { pages_of self.new ≡ pages_of self.old }
    {
        match sayings_of(&self.base.units, self.alloc, calls) {
            Ok(sayings) => self.recorder.lay_ahead(sayings.as_slice()),
            Err(AllocError) => Ok(false),
        }
    }

    /// Has the records of these calls, which were laid ahead, count on the device before the calls are made, as a hint: whether they
    /// do then. All is as it was. Where memory is refused they do not.
    pub fn open_early(&mut self, calls: &[GroupCall]) -> Result<bool, DeviceFailed>
        requires may { may_make (state_of self.old) calls.now ≡ true }
        requires allowed { R.allows_all (recorder_of self.old) (records_of (state_of self.old).base.units calls.now) }
        requires early { R.allows_early (recorder_of self.old) (records_of (state_of self.old).base.units calls.now) }
        ensures laid { OnOk result (R.lays_ahead (recorder_of self.old) (recorder_of self.new)) }
        ensures failed { OnErr result (R.fails_ahead (recorder_of self.old) (recorder_of self.new)) }
        ensures state { state_of self.new ≡ state_of self.old }
        ensures pages { pages_of self.new ≡ pages_of self.old }
    {
        let Ok(sayings) = sayings_of(&self.base.units, self.alloc, calls) else {
            return Ok(false);
        };
        self.recorder.open_early(sayings.as_slice())
    }
}

// Copies of the changes that are made, one unit's behind another's: of the units that are committed.
fn copied_changes(
    units: &Units,
    alloc: Global,
    calls: &[GroupCall],
) -> Result<Vec<Change>, AllocError>
    ensures { IfOk result (λ changes. map change_of changes.items ≡ all_changes units.now calls.now) }
{
    let mut changes = Vec::new(alloc);
    for call in calls {
        copy_changes(units, call, &mut changes)?;
    }
    Ok(changes)
}

// Adds copies of the changes that a call makes.
fn copy_changes(units: &Units, call: &GroupCall, copies: &mut Vec<Change>) -> Result<(), AllocError>
    ensures { OnOk result (map change_of copies.new.items ≡ map change_of copies.old.items ++ changes_for call.now.asked (unit_of (owner_in call.now) units.now)) }
{
    if !is_commit(&call.asked) {
        return Ok(());
    }
    units.copy_changes(&owner_of(call.conversation, &call.asked), copies)
}

// Whether the changes of the unit are made.
fn is_commit(asked: &Asked) -> bool
    ensures { result ≡ is_commit asked.now }
{
    match asked {
        Asked::Commit => true,
        Asked::Through(Phase::Prepare, _) => false,
        Asked::Through(Phase::Decide(Decision::Commit), _) => true,
        Asked::Through(Phase::Decide(Decision::RollBack), _) => false,
    }
}

// The records of these calls are made together.
fn record_all<R: Recorder>(
    units: &Units,
    recorder: &mut R,
    alloc: Global,
    calls: &[GroupCall],
) -> Result<(), GroupError>
    requires allowed { R.allows_all recorder.old (records_of units.now calls.now) }
    ensures recorded { OnOk result (R.records_all recorder.old (records_of units.now calls.now) recorder.new) }
    ensures refused { IfErr result (λ error. FailsTogether R.fails_all (records_of units.now calls.now) error recorder.old recorder.new) }
{
    match sayings_of(units, alloc, calls) {
        Ok(sayings) => recorder.record_all(sayings.as_slice()),
        Err(AllocError) => Err(GroupError::Refused),
    }
}

// What the records of these calls say.
fn sayings_of<'a>(
    units: &'a Units,
    alloc: Global,
    calls: &'a [GroupCall],
) -> Result<Vec<RecordContents<'a>>, AllocError>
    ensures { IfOk result (λ sayings. map said_by sayings.items ≡ records_of units.now calls.now) }
{
    let mut sayings = Vec::new(alloc);
    for call in calls {
        sayings.push(saying_of(units, call.conversation, &call.asked))?;
    }
    Ok(sayings)
}

// What the record of a call says.
fn saying_of<'a>(units: &'a Units, conversation: u64, asked: &'a Asked) -> RecordContents<'a>
    ensures { said_by result ≡ record_for asked.now (unit_of (owner_for conversation asked.now) units.now) }
{
    match asked {
        Asked::Commit => RecordContents::Commit {
            changes: units.changes(&Owner::Local(conversation)),
        },
        Asked::Through(Phase::Prepare, xid) => RecordContents::Prepare {
            xid,
            changes: units.changes(&Owner::Global(*xid)),
            claims: units.claims(&Owner::Global(*xid)),
        },
        Asked::Through(Phase::Decide(decision), xid) => RecordContents::Decide {
            xid,
            decision: *decision,
        },
    }
}

// The changes, for which there is room, are made where they were recorded, and the units of the calls end, but for those
// of branches that are prepared. Where they were not, the room is given up.
fn finish_all(
    base: &mut Base,
    alloc: Global,
    calls: &[GroupCall],
    changes: Vec<Change>,
    recorded: Result<(), GroupError>,
) -> Result<(), GroupError>
    requires room { IsReserved (map change_of changes.items) base.old.tables }
    ensures same { result ≡ recorded }
    ensures made { OnOk recorded (store_in base.new.tables ≡ apply_all (map change_of changes.items) (store_in base.old.tables)) }
    ensures ended { OnOk recorded (base.new.units ≡ units_behind calls.now base.old.units) }
    ensures kept { OnErr recorded (base_of base.new ≡ base_of base.old) }
    ensures pages { PagesStay base.old.tables.tables base.new.tables.tables }
{
    match recorded {
        Ok(()) => {
            base.tables.apply_reserved(alloc, changes);
            end_all(&mut base.units, calls);
            Ok(())
        }
        Err(error) => {
            base.tables.release();
            Err(error)
        }
    }
}

// The units of these calls end with their claims, but for those of branches that are prepared.
fn end_all(units: &mut Units, calls: &[GroupCall])
    ensures { units.new ≡ units_behind calls.now units.old }
{
    for call in calls {
        end_unit(units, call);
    }
}

// So does that of one of them.
fn end_unit(units: &mut Units, call: &GroupCall)
    ensures { units.new ≡ (if is_prepare call.now.asked then units.old else without (owner_in call.now) units.old) }
{
    if !is_prepare(&call.asked) {
        let _changes = units.end(&owner_of(call.conversation, &call.asked));
    }
}

// What is due of each branch is done in the table of branches. It takes no memory.
fn settle_all(branches: &mut XaTable, calls: &[GroupCall])
    requires due { AreDue calls.now branches.old }
    ensures { branches.new ≡ branches_behind calls.now branches.old }
{
    let mut left = calls;
    while let [first, rest @ ..] = left {
        settle(branches, first.conversation, &first.asked);
        left = rest;
    }
}

// So is what is due of one call.
fn settle(branches: &mut XaTable, conversation: u64, asked: &Asked)
    requires due { IsDueFor branches.old conversation asked.now }
    ensures { branches.new ≡ branches_for branches.old conversation asked.now }
{
    match asked {
        Asked::Commit => {}
        Asked::Through(phase, xid) => settle_branch(branches, conversation, *phase, xid),
    }
}

// What is due of a branch is done in the table of branches.
fn settle_branch(branches: &mut XaTable, conversation: u64, phase: Phase, xid: &Xid)
    requires due { due_of branches.old conversation (verb_of phase) xid.now (record { is_local = false; has_changes = true }) ≡ done (action_of phase) }
    ensures { branches.new ≡ after branches.old conversation xid.now (action_of phase) }
{
    let work = Work {
        is_local: false,
        has_changes: true,
    };
    let due = branches.due(conversation, phase.verb(), xid, work);
    match branches.settle(conversation, xid, due) {
        Ok(()) => {}
        Err(AllocError) => unreachable!(),
    }
}

//! Records made good, one after another.

ghost use Rattle.std.specs.Prelude.{◌≡◌, IfErr, None, OnErr, OnOk, is_some, false, map};
ghost use Rattle.tables.specs.ChangeView.{change_of};
ghost use Rattle.row_values.specs.declared.row.ReadError.TheVariants.{NoMemory};
ghost use Rattle.xa_manager.specs.declared.due.Decision.{Decision as DecisionIs};
ghost use Rattle.unit_records.specs.Records.{committed, decided, forgotten, heuristic, prepared};
ghost use Rattle.unit_records.specs.Read.{record_of};
ghost use Rattle.recovery.specs.Durable.{at_checkpoint, completed as completed_so, decide_changes, doubt_of, next};
ghost use Rattle.recovery.specs.Replay.{doubt_in};

use crate::claimed::is_claimed;
use crate::gathered::{gather, make};
use crate::prepared::{PreparedUnit, add, is_known, place_of, replace_at, take_at};
use paged_tables::PagedTables;
use row_values::ReadError;
use std::alloc::Global;
use tables::Change;
use unit_changes::UnitChanges;
use unit_locks::Claim;
use unit_records::UnitRecord;
use xa_calls::Xid;
use xa_manager::{Decision, MAX_IN_DOUBT};

/// The committed tables and the units in doubt that the records so far stand for.
#[derive(Drop)]
pub struct Replay {
    store: PagedTables,
    units: Vec<PreparedUnit>,
}

#[tactic(auto, using(paged_tables::proofs::Pages::pages_stay_themselves))]
impl Replay {
    ghost use Rattle.recovery.specs.Replay.{Steps, durable_of, doubts_in, pages_of};
    ghost use Rattle.paged_tables.specs.PagedTables.{store_in};
    ghost use Rattle.paged_tables.specs.TablesByName.{PagesStay};

    /// The tables of a checkpoint, which no record follows yet, and no units. Takes no memory.
    pub fn over(alloc: Global, checkpoint: PagedTables) -> Replay
        ensures durable { durable_of result ≡ at_checkpoint (store_in checkpoint) }
        ensures pages { pages_of result ≡ checkpoint.tables }
    {
        Replay {
            store: checkpoint,
            units: Vec::new(alloc),
        }
    }

    /// Makes the next record good. `Damaged` exactly where it has no place among those before it: a
    /// change of a commit or of a prepare is of no table, or of another form than its table's, or
    /// creates a table that is there or the 1,001st; a prepare creates a table and does not claim all
    /// names; its XID is in doubt already, or 256 are; the XID of a decision does not wait for one; that of a
    /// heuristic decision was decided so already, or is the 257th in doubt; that of a forgetting was not decided so.
    /// A claim that a prepare repeats counts once. After an error the replay is not used again.
    pub fn step(&mut self, alloc: Global, said: UnitRecord) -> Result<(), ReadError>
        ensures step { Steps result (next (durable_of self.old) (record_of said)) (durable_of self.new) }
        ensures pages { PagesStay (pages_of self.old) (pages_of self.new) }
    {
        match said {
            UnitRecord::Commit { changes } => self.commit(alloc, changes),
            UnitRecord::Prepare {
                xid,
                changes,
                claims,
            } => self.prepare(alloc, xid, changes, claims),
            UnitRecord::Decide { xid, decision } => self.decide(alloc, &xid, decision),
            UnitRecord::Heuristic { xid, decision } => self.complete(alloc, &xid, decision),
            UnitRecord::Forget { xid } => self.forget(&xid),
        }
    }

    /// The committed tables, and the units in doubt in the order of their XIDs' bytes.
    pub fn into_parts(self) -> (PagedTables, Vec<PreparedUnit>)
        ensures store { store_in result.0 ≡ (durable_of self).store }
        ensures pages { result.0.tables ≡ pages_of self }
        ensures units { doubts_in result.1.items ≡ (durable_of self).doubts }
    {
        let Replay { store, units } = self;
        (store, units)
    }

    fn commit(&mut self, alloc: Global, changes: Vec<Change>) -> Result<(), ReadError>
        ensures step { Steps result (next (durable_of self.old) (committed (map change_of changes.items))) (durable_of self.new) }
        ensures pages { PagesStay (pages_of self.old) (pages_of self.new) }
    {
        let unit = match gather(&self.store, alloc, changes) {
            Ok(unit) => unit,
            Err(error) => return Err(error),
        };
        make(&mut self.store, alloc, unit)?;
        Ok(())
    }

    fn prepare(
        &mut self,
        alloc: Global,
        xid: Xid,
        changes: Vec<Change>,
        claims: Vec<Claim>,
    ) -> Result<(), ReadError>
        ensures step { Steps result (next (durable_of self.old) (prepared xid (map change_of changes.items) claims.items)) (durable_of self.new) }
        ensures pages { PagesStay (pages_of self.old) (pages_of self.new) }
    {
        let changes = match gather(&self.store, alloc, changes) {
            Ok(unit) => unit,
            Err(error) => return Err(error),
        };
        if !is_claimed(changes.as_slice(), claims.as_slice()) {
            return Err(ReadError::Damaged);
        }
        if is_known(self.units.as_slice(), &xid) || self.units.len() >= MAX_IN_DOUBT {
            return Err(ReadError::Damaged);
        }
        add(
            &mut self.units,
            PreparedUnit {
                xid,
                changes,
                claims,
                outcome: None,
            },
        )?;
        Ok(())
    }

    fn decide(&mut self, alloc: Global, xid: &Xid, decision: Decision) -> Result<(), ReadError>
        ensures step { Steps result (next (durable_of self.old) (decided xid.now decision)) (durable_of self.new) }
        ensures pages { PagesStay (pages_of self.old) (pages_of self.new) }
    {
        let place = match place_of(self.units.as_slice(), xid) {
            Some(place) => place,
            None => return Err(ReadError::Damaged),
        };
        let unit = take_at(&mut self.units, xid, place);
        if unit.outcome.is_some() {
            return Err(ReadError::Damaged);
        }
        self.end(alloc, unit.changes, decision)
    }

    // A unit that was in doubt ends so.
    fn end(
        &mut self,
        alloc: Global,
        changes: UnitChanges,
        decision: Decision,
    ) -> Result<(), ReadError>
        ensures store { OnOk result (store_in self.new.store ≡ decide_changes decision changes (store_in self.old.store)) }
        ensures pages { PagesStay (pages_of self.old) (pages_of self.new) }
        ensures units { self.new.units ≡ self.old.units }
        ensures memory { IfErr result (λ error. error ≡ NoMemory) }
    {
        match decision {
            Decision::Commit => {
                make(&mut self.store, alloc, changes)?;
                Ok(())
            }
            Decision::RollBack => Ok(()),
        }
    }

    fn complete(&mut self, alloc: Global, xid: &Xid, decision: Decision) -> Result<(), ReadError>
        ensures step { Steps result (next (durable_of self.old) (heuristic xid.now decision)) (durable_of self.new) }
        ensures pages { PagesStay (pages_of self.old) (pages_of self.new) }
    {
        let completed = PreparedUnit::completed(alloc, xid, decision);
        let place = match place_of(self.units.as_slice(), xid) {
            Some(place) => place,
            None => return self.find_completed(xid, completed),
        };
        let unit = replace_at(&mut self.units, xid, place, completed);
        if unit.outcome.is_some() {
            return Err(ReadError::Damaged);
        }
        self.end(alloc, unit.changes, decision)
    }

    // A branch that is not in doubt is found to have been decided heuristically.
    fn find_completed(&mut self, xid: &Xid, completed: PreparedUnit) -> Result<(), ReadError>
        requires same { completed.xid ≡ xid.now }
        requires free { doubt_of (durable_of self.old).doubts xid.now ≡ None }
        ensures step { (decision : DecisionIs) → doubt_in completed ≡ (xid.now, completed_so decision) → Steps result (next (durable_of self.old) (heuristic xid.now decision)) (durable_of self.new) }
        ensures pages { PagesStay (pages_of self.old) (pages_of self.new) }
    {
        if self.units.len() >= MAX_IN_DOUBT {
            return Err(ReadError::Damaged);
        }
        add(&mut self.units, completed)?;
        Ok(())
    }

    fn forget(&mut self, xid: &Xid) -> Result<(), ReadError>
        ensures step { Steps result (next (durable_of self.old) (forgotten xid.now)) (durable_of self.new) }
        ensures pages { PagesStay (pages_of self.old) (pages_of self.new) }
    {
        let place = match place_of(self.units.as_slice(), xid) {
            Some(place) => place,
            None => return Err(ReadError::Damaged),
        };
        let unit = take_at(&mut self.units, xid, place);
        match unit.outcome {
            Some(_) => Ok(()),
            None => Err(ReadError::Damaged),
        }
    }
}

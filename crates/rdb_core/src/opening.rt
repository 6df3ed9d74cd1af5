//! What the core is where a store is opened, and what of it is in doubt.

ghost use Rattle.std.specs.Prelude.{◌≡◌, OnErr, OnOk, [], false, map};
ghost use Rattle.tables.specs.ChangeView.{change_of};
ghost use Rattle.paged_tables.specs.PagedTables.{store_in};
ghost use Rattle.paged_tables.specs.TablesByName.{PagesStay};
ghost use Rattle.xa_manager.specs.Branch.{in_doubt_xids};
ghost use Rattle.core_model.specs.Units.{global, has_work, unit_of};
ghost use Rattle.rdb_core.specs.InDoubt.{branches_left, in_doubt_branches, xids_left};
ghost use Rattle.rdb_core.specs.Restored.{RestoresUnit, with_in_doubt};
ghost use Rattle.rdb_core.specs.State.{pages_of, recorder_of, state_of};

use crate::engine::Core;
use crate::in_doubt::InDoubt;
use paged_tables::PagedTables;
use std::alloc::{AllocError, Global};
use tables::Change;
use unit_changes::UnitChanges;
use unit_locks::Claim;
use unit_records::Recorder;
use unit_statements::Base;
use unit_table::Owner;
use xa_calls::Xid;
use xa_manager::{Decision, RestoreError, XaTable};

impl<R: Recorder> Core<R> {
    /// A core with these committed tables, without units and branches. Takes no memory.
    pub fn restored(alloc: Global, recorder: R, tables: PagedTables) -> Core<R>
        ensures state { state_of result ≡ record { base = record { store = store_in tables; units = [] }; branches = [] } }
        ensures recorder { recorder_of result ≡ recorder }
        ensures pages { pages_of result ≡ tables.tables }
    {
        Core {
            alloc,
            base: Base::new(alloc, tables),
            branches: XaTable::new(alloc),
            row_bytes: usize::MAX,
            recorder,
        }
    }

    /// A branch that was found in doubt stands again as it was found: prepared where it has no outcome, else
    /// decided heuristically so. Its unit has these changes, and of these claims each once: none of either
    /// where the branch was decided. On an error nothing changes. `Known` and `Full` come only where it is
    /// so, and memory may be refused.
    pub fn restore(
        &mut self,
        xid: Xid,
        outcome: Option<Decision>,
        changes: UnitChanges,
        claims: Vec<Claim>,
    ) -> Result<(), RestoreError>
        requires idle { has_work (unit_of (global xid) (state_of self.old).base.units) ≡ false }
        ensures ok { OnOk result (state_of self.new ≡ with_in_doubt (state_of self.old) xid outcome changes claims.items) }
        ensures err { OnErr result (state_of self.new ≡ state_of self.old) }
        ensures exact { RestoresUnit result (state_of self.old).branches xid }
        ensures recorder { recorder_of self.new ≡ recorder_of self.old }
        ensures pages { PagesStay (pages_of self.old) (pages_of self.new) }
    {
        self.base.units.are_listed();
        match self.base.units.restore(xid, changes, claims) {
            Ok(()) => {}
            Err(AllocError) => return Err(RestoreError::NoMemory),
        }
        match self.branches.restore(&xid, outcome) {
            Ok(()) => Ok(()),
            Err(error) => {
                let _changes = self.base.units.end(&Owner::Global(xid));
                Err(error)
            }
        }
    }

    /// The XIDs that are in doubt, each with its state: prepared or decided heuristically. By rising bytes. Takes no memory.
    pub fn in_doubt(&self) -> InDoubt<'_>
        ensures xids { xids_left result ≡ in_doubt_xids (state_of self.now).branches }
        ensures branches { branches_left result ≡ in_doubt_branches (state_of self.now).branches }
    {
        InDoubt {
            left: self.branches.branches(),
        }
    }

    /// What the unit of a branch has changed, in the order in which it did: none where it has no work.
    /// Takes no memory.
    pub fn changes_in_doubt(&self, xid: &Xid) -> &[Change]
        ensures { map change_of result.now ≡ (unit_of (global xid.now) (state_of self.now).base.units).changes }
    {
        self.base.units.changes(&Owner::Global(*xid))
    }

    /// What the unit of a branch claims, in the order in which it first did: none where it has no work.
    /// Takes no memory.
    pub fn claims_in_doubt(&self, xid: &Xid) -> &[Claim]
        ensures { result.now ≡ (unit_of (global xid.now) (state_of self.now).base.units).claims }
    {
        self.base.units.claims(&Owner::Global(*xid))
    }
}

//! Branches in doubt that are decided without their transaction manager.

ghost use Rattle.std.specs.Prelude.{◌≡◌, IfErr, OnErr, OnOk, Some};
ghost use Rattle.unit_records.specs.Records.{heuristic};
ghost use Rattle.xa_manager.specs.Branch as branch;
ghost use Rattle.core_model.specs.Step.{decided_state};
ghost use Rattle.paged_tables.specs.TablesByName.{PagesStay};
ghost use Rattle.rdb_core.specs.Recorded.{Refuses};
ghost use Rattle.rdb_core.specs.State.{pages_of, recorder_of, state_of};

use crate::ending::end_decided;
use crate::engine::Core;
use unit_records::{RecordContents, RecordError, Recorder};
use xa_calls::Xid;
use xa_manager::{BranchState, Decision};

impl<R: Recorder> Core<R> {
    /// Where the branch of an XID stands, if it is known. Takes no memory.
    pub fn branch_state(&self, xid: &Xid) -> Option<BranchState>
        ensures { result ≡ branch.state_of (state_of self.now).branches xid.now }
    {
        self.branches.state(xid)
    }

    /// A prepared branch is decided heuristically (C193, heuristic completion): not by its transaction manager but
    /// by who runs the server, on a core without conversations. That is recorded; then the changes of its unit
    /// are made, or dropped, and the unit ends with its claims. The branch stays known and in doubt: its
    /// transaction manager, which comes to commit it or to roll it back, is told the outcome, until it
    /// forgets the branch.
    ///
    /// Memory may be refused where it commits; where it rolls back none is taken but for the record. On an error
    /// the core is as before.
    pub fn decide(&mut self, xid: &Xid, decision: Decision) -> Result<(), RecordError>
        requires waits { branch.state_of (state_of self.old).branches xid.now ≡ Some BranchState.Prepared }
        requires allowed { R.allows (recorder_of self.old) (heuristic xid.now decision) }
        ensures done { OnOk result (state_of self.new ≡ decided_state (state_of self.old) xid.now decision) }
        ensures recorded { OnOk result (R.records (recorder_of self.old) (heuristic xid.now decision) (recorder_of self.new)) }
        ensures kept { OnErr result (state_of self.new ≡ state_of self.old) }
        ensures refused { IfErr result (λ error. Refuses R.fails (Some (heuristic xid.now decision)) error (recorder_of self.old) (recorder_of self.new)) }
        ensures pages { PagesStay (pages_of self.old) (pages_of self.new) }
    {
        end_decided(
            &mut self.base,
            &mut self.recorder,
            self.alloc,
            xid,
            decision,
            RecordContents::Heuristic { xid, decision },
        )?;
        self.branches.decide(xid, decision);
        Ok(())
    }
}

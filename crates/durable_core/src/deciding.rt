//! Heuristic decisions: of branches in doubt, without their transaction manager.

ghost use Rattle.std.specs.Prelude.{◌≡◌, Some, false, true};
ghost use Rattle.half_store.specs.declared.header.Layout.TheVariants.{One, Two};
ghost use Rattle.xa_manager.specs.declared.branch.BranchState.TheVariants.{Prepared};
ghost use Rattle.xa_manager.specs.Branch.{state_of};
ghost use Rattle.recovery.specs.Journaled.{Journaled, shown_on};
ghost use Rattle.durable_core.specs.Deciding.{Decides};

use crate::durable::DurableCore;
use drda_disk::Disk;
use half_store::Layout;
use unit_records::RecordError;
use xa_calls::Xid;
use xa_manager::{BranchState, Decision};

/// What became of a heuristic decision.
#[derive(Clone, Copy, Debug, PartialEq, Eq)]
pub enum Decided {
    /// The branch is decided, on the disk to stay.
    Done,
    /// No branch of the XID waits for its decision.
    NotInDoubt,
    /// The store is of layout 1, where a prepare holds no bytes for it: a checkpoint has to be written first.
    OldLayout,
    /// Memory was refused.
    NoMemory,
    DeviceFailed,
    /// The device had failed before.
    Closed,
}

impl<D: Disk> DurableCore<D> {
    /// Decides a branch in doubt without its transaction manager (C193 section 3.5, "heuristic" completion): its changes are
    /// made, or not, and its claims end. The transaction manager is told so from then on, until it forgets the branch.
    ///
    /// Of the refusals the first that holds is told: `Closed`, `OldLayout`, `NotInDoubt`, `NoMemory`. At each of them all is as
    /// before, and no device call was made. `DeviceFailed` comes in the call in which the device fails. There is always room
    /// for it. On the disk there is at any moment what is durable before the call or behind it.
    pub fn decide(&mut self, xid: &Xid, decision: Decision) -> Decided
        ensures told { Decides xid.now decision result (shown_on D.life self.old) (shown_on D.life self.new) }
        ensures journaled { Journaled D.is_modelled (shown_on D.life self.old) (shown_on D.life self.new) }
    {
        recovery::laws::heuristics_are_recorded();
        recovery::laws::doubts_hold_their_decisions();
        unit_records::laws::decisions_have_room();
        recovery::laws::records_stay();
        recovery::laws::calls_make_records::<D>();
        journal_recorder::laws::pages_are_kept::<D>();
        if self.core.recorder().is_failed() {
            return Decided::Closed;
        }
        match self.core.recorder().layout() {
            Layout::One => return Decided::OldLayout,
            Layout::Two => {}
        }
        if !is_prepared(self.core.branch_state(xid)) {
            return Decided::NotInDoubt;
        }
        match self.core.decide(xid, decision) {
            Ok(()) => Decided::Done,
            Err(RecordError::NoMemory) => Decided::NoMemory,
            Err(RecordError::Full { .. }) => unreachable!(),
            Err(RecordError::DeviceFailed) => Decided::DeviceFailed,
        }
    }

    /// Where the branch of an XID stands, if it is known. Takes no memory.
    pub fn branch_state(&self, xid: &Xid) -> Option<BranchState>
        ensures { result ≡ state_of self.now.state.branches xid.now }
    {
        self.core.branch_state(xid)
    }

    /// Whether the store is of layout 1, in which nothing is decided heuristically.
    pub fn is_of_old_layout(&self) -> bool
        ensures old { result ≡ true → self.now.layout ≡ One }
        ensures new { result ≡ false → self.now.layout ≡ Two }
    {
        match self.core.recorder().layout() {
            Layout::One => true,
            Layout::Two => false,
        }
    }
}

// Whether a branch waits for its decision.
fn is_prepared(state: Option<BranchState>) -> bool
    ensures yes { result ≡ true → state ≡ Some Prepared }
    ensures no { result ≡ false → state ≡ Some Prepared → ⊥ }
{
    match state {
        Some(BranchState::Prepared) => true,
        Some(BranchState::Active(_)) => false,
        Some(BranchState::Idle(_)) => false,
        Some(BranchState::RollbackOnly(_)) => false,
        Some(BranchState::Heuristic(_)) => false,
        None => false,
    }
}

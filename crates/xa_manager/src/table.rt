//! The table of branches.

ghost use Rattle.std.specs.Prelude.{◌≡◌, ◌<◌, ◌≤◌, [], List, length, None, Some, true, IfOk, OnOk, OnErr, option_copied};
ghost use Rattle.xa_manager.specs.Branch.{IsTable, found_state, is_in_doubt, state_of, joined_xid, in_doubt_count, in_doubt_xids, with_branch, with_state, without, without_those_of};
ghost use Rattle.xa_manager.specs.Due.{IsDue, due_of, after};
ghost use Rattle.xa_manager.specs.Place.{Restores};

use crate::branch::{Branch, BranchState};
use crate::counts::Counts;
use crate::due::{Action, Decision, Due, Facts, MAX_BRANCHES, Work};
use crate::search::place;
use crate::xids::xids_in_doubt;
use std::alloc::{AllocError, Global};
use std::marker::Model;
use thiserror::Error;
use xa_calls::{Ending, MAX_IN_DOUBT, Verb, Xid, Xids};

/// Why a branch in doubt could not be restored.
#[derive(Clone, Copy, Debug, PartialEq, Eq, Error)]
pub enum RestoreError {
    /// A branch of this XID is known.
    #[error("the XID is known already")]
    Known,
    /// As many branches are known, or in doubt, as may be.
    #[error("too many branches")]
    Full,
    /// Memory was refused.
    #[error("no memory")]
    NoMemory,
}

impl From<AllocError> for RestoreError {
    ghost use Rattle.xa_manager.specs.declared.table.RestoreError.TheVariants.{NoMemory};

    ghost from_gives = { λ _ e. e ≡ NoMemory };

    fn from(_: AllocError) -> Self {
        RestoreError::NoMemory
    }
}

/// The transaction branches that a resource manager knows, each with its state (C193 chapter 6).
/// Contracts see it as the list of its branches, which rises by the bytes of their XIDs.
///
/// A call of a transaction manager takes two steps: `due` tells its code and what it makes due, and
/// changes nothing; once the caller has recorded that, `settle` brings the table up to date. That
/// takes memory, and so can fail, only where a branch begins, for which nothing is recorded.
#[derive(Debug, Drop)]
pub struct XaTable {
    branches: Vec<Branch>,
    counts: Counts,
}

impl Model for XaTable {
    ghost use Rattle.std.specs.Prelude.{List};
    ghost use Rattle.xa_manager.specs.declared.branch.Branch.{Branch};
    ghost use Rattle.xa_manager.specs.Counts.{IsKept};

    ghost Value = { List Branch };

    ghost view = { λ t. t.branches.items };

    ghost invariant = { λ t. IsKept t.branches.items t.counts.in_doubt t.counts.active };
}

impl XaTable {
    /// A table that knows no branch.
    pub fn new(alloc: Global) -> XaTable
        ensures { result ≡ [] }
    {
        XaTable {
            branches: Vec::new(alloc),
            counts: Counts::NONE,
        }
    }

    /// The branches that are known, by rising bytes of their XIDs.
    pub fn branches(&self) -> &[Branch]
        ensures all { result.now ≡ self.now }
        ensures table { IsTable self.now }
    {
        &self.branches
    }

    /// Where the branch of an XID stands, if it is known.
    pub fn state(&self, xid: &Xid) -> Option<BranchState>
        ensures { result ≡ state_of self.now xid.now }
    {
        match place(&self.branches, xid) {
            Ok(at) => Some(self.branches[at].state),
            Err(_) => None,
        }
    }

    /// The XID that a conversation is joined to, if it is joined to one: its statements work there.
    pub fn joined(&self, conversation: u64) -> Option<&Xid>
        ensures { option_copied result ≡ joined_xid self.now conversation }
    {
        if self.counts.active == 0 {
            return None;
        }
        self.branches
            .iter()
            .find(|branch| branch.state.is_joined_by(conversation))
            .map(|branch| &branch.xid)
    }

    /// What a conversation is answered that asks this of an XID, and what it makes due; nothing
    /// changes. `work` is what the caller knows of its units.
    pub fn due(&self, conversation: u64, verb: Verb, xid: &Xid, work: Work) -> Due
        ensures answer { result ≡ due_of self.now conversation verb xid.now work }
        ensures due { IsDue self.now conversation xid.now result }
    {
        let facts = Facts {
            conversation,
            is_joined: self.joined(conversation).is_some(),
            work,
            known: self.branches.len(),
            in_doubt: self.counts.in_doubt,
        };
        Due::at(verb, self.state(xid), &facts)
    }

    /// Does what is due: the table is then the one that C193's table of states gives. What is due is
    /// what `due` told of this conversation and XID, and nothing was settled since.
    ///
    /// Memory is taken, and so may be refused, only where a branch begins; nothing changes then.
    pub fn settle(&mut self, conversation: u64, xid: &Xid, due: Due) -> Result<(), AllocError>
        requires { IsDue self.old conversation xid.now due }
        ensures ok { OnOk result (self.new ≡ after self.old conversation xid.now due.action) }
        ensures err { OnErr result (self.new ≡ self.old) }
        ensures only_start { OnErr result (due.action ≡ Action.Start) }
    {
        match due.action {
            Action::Nothing => {}
            Action::Start => {
                return self.add(Branch {
                    xid: *xid,
                    state: BranchState::Active(conversation),
                });
            }
            Action::Join => self.set(xid, BranchState::Active(conversation)),
            Action::End(Ending::Kept) => self.set(xid, BranchState::Idle(conversation)),
            Action::End(Ending::Failed) => self.set(xid, BranchState::RollbackOnly(conversation)),
            Action::Prepare => self.set(xid, BranchState::Prepared),
            Action::EndUnchanged
            | Action::CommitOnePhase
            | Action::Decide(_)
            | Action::RollBack
            | Action::Forget => self.remove(xid),
        }
        Ok(())
    }

    /// The XIDs that are in doubt, by rising bytes: the answer to `xa_recover`.
    pub fn recover(&self, alloc: Global) -> Result<Xids, AllocError>
        ensures { IfOk result (λ xids. xids ≡ in_doubt_xids self.now) }
    {
        xids_in_doubt(alloc, &self.branches)
    }

    /// The conversation is lost: every branch that it was the last to start or join, and that is not
    /// in doubt, has been rolled back (`BranchState::is_lost_with` tells which).
    pub fn lost(&mut self, conversation: u64)
        ensures { self.new ≡ without_those_of self.old conversation }
    {
        keep_others(&mut self.branches, conversation);
        self.counts = Counts::of(&self.branches);
    }

    /// Decides a prepared branch heuristically: without its transaction manager, which is told so from now on,
    /// until it forgets the branch. Takes no memory.
    pub fn decide(&mut self, xid: &Xid, decision: Decision)
        requires { state_of self.old xid.now ≡ Some BranchState.Prepared }
        ensures { self.new ≡ with_state self.old xid.now (BranchState.Heuristic decision) }
    {
        match place(&self.branches, xid) {
            Ok(at) => {
                self.branches[at] = Branch {
                    xid: *xid,
                    state: BranchState::Heuristic(decision),
                };
            }
            Err(_) => unreachable!(),
        }
    }

    /// Adds a branch that was found in doubt where the caller's journal was read: it is prepared, or was decided
    /// heuristically so. On an error nothing changes. Each error comes exactly where it is so, `Known` first;
    /// memory may be refused where the branch could be added.
    pub fn restore(&mut self, xid: &Xid, decided: Option<Decision>) -> Result<(), RestoreError>
        ensures ok { OnOk result (self.new ≡ with_branch self.old (record { xid = xid.now; state = found_state decided })) }
        ensures err { OnErr result (self.new ≡ self.old) }
        ensures exact { Restores result self.old xid.now }
    {
        if self.state(xid).is_some() {
            return Err(RestoreError::Known);
        }
        if self.branches.len() >= MAX_BRANCHES || self.counts.in_doubt >= MAX_IN_DOUBT {
            return Err(RestoreError::Full);
        }
        let state = match decided {
            None => BranchState::Prepared,
            Some(decision) => BranchState::Heuristic(decision),
        };
        self.add(Branch { xid: *xid, state })?;
        Ok(())
    }

    // Adds a branch in its place.
    fn add(&mut self, branch: Branch) -> Result<(), AllocError>
        requires unknown { state_of self.old branch.xid ≡ None }
        requires known { length self.old < MAX_BRANCHES }
        requires in_doubt { is_in_doubt branch.state ≡ true → in_doubt_count self.old < MAX_IN_DOUBT }
        ensures ok { OnOk result (self.new ≡ with_branch self.old branch) }
        ensures err { OnErr result (self.new ≡ self.old) }
    {
        match place(&self.branches, &branch.xid) {
            Ok(_) => unreachable!(),
            Err(at) => {
                let counts = self.counts.with(branch.state);
                self.branches.insert(at, branch)?;
                self.counts = counts;
                Ok(())
            }
        }
    }

    // The branch of an XID that is known has this state from now on.
    fn set(&mut self, xid: &Xid, state: BranchState)
        requires { is_in_doubt state ≡ true → in_doubt_count self.old < MAX_IN_DOUBT }
        ensures { self.new ≡ with_state self.old xid.now state }
    {
        if let Ok(at) = place(&self.branches, xid) {
            let old = self.branches[at].state;
            self.counts = self.counts.without(old).with(state);
            self.branches[at] = Branch { xid: *xid, state };
        }
    }

    // The branch of an XID is no longer known.
    fn remove(&mut self, xid: &Xid)
        ensures { self.new ≡ without self.old xid.now }
    {
        if let Ok(at) = place(&self.branches, xid) {
            let old = self.branches[at].state;
            self.counts = self.counts.without(old);
            self.branches.remove(at);
        }
    }
}

// Drops the branches that live as long as the conversation.
fn keep_others(branches: &mut Vec<Branch>, conversation: u64)
    ensures { branches.new.items ≡ without_those_of branches.old.items conversation }
{
    branches.retain(|branch| !branch.state.is_lost_with(conversation));
}

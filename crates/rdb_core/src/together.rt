//! Whether calls may be made together.

ghost use Rattle.std.specs.Prelude.{◌≡◌, ◌&&◌};
ghost use Rattle.std.specs.List.{list_any};
ghost use Rattle.core_model.specs.Units.{has_any, same_owner, unit_of};
ghost use Rattle.xa_manager.specs.Branch.{in_doubt_count, state_of as branch_state};
ghost use Rattle.core_model.specs.Units.{global};
ghost use Rattle.unit_records.specs.Together.{are_apart, are_few, are_ready, is_prepare, is_ready, may_make, owner_for, owner_in, prepares_in, stands_alone, stands_for, works_for};
ghost use Rattle.unit_table.specs.Owner.{plain_owner};
ghost use Rattle.rdb_core.specs.State.{state_of};

use crate::engine::Core;
use unit_records::{Asked, GroupCall, Phase, Recorder};
use unit_table::Owner;
use xa_calls::{MAX_IN_DOUBT, Xid};
use xa_manager::{BranchState, XaTable};

impl<R: Recorder> Core<R> {
    /// Whether these calls may be made together: there is one, no two are about one unit, each would be done alone, with
    /// a record, and with those branches that are prepared 256 at most are in doubt. Takes no memory.
    pub fn may_make(&self, calls: &[GroupCall]) -> bool
        ensures { result ≡ may_make (state_of self.now) calls.now }
    {
        !calls.is_empty()
            && are_apart(calls)
            && self.are_ready(calls)
            && are_few(&self.branches, calls)
    }

    // Whether each of these calls would be done alone, with a record.
    fn are_ready(&self, calls: &[GroupCall]) -> bool
        ensures { result ≡ are_ready (state_of self.now) calls.now }
    {
        let mut left = calls;
        while let [first, rest @ ..] = left {
            if !self.is_ready(first) {
                return false;
            }
            left = rest;
        }
        true
    }

    /// Whether this call would be done alone, with a record, where fewer than 256 branches are in doubt. Takes no memory.
    pub fn is_ready(&self, call: &GroupCall) -> bool
        ensures { result ≡ is_ready (state_of self.now) call.now }
    {
        self.stands_alone(call.conversation, &call.asked)
    }

    // Whether this would be done where the conversation asks it.
    fn stands_alone(&self, conversation: u64, asked: &Asked) -> bool
        ensures { result ≡ stands_alone (state_of self.now) conversation asked.now }
    {
        match asked {
            Asked::Commit => {
                self.branches.joined(conversation).is_none()
                    && self.base.units.has_changes(&Owner::Local(conversation))
            }
            Asked::Through(phase, xid) => self.stands_for(*phase, xid),
        }
    }

    // Whether a branch stands so that it goes through the phase, with a record.
    fn stands_for(&self, phase: Phase, xid: &Xid) -> bool
        ensures { result ≡ (stands_for phase (branch_state (state_of self.now).branches xid.now) && works_for phase (unit_of (global xid.now) (state_of self.now).base.units).changes) }
    {
        match (phase, self.branches.state(xid)) {
            (Phase::Prepare, Some(BranchState::Idle(_))) => {
                self.base.units.has_changes(&Owner::Global(*xid))
            }
            (Phase::Decide(_), Some(BranchState::Prepared)) => true,
            _ => false,
        }
    }
}

/// Whose unit a call is about.
pub(crate) fn owner_of(conversation: u64, asked: &Asked) -> Owner
    ensures { plain_owner result ≡ owner_for conversation asked.now }
{
    match asked {
        Asked::Commit => Owner::Local(conversation),
        Asked::Through(_, xid) => Owner::Global(*xid),
    }
}

/// Whether a branch is prepared.
pub(crate) fn is_prepare(asked: &Asked) -> bool
    ensures { result ≡ is_prepare asked.now }
{
    match asked {
        Asked::Through(Phase::Prepare, _) => true,
        Asked::Through(Phase::Decide(_), _) => false,
        Asked::Commit => false,
    }
}

// Whether no two calls are about one unit.
fn are_apart(calls: &[GroupCall]) -> bool
    ensures { result ≡ are_apart calls.now }
{
    let mut left = calls;
    while let [first, rest @ ..] = left {
        if is_among(rest, first) {
            return false;
        }
        left = rest;
    }
    true
}

// Whether one of these is about the unit that a call is about.
fn is_among(calls: &[GroupCall], call: &GroupCall) -> bool
    ensures { result ≡ list_any (λ d. same_owner (owner_in d) (owner_in call.now)) calls.now }
{
    calls.iter().any(|other| are_of_one_unit(other, call))
}

// Whether both are about one unit.
fn are_of_one_unit(one: &GroupCall, other: &GroupCall) -> bool
    ensures { result ≡ same_owner (owner_in one.now) (owner_in other.now) }
{
    owner_of(one.conversation, &one.asked).is(&owner_of(other.conversation, &other.asked))
}

// Whether with those branches that are prepared 256 at most are in doubt.
fn are_few(branches: &XaTable, calls: &[GroupCall]) -> bool
    ensures { result ≡ are_few branches.now calls.now }
{
    in_doubt_count(branches).saturating_add(prepares_in(calls)) <= MAX_IN_DOUBT
}

// How many branches are in doubt.
fn in_doubt_count(branches: &XaTable) -> usize
    ensures { result ≡ in_doubt_count branches.now }
{
    branches
        .branches()
        .iter()
        .filter(|branch| branch.state.is_in_doubt())
        .count()
}

// How many branches are prepared.
fn prepares_in(calls: &[GroupCall]) -> usize
    ensures { result ≡ prepares_in calls.now }
{
    calls.iter().filter(|call| is_prepare(&call.asked)).count()
}

//! How many branches stand so.

ghost use Rattle.std.specs.Prelude.{◌≡◌, ◌+◌, ◌-◌, ◌^◌, ◌<◌, ◌≤◌};
ghost use Rattle.xa_manager.specs.Branch.{count_of, is_active, is_in_doubt};
ghost use Rattle.xa_manager.specs.Counts.{weight};

use crate::branch::{Branch, BranchState};

/// How many branches of a table are in doubt, and how many have a conversation joined.
#[derive(Clone, Copy, Debug, PartialEq, Eq)]
pub(crate) struct Counts {
    pub(crate) in_doubt: usize,
    pub(crate) active: usize,
}

impl Counts {
    /// Of no branch.
    pub(crate) const NONE: Counts = Counts {
        in_doubt: 0,
        active: 0,
    };

    /// With one branch more.
    pub(crate) fn with(self, state: BranchState) -> Counts
        requires in_doubt { self.in_doubt < 2 ^ 32 }
        requires active { self.active < 2 ^ 32 }
        ensures in_doubt { result.in_doubt ≡ self.in_doubt + weight is_in_doubt state }
        ensures active { result.active ≡ self.active + weight is_active state }
    {
        Counts {
            in_doubt: self.in_doubt + usize::from(state.is_in_doubt()),
            active: self.active + usize::from(state.is_active()),
        }
    }

    /// With one branch less, which was counted.
    pub(crate) fn without(self, state: BranchState) -> Counts
        requires in_doubt { weight is_in_doubt state ≤ self.in_doubt }
        requires active { weight is_active state ≤ self.active }
        ensures in_doubt { result.in_doubt + weight is_in_doubt state ≡ self.in_doubt }
        ensures active { result.active + weight is_active state ≡ self.active }
    {
        Counts {
            in_doubt: self.in_doubt - usize::from(state.is_in_doubt()),
            active: self.active - usize::from(state.is_active()),
        }
    }

    /// Of all these branches, counted in a pass.
    pub(crate) fn of(branches: &[Branch]) -> Counts
        ensures in_doubt { result.in_doubt ≡ count_of is_in_doubt branches.now }
        ensures active { result.active ≡ count_of is_active branches.now }
    {
        Counts {
            in_doubt: branches
                .iter()
                .filter(|branch| branch.state.is_in_doubt())
                .count(),
            active: branches
                .iter()
                .filter(|branch| branch.state.is_active())
                .count(),
        }
    }
}

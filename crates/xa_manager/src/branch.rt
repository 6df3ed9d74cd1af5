//! A transaction branch that the table knows.

ghost use Rattle.std.specs.Prelude.{◌≡◌};
ghost use Rattle.xa_manager.specs.Branch.{is_joined_by, is_active, is_lost_with, is_in_doubt};

use crate::due::Decision;
use xa_calls::Xid;

/// Where a branch stands (C193 chapter 6, the table of states of transaction branches). A
/// conversation is named by a number of the caller's.
#[derive(Clone, Copy, Debug, PartialEq, Eq)]
pub enum BranchState {
    /// This conversation is joined to it.
    Active(u64),
    /// No conversation is joined to it; this one was the last.
    Idle(u64),
    /// The same, and it can only be rolled back.
    RollbackOnly(u64),
    /// Prepared: in doubt until it is decided. It belongs to no conversation.
    Prepared,
    /// Decided heuristically, by who runs the server and not by its transaction manager, which is told so until
    /// it forgets the branch. It belongs to no conversation, and its unit has ended.
    Heuristic(Decision),
}

impl BranchState {
    /// Whether the conversation is joined to the branch.
    pub(crate) fn is_joined_by(self, conversation: u64) -> bool
        ensures { result ≡ is_joined_by conversation self }
    {
        match self {
            BranchState::Active(joined) => joined == conversation,
            BranchState::Idle(_)
            | BranchState::RollbackOnly(_)
            | BranchState::Prepared
            | BranchState::Heuristic(_) => false,
        }
    }

    /// Whether some conversation is joined to the branch.
    pub(crate) fn is_active(self) -> bool
        ensures { result ≡ is_active self }
    {
        match self {
            BranchState::Active(_) => true,
            BranchState::Idle(_)
            | BranchState::RollbackOnly(_)
            | BranchState::Prepared
            | BranchState::Heuristic(_) => false,
        }
    }

    /// Whether the branch lives as long as the conversation: it was the last to start or join it,
    /// and the branch is neither prepared nor decided heuristically.
    pub fn is_lost_with(self, conversation: u64) -> bool
        ensures { result ≡ is_lost_with conversation self }
    {
        match self {
            BranchState::Active(last) => last == conversation,
            BranchState::Idle(last) => last == conversation,
            BranchState::RollbackOnly(last) => last == conversation,
            BranchState::Prepared | BranchState::Heuristic(_) => false,
        }
    }

    /// Whether the branch is in doubt: it waits for its transaction manager, which decides or forgets it, and
    /// survives its conversation.
    pub fn is_in_doubt(self) -> bool
        ensures { result ≡ is_in_doubt self }
    {
        match self {
            BranchState::Prepared | BranchState::Heuristic(_) => true,
            BranchState::Active(_) | BranchState::Idle(_) | BranchState::RollbackOnly(_) => false,
        }
    }
}

/// A branch by its XID, and where it stands.
#[derive(Clone, Copy, Debug)]
pub struct Branch {
    /// Its identifier.
    pub xid: Xid,
    /// Where it stands.
    pub state: BranchState,
}

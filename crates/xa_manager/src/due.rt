//! What a call is answered, and what is then due.

ghost use Rattle.std.specs.Prelude.{◌≡◌};
ghost use Rattle.xa_manager.specs.Due.{due_at, due_of_new, due_of_join, due_of_end, due_of_prepare, due_of_commit, due_of_one_phase, due_of_roll_back, due_of_forget, heuristic_code};

use crate::branch::BranchState;
use xa_calls::{Ending, MAX_IN_DOUBT, Verb, XaCode};

/// How many branches the table knows at most.
pub const MAX_BRANCHES: usize = 1024;

/// How a branch is decided.
#[derive(Clone, Copy, Debug, PartialEq, Eq)]
pub enum Decision {
    /// Its changes are made.
    Commit,
    /// Its changes are dropped.
    RollBack,
}

impl Decision {
    // What a transaction manager is told that comes to decide a branch of which this was decided heuristically.
    fn heuristic_code(self) -> XaCode
        ensures { result ≡ heuristic_code self }
    {
        match self {
            Decision::Commit => XaCode::HeuristicallyCommitted,
            Decision::RollBack => XaCode::HeuristicallyRolledBack,
        }
    }
}

/// What a call makes due of its branch, and what the caller first records on its journal, if
/// anything; then `XaTable::settle` brings the table up to date.
#[derive(Clone, Copy, Debug, PartialEq, Eq)]
pub enum Action {
    /// Nothing: the branch, if it is known, is as before.
    Nothing,
    /// The branch begins, joined by the conversation.
    Start,
    /// The conversation is joined to the branch.
    Join,
    /// The conversation leaves the branch.
    End(Ending),
    /// The branch changed nothing and ends, with nothing to record.
    EndUnchanged,
    /// A Prepare record is due; then the branch is in doubt.
    Prepare,
    /// The branch is committed in one phase, with a Commit record where it has changes.
    CommitOnePhase,
    /// A Decide record is due; then the branch has ended.
    Decide(Decision),
    /// The branch is rolled back, with nothing to record.
    RollBack,
    /// A Forget record is due; then the branch, which was decided heuristically, is no longer known.
    Forget,
}

/// The answer to a call, and what it makes due.
#[derive(Clone, Copy, Debug, PartialEq, Eq)]
pub struct Due {
    /// The XARETVAL, where what is due can be done.
    pub code: XaCode,
    /// What is due.
    pub action: Action,
}

/// What the caller knows of its units.
#[derive(Clone, Copy, Debug, PartialEq, Eq)]
pub struct Work {
    /// The conversation's local unit has work: a claim or a change.
    pub is_local: bool,
    /// The unit of the XID has changes.
    pub has_changes: bool,
}

/// What the answer depends on besides the call and the branch's state.
#[derive(Clone, Copy, Debug, PartialEq, Eq)]
pub struct Facts {
    /// The conversation that asks.
    pub conversation: u64,
    /// It is joined to a branch, this one or another.
    pub is_joined: bool,
    /// What the caller knows of its units.
    pub work: Work,
    /// How many branches the table knows.
    pub known: usize,
    /// How many of them are in doubt.
    pub in_doubt: usize,
}

impl Due {
    // The answer to what is asked of a branch, whose state is `None` where it is not known.
    pub(crate) fn at(verb: Verb, state: Option<BranchState>, facts: &Facts) -> Due
        ensures { result ≡ due_at verb state facts.now }
    {
        match (verb, state) {
            (Verb::Start, None) => Due::of_new(facts),
            (Verb::Start, Some(_)) => Due::refused(XaCode::Duplicate),
            (_, None) => Due::refused(XaCode::Unknown),
            (Verb::Join, Some(state)) => Due::of_join(state, facts),
            (Verb::End(ending), Some(state)) => Due::of_end(ending, state, facts.conversation),
            (Verb::Prepare, Some(state)) => Due::of_prepare(state, facts),
            (Verb::Commit, Some(state)) => Due::of_commit(state),
            (Verb::CommitOnePhase, Some(state)) => Due::of_one_phase(state),
            (Verb::RollBack, Some(state)) => Due::of_roll_back(state),
            (Verb::Forget, Some(state)) => Due::of_forget(state),
        }
    }

    // Only a code.
    fn refused(code: XaCode) -> Due
        ensures { result ≡ record { code = code; action = Action.Nothing } }
    {
        Due {
            code,
            action: Action::Nothing,
        }
    }

    // XA_OK, and something to do.
    fn done(action: Action) -> Due
        ensures { result ≡ record { code = XaCode.Done; action = action } }
    {
        Due {
            code: XaCode::Done,
            action,
        }
    }

    // What can only be rolled back is rolled back now.
    fn undone() -> Due
        ensures { result ≡ record { code = XaCode.RolledBack; action = Action.RollBack } }
    {
        Due {
            code: XaCode::RolledBack,
            action: Action::RollBack,
        }
    }

    // A branch is to begin.
    fn of_new(facts: &Facts) -> Due
        ensures { result ≡ due_of_new facts.now }
    {
        if facts.is_joined {
            Due::refused(XaCode::Protocol)
        } else if facts.work.is_local {
            Due::refused(XaCode::Outside)
        } else if facts.known >= MAX_BRANCHES {
            Due::refused(XaCode::Limit)
        } else {
            Due::done(Action::Start)
        }
    }

    // The conversation is to be joined to a branch.
    fn of_join(state: BranchState, facts: &Facts) -> Due
        ensures { result ≡ due_of_join state facts.now }
    {
        if facts.is_joined {
            return Due::refused(XaCode::Protocol);
        }
        if facts.work.is_local {
            return Due::refused(XaCode::Outside);
        }
        match state {
            BranchState::RollbackOnly(_) => Due::refused(XaCode::RolledBack),
            BranchState::Active(_) | BranchState::Prepared | BranchState::Heuristic(_) => {
                Due::refused(XaCode::Protocol)
            }
            BranchState::Idle(_) => Due::done(Action::Join),
        }
    }

    // The conversation is to leave a branch that it is joined to, or was the last to be.
    fn of_end(ending: Ending, state: BranchState, conversation: u64) -> Due
        ensures { result ≡ due_of_end ending state conversation }
    {
        match state {
            BranchState::Active(last) | BranchState::Idle(last) if last == conversation => {
                Due::done(Action::End(ending))
            }
            BranchState::Active(_)
            | BranchState::Idle(_)
            | BranchState::RollbackOnly(_)
            | BranchState::Prepared
            | BranchState::Heuristic(_) => Due::refused(XaCode::Protocol),
        }
    }

    // The branch is to be prepared.
    fn of_prepare(state: BranchState, facts: &Facts) -> Due
        ensures { result ≡ due_of_prepare state facts.now }
    {
        match state {
            BranchState::Active(_) | BranchState::Prepared | BranchState::Heuristic(_) => {
                Due::refused(XaCode::Protocol)
            }
            BranchState::RollbackOnly(_) => Due::undone(),
            BranchState::Idle(_) if !facts.work.has_changes => Due {
                code: XaCode::ReadOnly,
                action: Action::EndUnchanged,
            },
            BranchState::Idle(_) if facts.in_doubt >= MAX_IN_DOUBT => Due::refused(XaCode::Limit),
            BranchState::Idle(_) => Due::done(Action::Prepare),
        }
    }

    // The prepared branch is to be committed.
    fn of_commit(state: BranchState) -> Due
        ensures { result ≡ due_of_commit state }
    {
        match state {
            BranchState::Prepared => Due::done(Action::Decide(Decision::Commit)),
            BranchState::Heuristic(decision) => Due::refused(decision.heuristic_code()),
            BranchState::Active(_) | BranchState::Idle(_) | BranchState::RollbackOnly(_) => {
                Due::refused(XaCode::Protocol)
            }
        }
    }

    // The branch is to be committed without having been prepared.
    fn of_one_phase(state: BranchState) -> Due
        ensures { result ≡ due_of_one_phase state }
    {
        match state {
            BranchState::Active(_) | BranchState::Prepared | BranchState::Heuristic(_) => {
                Due::refused(XaCode::Protocol)
            }
            BranchState::RollbackOnly(_) => Due::undone(),
            BranchState::Idle(_) => Due::done(Action::CommitOnePhase),
        }
    }

    // The branch is to be rolled back.
    fn of_roll_back(state: BranchState) -> Due
        ensures { result ≡ due_of_roll_back state }
    {
        match state {
            BranchState::Active(_) => Due::refused(XaCode::Protocol),
            BranchState::Prepared => Due::done(Action::Decide(Decision::RollBack)),
            BranchState::Idle(_) | BranchState::RollbackOnly(_) => Due::done(Action::RollBack),
            BranchState::Heuristic(decision) => Due::refused(decision.heuristic_code()),
        }
    }

    // The branch is to be forgotten.
    fn of_forget(state: BranchState) -> Due
        ensures { result ≡ due_of_forget state }
    {
        match state {
            BranchState::Heuristic(_) => Due::done(Action::Forget),
            BranchState::Active(_)
            | BranchState::Idle(_)
            | BranchState::RollbackOnly(_)
            | BranchState::Prepared => Due::refused(XaCode::Protocol),
        }
    }
}

//! The phases of two-phase commit.

ghost use Rattle.std.specs.Prelude.{◌≡◌, IfSome};
ghost use Rattle.unit_records.specs.Phases.{phase_of, verb_of};

use xa_calls::Verb;
use xa_manager::Decision;

/// A phase of two-phase commit (C193 section 2.3).
#[derive(Clone, Copy, Debug, PartialEq, Eq)]
pub enum Phase {
    /// The first: a branch is prepared.
    Prepare,
    /// The second: a branch in doubt is decided so.
    Decide(Decision),
}

impl Phase {
    /// What is asked of the branch.
    pub fn verb(self) -> Verb
        ensures { result ≡ verb_of self }
    {
        match self {
            Phase::Prepare => Verb::Prepare,
            Phase::Decide(Decision::Commit) => Verb::Commit,
            Phase::Decide(Decision::RollBack) => Verb::RollBack,
        }
    }

    /// The phase in which a branch goes of which this is asked, if there is one.
    pub fn of(verb: Verb) -> Option<Phase>
        ensures phase { result ≡ phase_of verb }
        ensures verb { IfSome result (λ phase. verb_of phase ≡ verb) }
    {
        match verb {
            Verb::Prepare => Some(Phase::Prepare),
            Verb::Commit => Some(Phase::Decide(Decision::Commit)),
            Verb::RollBack => Some(Phase::Decide(Decision::RollBack)),
            Verb::Start | Verb::Join | Verb::End(_) | Verb::CommitOnePhase | Verb::Forget => None,
        }
    }
}

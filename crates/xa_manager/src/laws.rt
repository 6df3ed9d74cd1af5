//! What holds over all calls of a table.

ghost use Rattle.xa_manager.specs.Laws.{RefusalsDoNothing, ActionsFit, MovesOne, PreparedStays, PreparedOutlives, OnlyPreparedDecided, HeuristicStays, HeuristicOutlives, DecidesOne, JoinedIsActive, OneEachStays, OneEachOutlives};

/// A call that is refused, by one of the codes below 0, makes nothing due.
pub fn refusals_do_nothing()
    ensures { RefusalsDoNothing }
{}

/// Each action is due only of a branch that stands so, and where the limits and what else is so allow it.
pub fn actions_fit_states()
    ensures { ActionsFit }
{}

/// What a call makes due moves the branch that it names to its next state, and leaves every other
/// branch where it stands.
pub fn moves_one_branch()
    ensures { MovesOne }
{}

/// A prepared branch stays prepared over each call and over the loss of each conversation, until
/// its decision is due; and a decision is due of no other branch.
pub fn prepared_until_decided()
    ensures stays { PreparedStays }
    ensures outlives { PreparedOutlives }
    ensures decided { OnlyPreparedDecided }
{}

/// A branch that was decided heuristically stays so over each call and over the loss of each conversation,
/// until it is forgotten; and such a decision moves no other branch.
pub fn heuristic_until_forgotten()
    ensures stays { HeuristicStays }
    ensures outlives { HeuristicOutlives }
    ensures one { DecidesOne }
{}

/// The branch that a conversation is joined to is active, so it works in no prepared one.
pub fn works_while_active()
    ensures { JoinedIsActive }
{}

/// A conversation that is joined to one branch at most stays so, over each call and over the loss of
/// each conversation.
pub fn joined_to_one()
    ensures stays { OneEachStays }
    ensures outlives { OneEachOutlives }
{}

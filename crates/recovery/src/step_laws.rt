//! Laws of the definitions. The functions do nothing: their contracts are the laws.

ghost use Rattle.recovery.specs.StepLaws.{DecisionsAreOfDoubts, DecisionsKeep, DecisionsLead, DueAreKnown, GroupsAreKnown, GroupsAreOfDoubts, GroupsKeep, GroupsLead, HeuristicsAreOfDoubts, MisreadsKeep, MisreadsStay, OpeningsAreKept, RecordsLead, SilentStepsStay, StepsKeep};

/// What is durable of a core is what its records lead to: each step of a kept core makes one record due at
/// most, which has its place among those before and leads to what is durable after the step; a step
/// without a record changes nothing durable, nor does a statement that is given other rows.
pub fn steps_are_recorded()
    ensures keep { StepsKeep }
    ensures silent { SilentStepsStay }
    ensures lead { RecordsLead }
    ensures decisions { DecisionsAreOfDoubts }
    ensures known { DueAreKnown }
    ensures misread_keep { MisreadsKeep }
    ensures misread_stays { MisreadsStay }
{
    xa_manager::laws::actions_fit_states();
    unit_locks::laws::adding();
    tables::laws::changes_are_local();
    crate::laws::changes_have_places();
    crate::laws::doubts_hold_their_decisions();
    crate::laws::places_depend_on_tables();
    core_model::laws::units_in_doubt_wait();
    xa_manager::laws::works_while_active();
}

/// A heuristic decision of a prepared branch keeps a core. Its record has its place, leads to what is durable then, and
/// releases what was held for the branch.
pub fn heuristics_are_recorded()
    ensures keep { DecisionsKeep }
    ensures lead { DecisionsLead }
    ensures held { HeuristicsAreOfDoubts }
{
    unit_locks::laws::adding();
    xa_manager::laws::actions_fit_states();
    tables::laws::changes_are_local();
    crate::laws::changes_have_places();
    crate::laws::doubts_hold_their_decisions();
    crate::laws::places_depend_on_tables();
    core_model::laws::units_in_doubt_wait();
    xa_manager::laws::works_while_active();
}

/// A core that is opened over what records lead to is kept, and just that is durable of it.
pub fn openings_are_kept()
    ensures { OpeningsAreKept }
{}

/// Calls that are made together keep a core, and have a record each. The records have their places one behind another, and
/// lead to what is durable behind all of these calls; what they release was held for branches in doubt.
pub fn groups_are_recorded()
    ensures keep { GroupsKeep }
    ensures lead { GroupsLead }
    ensures decisions { GroupsAreOfDoubts }
    ensures known { GroupsAreKnown }
{
    unit_records::laws::calls_go_together();
    crate::laws::doubts_hold_their_decisions();
    crate::laws::steps_are_recorded();
}

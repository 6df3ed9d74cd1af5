//! Laws of the definitions. The functions do nothing: their contracts are the laws.

ghost use Rattle.core_model.specs.Laws.{AllButCreationsAreDescribed, AnswersAreMeanings, BranchesWork, ChangesHaveALimit, ChangesLie, ClaimsAreKept, ClaimsHaveALimit, ClaimsStayFew, DescriptionsClaimNothing, EndsAreAnswered, GlobalUnitsStay, HeuristicsWork, HistoriesAreSane, InDoubtWait, LocalUnitsEnd, LostLeavesNothing, NewCoresAreSane, OneListing, RefusalsChangeNothing, RefusalsMakeNoChange, StartsWantNoWork, StatementsStay, StoresStay, UnfitIsRefused, UnitsSeeStores, UnitsStayApart, UnitsStayListed, WorkIsWhereJoined};

/// A statement changes at most the unit that its conversation works in.
pub fn statements_work_in_one_unit()
    ensures stay { StatementsStay }
    // a statement that is refused before it has claimed changes nothing
    ensures refused { RefusalsChangeNothing }
    // one that is refused makes no change
    ensures unchanged { RefusalsMakeNoChange }
    // the unit is that of the XID that the conversation is joined to, else its local one
    ensures joined { WorkIsWhereJoined }
    // what is unfit is refused before anything else
    ensures unfit { UnfitIsRefused }
{}

/// A statement is answered by what it means over all rows that its unit sees, and its changes are added
/// at the unit's end.
pub fn answers_are_meanings()
    ensures { AnswersAreMeanings }
{
    unit_locks::laws::adding();
    sql_semantics::laws::statements_are_framed();
}

/// A statement that is answered by what it means has claimed, also where that is a refusal; and none
/// of its claims clashes with one of another unit.
pub fn claims_are_kept()
    ensures { ClaimsAreKept }
{
    unit_locks::laws::adding();
}

/// A description of a table that is there claims nothing, and changes nothing.
pub fn descriptions_claim_nothing()
    ensures { DescriptionsClaimNothing }
{}

/// A CREATE is not described; of a table that is there every other statement is.
pub fn all_but_creations_are_described()
    ensures { AllButCreationsAreDescribed }
{}

/// The least that is refused of a unit: 65,536 claims, and 1,048,577 bytes of changes.
pub fn units_have_limits()
    ensures claims { ClaimsHaveALimit }
    ensures bytes { ChangesHaveALimit }
{}

/// A commit makes the changes of its unit and ends it, a rollback ends it; other units keep what they
/// have. Inside of a global unit neither does anything.
pub fn local_units_end()
    ensures ended { LocalUnitsEnd }
    ensures joined { GlobalUnitsStay }
{}

/// A conversation's own commit and rollback are answered that they are done, and inside of a global unit that
/// they are not.
pub fn ends_are_answered()
    ensures { EndsAreAnswered }
{}

/// An XA call does to the units what is due of its branch, and nothing else.
pub fn branches_work()
    ensures { BranchesWork }
{}

/// A heuristic decision of a prepared branch does to the units what its transaction manager's would.
pub fn heuristics_work()
    ensures { HeuristicsWork }
{}

/// A branch is started or joined only from a local unit that has neither claims nor changes.
pub fn starts_want_no_work()
    ensures { StartsWantNoWork }
{}

/// With a conversation goes its local unit, and the unit of each unprepared branch that it was the last
/// to start or join; all others stay.
pub fn lost_leaves_nothing()
    ensures { LostLeavesNothing }
{}

/// Each change of a unit lies in a write claim of the unit, and every step keeps this where the unit
/// that asks sees a store: over the store as it is committed, whatever was committed since.
pub fn changes_lie()
    ensures { ChangesLie }
{
    unit_locks::laws::adding();
    tables::laws::changes_are_local();
    sql_semantics::laws::statements_are_framed();
}

/// No claims of two units clash, and every step keeps this; units that were found in doubt may clash
/// with one another. A unit has at most 65,535 claims, and none twice.
pub fn claims_stay_apart()
    ensures apart { UnitsStayApart }
    ensures few { ClaimsStayFew }
{
    unit_locks::laws::adding();
    unit_locks::laws::clash_is_symmetric();
}

/// No call asks anything of a unit in doubt; where its branch is no longer prepared, the unit has
/// ended.
pub fn units_in_doubt_wait()
    ensures { InDoubtWait }
{
    xa_manager::laws::works_while_active();
    xa_manager::laws::prepared_until_decided();
}

/// The committed store is a store, and so is what each unit sees of it; every step keeps this.
pub fn stores_stay()
    ensures stay { StoresStay }
    ensures seen { UnitsSeeStores }
{
    tables::laws::changes_are_local();
}

/// The units that are listed have work, and stand in the order of their owners, each once: every step
/// keeps this. So the same units are listed in one way alone.
pub fn units_stay_listed()
    ensures stay { UnitsStayListed }
    ensures one { OneListing }
{}

/// At every point of every history, from an opening where it is so: the units are listed in their order, the committed store is a store,
/// each change of a unit lies in a write claim of it, and no unit has more than 65,535 claims, nor one twice. It is so of a new core.
pub fn histories_are_sane()
    ensures histories { HistoriesAreSane }
    ensures new { NewCoresAreSane }
{
    unit_locks::laws::adding();
    tables::laws::changes_are_local();
    sql_semantics::laws::statements_are_framed();
}

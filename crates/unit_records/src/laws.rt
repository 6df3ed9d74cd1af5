//! Laws of records: of their bytes, and of steps that are taken together. The functions do nothing: their contracts are the laws.

ghost use Rattle.unit_records.specs.Laws.{OneReading, PartsStandOnce, WrittenIsRead};
ghost use Rattle.unit_records.specs.Room.{DecisionsAreShort, DecisionsFit, DecisionsNeedNoRoom, HeuristicsFit};
ghost use Rattle.unit_records.specs.Together.{CallsGoTogether};

/// A body is one record at most of its kind, and what can be written is read from its bytes.
pub fn records_have_one_reading()
    ensures once { OneReading }
    ensures written { WrittenIsRead }
{
    parts_stand_once();
}

/// The decision of a branch takes no more than the bytes that its prepare held back; nor do a heuristic decision and its
/// forgetting, in layout 2.
pub fn decisions_have_room()
    ensures fit { DecisionsFit }
    ensures heuristics { HeuristicsFit }
    ensures no_more { DecisionsNeedNoRoom }
    ensures short { DecisionsAreShort }
{}

/// A text begins with one XID at most, and with one list of claims or of changes.
pub(crate) fn parts_stand_once()
    ensures { PartsStandOnce }
{
    tables::laws::changes_have_their_bytes();
    unit_locks::laws::one_reading();
    xa_calls::laws::one_reading();
}

/// Calls that are made together, each about another unit: each is answered that it was done and makes the record due that its
/// unit gave before them all, and they come to the changes of all that commit.
pub fn calls_go_together()
    ensures { CallsGoTogether }
{}

//! Laws of the definitions. The functions do nothing: their contracts are the laws.

ghost use Rattle.recovery.specs.QuestionPlaces.{ChangesHavePlaces, CreationsClaimNames};

/// Each change that a question of a unit makes has its place behind those before it, in the store that it
/// sees; a question that creates a table claims all names.
pub fn changes_have_places()
    ensures places { ChangesHavePlaces }
    ensures names { CreationsClaimNames }
{
    tables::laws::changes_are_local();
    tables::laws::stores_hold_tables();
    sql_semantics::laws::statements_are_framed();
}

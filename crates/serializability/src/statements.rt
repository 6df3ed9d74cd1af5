//! Laws of the definitions. The functions do nothing: their contracts are the laws.

ghost use Rattle.serializability.specs.Serial.{SerialOrder};
ghost use Rattle.serializability.specs.Steps.{EventsKeep, LogsAreBeside, SerialOrderOf};
ghost use Rattle.serializability.specs.Prepared.{prepared_units};
ghost use Rattle.serializability.specs.UnitList.{unit_list};
ghost use Rattle.serializability.specs.SqlWords.{sql_words};

/// Units that run statements side by side have the answers and the changes that they have one after
/// another. Of an opening it is asked that its store is one, and that each change of a unit in doubt
/// lies in a write claim of that unit, a creation in that of `*` too.
pub fn units_are_serial()
    // of any list of statements, commits and ends after an opening
    ensures events { SerialOrder sql_words (unit_list sql_words) }
    // of any list of calls, where prepared units are asked nothing
    ensures calls { SerialOrderOf sql_words (unit_list sql_words) (prepared_units sql_words (unit_list sql_words)) }
    // what the first two ask of an opening, each event keeps
    ensures kept { EventsKeep sql_words (unit_list sql_words) }
    // the logs that the law speaks of change nothing
    ensures beside { LogsAreBeside sql_words (unit_list sql_words) }
{
    tables::laws::changes_are_local();
    tables::laws::changes_make_tables();
    unit_locks::laws::clash_is_symmetric();
    unit_locks::laws::adding();
    sql_semantics::laws::statements_are_framed();
}

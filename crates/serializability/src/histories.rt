//! Laws of the definitions. The functions do nothing: their contracts are the laws.

ghost use Rattle.serializability.specs.Serial.{SerialOrder};
ghost use Rattle.serializability.specs.Steps.{EventsKeep};
ghost use Rattle.serializability.specs.CoreWords.{CoreOrder, EventsAreTheirs, core_units, core_words};
ghost use Rattle.serializability.specs.Histories.{DecidedHistoriesAreSerial, HistoriesAreSerial};

/// Units of the core that run side by side have the answers and the changes that they have one after
/// another.
pub fn histories_are_serial()
    // of any list of questions, commits and ends of the core's owners after an opening
    ensures events { SerialOrder core_words core_units }
    // what that asks of an opening, each event keeps
    ensures kept { EventsKeep core_words core_units }
    // the events of the law do to store and units what the core's events do
    ensures theirs { EventsAreTheirs }
    // so the committed units, one after another, lead to the store that the core's events lead to
    ensures core { CoreOrder }
    // of any list of calls of any conversations, whether their steps are taken or not, after an opening
    // whose units are of prepared branches
    ensures histories { HistoriesAreSerial }
    // and with heuristic decisions between them
    ensures decided { DecidedHistoriesAreSerial }
{
    tables::laws::changes_are_local();
    tables::laws::changes_make_tables();
    unit_locks::laws::clash_is_symmetric();
    unit_locks::laws::adding();
    sql_semantics::laws::statements_are_framed();
    core_model::laws::units_in_doubt_wait();
    xa_manager::laws::actions_fit_states();
}

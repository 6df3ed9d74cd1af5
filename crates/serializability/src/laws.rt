//! Laws of the definitions. The functions do nothing: their contracts are the laws, over a small
//! store. The proofs are over any words that meet `Laws`, and a crate with words of its own takes
//! them from there: a clause cannot say "for all words".

ghost use Rattle.serializability.specs.Serial.{SerialOrder};
ghost use Rattle.serializability.specs.Steps.{EventsKeep, LogsAreBeside, SerialOrderOf};
ghost use Rattle.serializability.specs.Prepared.{prepared_units};
ghost use Rattle.serializability.specs.UnitList.{unit_list};
ghost use Rattle.serializability.specs.SmallStore.{small_words};

pub use crate::answers::{
    answers_are_serial, answers_belong_to_calls, unfit_statements_are_answered_alike,
};

/// Units that run side by side have the answers and the changes that they have one after another.
pub fn units_are_serial()
    // of any list of events after an opening
    ensures events { SerialOrder small_words (unit_list small_words) }
    // of any list of calls, where prepared units are asked nothing
    ensures calls { SerialOrderOf small_words (unit_list small_words) (prepared_units small_words (unit_list small_words)) }
    // what the first two ask of an opening, each event keeps
    ensures kept { EventsKeep small_words (unit_list small_words) }
    // the logs that the law speaks of change nothing
    ensures beside { LogsAreBeside small_words (unit_list small_words) }
{}

//! Laws of what calls are answered. The functions do nothing: their contracts are the laws.

ghost use Rattle.serializability.specs.Answered.{AnswersAreSerial, AnswersTell, CallsLeadOn, LogsAreAnswers, UnfitIsTheSame};
ghost use Rattle.serializability.specs.Belonging.{AnswersBelong, ExcusesBelongToNone};

/// Each call is answered by its own kind of answer: who asks the core never meets one that belongs to
/// another call. An excuse, which comes in place of an answer, belongs to none.
pub fn answers_belong_to_calls()
    ensures belong { AnswersBelong }
    ensures excuses { ExcusesBelongToNone }
{}

/// A statement that is unfit is answered alike in every state, and changes nothing, so that it counts in no
/// log. Of all others those are answered by what they mean that are done.
pub fn unfit_statements_are_answered_alike()
    ensures unfit { UnfitIsTheSame }
    ensures tell { AnswersTell }
{}

/// Whatever is called after an opening, each call with the answer that it really had: the units that were
/// committed have, alone one after another, their questions' answers and their changes, and lead to the
/// committed store.
pub fn answers_are_serial()
    // calls one after another, each answered by its step or by an excuse
    ensures lead_on { CallsLeadOn }
    // the logs of the law are the questions of the calls, with these answers
    ensures logs { LogsAreAnswers }
    ensures serial { AnswersAreSerial }
{
    tables::laws::changes_are_local();
    tables::laws::changes_make_tables();
    unit_locks::laws::clash_is_symmetric();
    unit_locks::laws::adding();
    sql_semantics::laws::statements_are_framed();
    core_model::laws::units_in_doubt_wait();
    xa_manager::laws::actions_fit_states();
}

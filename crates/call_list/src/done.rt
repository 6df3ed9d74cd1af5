//! Which answers are a call's own.

ghost use Rattle.std.specs.Prelude.{◌≡◌, false, true};
ghost use Rattle.core_calls.specs.Answer.{answer_of};
ghost use Rattle.serializability.specs.Belonging.{is_excuse};

use core_calls::Answer;

/// Whether an answer is one of the call's own. Else it is an excuse: the call was not done.
pub fn is_done(answer: &Answer) -> bool
    ensures done { result ≡ true → is_excuse (answer_of answer.now) ≡ false }
    ensures excused { result ≡ false → is_excuse (answer_of answer.now) ≡ true }
{
    !matches!(
        answer,
        Answer::NoMemory | Answer::Full { .. } | Answer::DeviceFailed | Answer::Closed
    )
}

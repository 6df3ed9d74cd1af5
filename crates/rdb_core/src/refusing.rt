//! What is answered where a record is refused, or rows are not read.

ghost use Rattle.std.specs.Prelude.{◌≡◌};
ghost use Rattle.core_calls.specs.Answer.{answer_of};
ghost use Rattle.rdb_core.specs.Looks.{unread_answer};
ghost use Rattle.rdb_core.specs.Recorded.{refusal_answer};

use ahead_view::ReadError;
use core_calls::Answer;
use unit_records::RecordError;

/// The answer to a call whose record is refused so.
pub(crate) fn refused(error: RecordError) -> Answer
    ensures { answer_of result ≡ refusal_answer error }
{
    match error {
        RecordError::NoMemory => Answer::NoMemory,
        RecordError::Full { need, room } => Answer::Full { need, room },
        RecordError::DeviceFailed => Answer::DeviceFailed,
    }
}

/// The answer to a statement whose rows were not read.
pub(crate) fn unread(error: ReadError) -> Answer
    ensures { answer_of result ≡ unread_answer error }
{
    match error {
        ReadError::NoMemory => Answer::NoMemory,
        ReadError::DeviceFailed => Answer::DeviceFailed,
    }
}

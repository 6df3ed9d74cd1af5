//! Who is asked.

ghost use Rattle.std.specs.Prelude.{◌≡◌};
ghost use Rattle.core_calls.specs.Answer.{Answer as AnswerIs, answer_of};
ghost use Rattle.core_calls.specs.Call.{Call, call_of};

use core_calls::{Answer, CoreCall};

/// Who does the calls of one conversation. Contracts know it by what an ask may make of it: `asks` says
/// which call, which answer and which state then belong together. Nothing else that it is told changes it.
pub trait Ask {
    ghost asks: { Self → Call → AnswerIs → Self → Type 0 };

    /// Does a call.
    fn ask(&mut self, call: &CoreCall<'_, '_, '_>) -> Answer
        ensures { asks self.old (call_of call.now) (answer_of result) self.new };

    /// Whether the bytes that have come behind the command under way begin with one that ends the unit of work: it is likely to be
    /// asked next, and soon.
    fn expect_end(&mut self, _is_expected: bool)
        ensures { self.new ≡ self.old }
    {}

    /// The conversation waits for its stream now: whoever is asked keeps nothing that others wait for.
    fn rest(&mut self)
        ensures { self.new ≡ self.old }
    {}

    /// So many bytes the conversation keeps from now on, of commands that came and of rows for its cursors; false where all that are
    /// served would keep more than they may: then it is to go on as where memory is refused.
    fn keep(&mut self, _bytes: usize) -> bool
        ensures { self.new ≡ self.old }
    {
        true
    }
}

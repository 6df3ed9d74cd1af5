//! Leave for one conversation's calls.

use crate::calls::CallList;
use crate::wish::Wish;
use unit_records::Asked;

/// Leave for the calls of one conversation of a book. It counts those that were listed, and shows them to
/// clauses, with their answers.
#[derive(Drop)]
pub struct Pass {
    pub(crate) conversation: u64,
    pub(crate) place: usize,
    pub(crate) count: u64,
    pub(crate) calls: CallList,
}

impl Pass {
    ghost use Rattle.std.specs.Prelude.{◌≡◌, true};
    ghost use Rattle.core_history.specs.Gathered.{Agrees};

    /// The conversation's number, which is given once.
    pub fn conversation(&self) -> u64
        ensures { result ≡ self.now.conversation }
    {
        self.conversation
    }

    /// The place at which it has leave, below 64. No other conversation has it until the pass is retired.
    pub fn place(&self) -> usize
        ensures { result ≡ self.now.place }
    {
        self.place
    }

    /// How many calls were listed.
    pub fn count(&self) -> u64
        ensures { result ≡ self.now.count }
    {
        self.count
    }

    /// Whether a wish is at another place, or is that this pass's conversation waits to ask this as its next call.
    pub fn agrees(&self, wish: &Wish, wished: &Asked) -> bool
        ensures { result ≡ true → Agrees self.now wished.now wish.now }
    {
        wish.place != self.place
            || wish.conversation == self.conversation
                && wish.count == self.count
                && wish.wished.is_same(wished)
    }

    /// That its conversation waits to ask this as its next call.
    pub fn wish(&self, wished: Asked) -> Wish
        ensures { result ≡ record { conversation = self.now.conversation; place = self.now.place; count = self.now.count; wished = wished } }
    {
        Wish {
            conversation: self.conversation,
            place: self.place,
            count: self.count,
            wished,
        }
    }
}

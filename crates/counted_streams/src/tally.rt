//! A count that only clauses read.

ghost use Rattle.std.specs.Prelude.{◌≡◌, ◌+◌};

use drda_words::GhostValue;

/// How often something came.
#[derive(Drop)]
pub(crate) struct Tally {
    // clauses see a `u64` as a number without a greatest value
    times: GhostValue<u64>,
}

impl Tally {
    ghost use Rattle.counted_streams.specs.Tally.{times_of};

    /// It has not come yet.
    pub(crate) fn new() -> Tally
        ensures { times_of result ≡ 0 }
    {
        Tally {
            times: GhostValue::of(&()),
        }
    }

    /// It has come once more.
    pub(crate) fn raise(&mut self)
        ensures { times_of self.new ≡ times_of self.old + 1 }
    {
        self.times.set(&());
    }
}

//! A count of failures.
ghost use Rattle.std.specs.Prelude.{◌≡◌, ◌+◌, ◌-◌, ◌^◌, min};

use drda_words::GhostValue;

/// How many calls have failed.
#[derive(Drop)]
pub(crate) struct FaultCount {
    // clauses see a `u64` as a number without a greatest value
    tally: GhostValue<u64>,
    shown: u64,
    ghost stops: { shown ≡ min tally.value (2 ^ 64 - 1) },
}

impl FaultCount {
    ghost use Rattle.drda_disk.specs.Count.{count_of};

    pub(crate) fn new() -> FaultCount
        ensures { count_of result ≡ 0 }
    {
        FaultCount {
            tally: GhostValue::of(&()),
            shown: 0,
        }
    }

    pub(crate) fn raise(&mut self)
        ensures { count_of self.new ≡ count_of self.old + 1 }
    {
        self.tally.set(&());
        self.shown = self.shown.saturating_add(1);
    }

    /// The count, up to 2^64 - 1.
    pub(crate) fn get(&self) -> u64
        ensures { result ≡ min (count_of self.now) (2 ^ 64 - 1) }
    {
        self.shown
    }
}

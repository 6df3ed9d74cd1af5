//! A list of a disk's writes and syncs that only clauses read.
ghost use Rattle.std.specs.Prelude.{◌≡◌, List, [], ◌∷◌};
ghost use Rattle.drda_disk.specs.Replay.{Step, wrote, synced};

use drda_words::GhostValue;
use std::marker::Model;

/// A list of writes and syncs, as clauses see it.
#[derive(Drop)]
pub(crate) struct StepList {}

impl Model for StepList {
    ghost Value = { List Step };

    ghost view = { λ _. [] };
}

/// The writes and syncs so far, the newest first. It takes no memory.
#[derive(Drop)]
pub(crate) struct History {
    pub(crate) steps: GhostValue<StepList>,
}

impl History {
    pub(crate) fn new() -> History
        ensures { result.steps.value ≡ [] }
    {
        History {
            steps: GhostValue::of(&()),
        }
    }

    pub(crate) fn note_write(&mut self, at: usize, bytes: &[u8])
        ensures { self.new.steps.value ≡ wrote at bytes.now ∷ self.old.steps.value }
    {
        self.steps.set(&(at, bytes));
    }

    pub(crate) fn note_sync(&mut self)
        ensures { self.new.steps.value ≡ synced ∷ self.old.steps.value }
    {
        self.steps.set(&());
    }

    /// A disk whose bytes were all written, and synced.
    pub(crate) fn of(bytes: &[u8]) -> History
        ensures { result.steps.value ≡ synced ∷ (wrote 0 bytes.now ∷ []) }
    {
        let mut history = History::new();
        history.note_write(0, bytes);
        history.note_sync();
        history
    }
}

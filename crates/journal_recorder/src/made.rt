//! The records that were made, which clauses alone read.

ghost use Rattle.std.specs.Prelude.{◌≡◌, [], ◌∷◌};
ghost use Rattle.unit_records.specs.MadeRecords.{MadeRecords as Made, none_made, with_begun, with_done};

use drda_words::GhostValue;
use std::marker::Model;
use unit_journal::{Kind, LaidGroup};

/// Groups of records, as clauses see them.
#[derive(Drop)]
pub(crate) struct RecordGroups {}

impl Model for RecordGroups {
    ghost Value = { Made };

    ghost view = { λ _. none_made };
}

/// The records that were made so far, and those that were begun, in their order. Records that are made at once are one group. It takes no
/// memory.
#[derive(Drop)]
pub(crate) struct MadeRecords {
    pub(crate) groups: GhostValue<RecordGroups>,
}

impl MadeRecords {
    /// No records.
    pub(crate) fn none() -> MadeRecords
        ensures { result.groups.value ≡ none_made }
    {
        MadeRecords {
            groups: GhostValue::of(&()),
        }
    }

    /// One record was made, alone.
    pub(crate) fn note(&mut self, kind: Kind, body: &[u8])
        ensures { self.new.groups.value ≡ with_done self.old.groups.value ((record { kind = kind; body = body.now } ∷ []) ∷ []) }
    {
        self.groups.set(&(kind, body));
    }

    /// A group was made.
    pub(crate) fn note_all(&mut self, group: &LaidGroup)
        ensures { self.new.groups.value ≡ with_done self.old.groups.value (group.now ∷ []) }
    {
        self.groups.set(group);
    }

    /// One record was begun, alone.
    pub(crate) fn leave_open(&mut self, kind: Kind, body: &[u8])
        ensures { self.new.groups.value ≡ with_begun self.old.groups.value ((record { kind = kind; body = body.now } ∷ []) ∷ []) }
    {
        self.groups.set(&(kind, body));
    }

    /// A group was begun.
    pub(crate) fn leave_all_open(&mut self, group: &LaidGroup)
        ensures { self.new.groups.value ≡ with_begun self.old.groups.value (group.now ∷ []) }
    {
        self.groups.set(group);
    }
}

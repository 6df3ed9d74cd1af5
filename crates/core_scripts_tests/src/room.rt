//! Who records what becomes of units here.

use unit_records::{DeviceFailed, GroupError, RecordContents, RecordError, Recorder};

/// Refuses commits of more changes than there is room for, and counts the records that it makes.
#[derive(Drop)]
pub struct Room {
    /// How many changes a commit may have.
    pub changes: usize,
    /// How many records there are.
    pub records: usize,
}

impl Room {
    /// For commits of any number of changes.
    pub fn ample() -> Room {
        Room {
            changes: usize::MAX,
            records: 0,
        }
    }
}

impl Recorder for Room {
    ghost allows = { λ _ _. Unit {0} };

    ghost records = { λ _ _ _. Unit {0} };

    ghost fails = { λ _ _ _ _. Unit {0} };

    fn record(&mut self, saying: RecordContents<'_>) -> Result<(), RecordError> {
        match saying {
            RecordContents::Commit { changes } if changes.len() > self.changes => {
                Err(RecordError::Full {
                    need: changes.len() as u64,
                    room: self.changes as u64,
                })
            }
            _ => {
                self.records = self.records.wrapping_add(1);
                Ok(())
            }
        }
    }

    ghost allows_all = { λ _ _. Unit {0} };

    ghost records_all = { λ _ _ _. Unit {0} };

    ghost fails_all = { λ _ _ _. Unit {0} };

    fn record_all(&mut self, sayings: &[RecordContents<'_>]) -> Result<(), GroupError> {
        if !have_room(sayings, self.changes) {
            return Err(GroupError::Refused);
        }
        self.records = self.records.wrapping_add(sayings.len());
        Ok(())
    }

    ghost lays_ahead = { λ _ _. Unit {0} };

    ghost fails_ahead = { λ _ _. Unit {0} };

    fn lay_ahead(&mut self, _sayings: &[RecordContents<'_>]) -> Result<bool, DeviceFailed> {
        Ok(false)
    }

    ghost lays_none = { λ _. tt };
}

// Whether each of them is made where a commit may have so many changes.
fn have_room(sayings: &[RecordContents<'_>], most: usize) -> bool {
    for saying in sayings {
        if !has_room(*saying, most) {
            return false;
        }
    }
    true
}

// Whether this one is.
fn has_room(saying: RecordContents<'_>, most: usize) -> bool {
    match saying {
        RecordContents::Commit { changes } => changes.len() <= most,
        _ => true,
    }
}

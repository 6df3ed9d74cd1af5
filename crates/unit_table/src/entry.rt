//! One unit of the table.

use crate::owner::Owner;
use unit_changes::UnitChanges;

/// A unit that has work.
#[derive(Drop)]
pub(crate) struct Entry {
    /// Whose it is.
    pub(crate) owner: Owner,
    /// The number by which its claims are found; no other unit has it.
    pub(crate) number: u16,
    /// What it has changed.
    pub(crate) changes: UnitChanges,
}

//! What bound statements are to do to tables that are there.

use crate::scope::Scope;
use core_calls::SqlFault;
use sql_changes::{GivenRow, Targets};
use sql_predicates::Filter;

/// What is left to do of a statement whose table is there, once its names and literals are resolved.
#[derive(Drop)]
pub(crate) enum Task {
    /// Nothing: it is refused whatever rows there are.
    Refused(SqlFault),
    /// This row is put, where none has its key.
    Insert(GivenRow),
    /// The rows that match are put with what is assigned.
    Update(Targets, Filter),
    /// The rows that match are removed.
    Delete(Filter),
    /// The rows that match are told, of these columns by their places.
    Select(Vec<u8>, Filter),
}

/// A task, and what of its table it works on.
#[derive(Drop)]
pub(crate) struct Plan {
    pub(crate) scope: Scope,
    pub(crate) task: Task,
}

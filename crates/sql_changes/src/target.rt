//! The columns that an UPDATE assigns.

ghost use Rattle.std.specs.Prelude.{◌≡◌, [], ◌==◌, IfOk, List, Ok, ℕ, map, nat_eq};
ghost use Rattle.std.specs.List.{list_any};
ghost use Rattle.row_values.specs.Column.{column_of};
ghost use Rattle.row_values.specs.Value.{value_of};
ghost use Rattle.sql_text.specs.declared.tree.Sum.{Sum as SqlSum};
ghost use Rattle.sql_semantics.specs.Checked.{fault_in};
ghost use Rattle.sql_semantics.specs.Update as update;
ghost use Rattle.sql_predicates.specs.Binding.{RefusedFor};
ghost use Rattle.sql_changes.specs.Assigned.{StandFor, places};

use crate::sum::{BoundSum, bound_sum};
use core_calls::{SqlFault, StatementError};
use row_values::{Schema, Value};
use sql_predicates::column_place;
use sql_text::Assignment;
use std::alloc::Global;

/// A column by its place, and the sum that becomes its value.
#[derive(Drop)]
pub(crate) struct Target {
    pub(crate) place: usize,
    pub(crate) sum: BoundSum,
}

/// What an UPDATE assigns: its assignments, with places for the names of columns and values for
/// literals and markers. Contracts see it by `StandFor`, which says what it makes of every row.
#[derive(Drop)]
pub struct Targets {
    pub(crate) targets: Vec<Target>,
}

impl Targets {
    /// The assignments of an UPDATE to the columns of a schema, with these values for the markers.
    /// They are judged from left to right: a column that the table has not is unknown, one of the key
    /// or one that is assigned before is a syntax error; then the names of its sum are judged, and
    /// then their classes: one term has the column's class, of several the column and each term are
    /// numbers.
    pub fn bind(
        alloc: Global,
        schema: &Schema,
        assignments: &[Assignment<'_>],
        params: &[Value<'_>],
    ) -> Result<Targets, StatementError>
        ensures fault { RefusedFor (fault_in (update.targets (map value_of params.now) schema.now.columns schema.now.key [] assignments.now)) result }
        ensures meaning { IfOk result (λ bound. (ts : List (ℕ × SqlSum)) → update.targets (map value_of params.now) schema.now.columns schema.now.key [] assignments.now ≡ Ok ts → StandFor (map value_of params.now) schema.now.columns bound ts) }
    {
        let mut targets = Vec::with_capacity(alloc, assignments.len())?;
        let mut left = assignments;
        'assignments: while let [assignment, rest @ ..] = left {
            let named = column_place(schema.columns(), assignment.column.bytes());
            let place = new_place(schema.key(), targets.as_slice(), named)?;
            let sum = bound_sum(alloc, schema.columns(), params, place, &assignment.sum)?;
            targets.push(Target { place, sum })?;
            left = rest;
        }
        Ok(Targets { targets })
    }
}

// The place of a column that is assigned: it is none of the key, and not assigned before.
#[tactic(auto, using(crate::proofs::Binding::any_place))]
fn new_place(key: &[u8], targets: &[Target], place: Option<usize>) -> Result<usize, SqlFault>
    ensures { result ≡ update.new_target key.now (places targets.now) place }
{
    let Some(place) = place else {
        return Err(SqlFault::ColumnUnknown);
    };
    if is_of_key(key, place) || is_assigned(targets, place) {
        return Err(SqlFault::Syntax);
    }
    Ok(place)
}

fn is_of_key(key: &[u8], place: usize) -> bool
    ensures { result ≡ list_any (nat_eq place) key.now }
{
    key.iter().any(|other| place == usize::from(*other))
}

fn is_assigned(targets: &[Target], place: usize) -> bool
    ensures { result ≡ list_any (λ target. nat_eq place target.place) targets.now }
{
    targets.iter().any(|target| place == target.place)
}

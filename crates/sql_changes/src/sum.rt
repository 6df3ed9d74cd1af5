//! Sums whose names and literals are resolved.

ghost use Rattle.std.specs.Prelude.{◌≡◌, ◌&&◌, ◌||◌, ◌==◌, IfOk, List, None, Some, if◌then◌else◌, map};
ghost use Rattle.std.specs.List.{slice_get};
ghost use Rattle.row_values.specs.Column.{column_of};
ghost use Rattle.row_values.specs.Value.{Value as SqlValue, value_of};
ghost use Rattle.sql_semantics.specs.Classes.{column_class};
ghost use Rattle.sql_semantics.specs.Update as update;
ghost use Rattle.sql_predicates.specs.Binding.{RefusedFor};
ghost use Rattle.sql_changes.specs.Assigned.{summed_from, total};
ghost use Rattle.sql_changes.specs.Faults.{addend_terms, classes_fault, names_fault, type_fault};

use core_calls::{SqlFault, StatementError};
use row_values::{Column, Value};
use sql_predicates::{Operand, are_one_class, kind_class};
use sql_text::{Addend, Operation, Sum};
use std::alloc::Global;

/// The class of numbers, by its place in the order of values.
const NUMBERS: u8 = 1;

/// A further term of a sum, with a place for its name or a value for its literal.
#[derive(Drop)]
pub(crate) struct BoundAddend {
    pub(crate) operation: Operation,
    pub(crate) operand: Operand,
}

/// A sum, with places for its names and values for its literals.
#[derive(Drop)]
pub(crate) struct BoundSum {
    pub(crate) first: Operand,
    pub(crate) rest: Vec<BoundAddend>,
}

// Whether what were numbers, or not, still are with a term of this class.
fn are_numbers_with(are_numbers: bool, class: u8) -> bool
    ensures { result ≡ (are_numbers && (1 == class || 1 == 0 || class == 0)) }
{
    are_numbers && are_one_class(NUMBERS, class)
}

// The further terms of a sum, and whether all of them are numbers. It is refused for the first name
// that is no column.
fn bound_addends(
    alloc: Global,
    columns: &[Column],
    params: &[Value<'_>],
    addends: &[Addend<'_>],
) -> Result<(Vec<BoundAddend>, bool), StatementError>
    ensures names { RefusedFor (names_fault (map value_of params.now) (map column_of columns.now) (addend_terms addends.now)) result }
    ensures classes { IfOk result (λ x. classes_fault (map value_of params.now) (map column_of columns.now) (addend_terms addends.now) ≡ type_fault x.1) }
    ensures meaning { IfOk result (λ x. (old : List SqlValue) (v : SqlValue) → summed_from old v x.0.items ≡ update.sum_from (map value_of params.now) (map column_of columns.now) old v addends.now) }
{
    let mut bound = Vec::with_capacity(alloc, addends.len())?;
    let mut are_numbers = true;
    let mut left = addends;
    'addends: while let [addend, rest @ ..] = left {
        let (operand, class) = Operand::bind(alloc, columns, params, &addend.term)?;
        are_numbers = are_numbers_with(are_numbers, class);
        bound.push(BoundAddend {
            operation: addend.operation,
            operand,
        })?;
        left = rest;
    }
    Ok((bound, are_numbers))
}

// The class of the column of this place.
fn class_at(columns: &[Column], place: usize) -> Result<u8, SqlFault>
    ensures { result ≡ column_class (slice_get (map column_of columns.now) place) }
{
    match columns.get(place) {
        Some(column) => Ok(kind_class(column.kind)),
        None => Err(SqlFault::ColumnUnknown),
    }
}

// Whether a column takes a sum by the classes of its terms: one term has the column's class; of
// several, the column and each term are numbers.
fn takes_sum(column: u8, first: u8, is_alone: bool, are_numbers: bool) -> bool
    ensures { result ≡ (if is_alone then (column == first || column == 0 || first == 0) else ((1 == column || 1 == 0 || column == 0) && (1 == first || 1 == 0 || first == 0) && are_numbers)) }
{
    if is_alone {
        are_one_class(column, first)
    } else {
        are_one_class(NUMBERS, column) && are_one_class(NUMBERS, first) && are_numbers
    }
}

/// A sum that is assigned to the column of this place. It is refused for the first of its names, from
/// left to right, that is no column, and then where its classes are not the column's.
pub(crate) fn bound_sum(
    alloc: Global,
    columns: &[Column],
    params: &[Value<'_>],
    place: usize,
    sum: &Sum<'_>,
) -> Result<BoundSum, StatementError>
    ensures fault { RefusedFor (update.sum_fault (map value_of params.now) (map column_of columns.now) place sum.now) result }
    ensures meaning { IfOk result (λ bound. (old : List SqlValue) → total old bound ≡ update.sum_value (map value_of params.now) (map column_of columns.now) old sum.now) }
{
    let (first, first_class) = Operand::bind(alloc, columns, params, &sum.first)?;
    let addends = sum.rest.as_slice();
    let (rest, are_numbers) = bound_addends(alloc, columns, params, addends)?;
    let class = class_at(columns, place)?;
    if !takes_sum(class, first_class, addends.is_empty(), are_numbers) {
        return Err(StatementError::Fault(SqlFault::TypeMismatch));
    }
    Ok(BoundSum { first, rest })
}

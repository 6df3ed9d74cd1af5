//! The columns that an INSERT gives.

ghost use Rattle.std.specs.Prelude.{◌≡◌, ◌==◌, [], map, nat_eq};
ghost use Rattle.std.specs.List.{list_any, position};
ghost use Rattle.drda_words.specs.Excuse.{Answers};
ghost use Rattle.row_values.specs.Column.{column_of};
ghost use Rattle.sql_semantics.specs.Insert as insert;
ghost use Rattle.core_calls.specs.StatementError.{fault_of};

use core_calls::{SqlFault, StatementError};
use row_values::Column;
use sql_lex::Part;
use sql_predicates::column_place;
use std::alloc::Global;

/// The places of these names: each is a column's, and none stands twice.
pub(crate) fn new_places(
    alloc: Global,
    columns: &[Column],
    names: &[Part<'_>],
) -> Result<Vec<usize>, StatementError>
    ensures { Answers (λ places. places.items) fault_of result (insert.new_places (map column_of columns.now) [] names.now) }
{
    let mut places = Vec::with_capacity(alloc, names.len())?;
    let mut left = names;
    'names: while let [name, rest @ ..] = left {
        let place = new_place(places.as_slice(), column_place(columns, name.bytes()))?;
        places.push(place)?;
        left = rest;
    }
    Ok(places)
}

fn new_place(found: &[usize], place: Option<usize>) -> Result<usize, SqlFault>
    ensures { result ≡ insert.new_place found.now place }
{
    let Some(place) = place else {
        return Err(SqlFault::ColumnUnknown);
    };
    if is_found(found, place) {
        return Err(SqlFault::Syntax);
    }
    Ok(place)
}

fn is_found(found: &[usize], place: usize) -> bool
    ensures { result ≡ list_any (nat_eq place) found.now }
{
    found.iter().any(|other| place == *other)
}

/// Which of the values that are given is that of this column.
pub(crate) fn place_of(places: &[usize], column: usize) -> Option<usize>
    ensures { result ≡ position (λ place. place == column) places.now }
{
    places.iter().position(|place| *place == column)
}

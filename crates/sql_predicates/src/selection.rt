//! The columns that a SELECT asks for.

ghost use Rattle.std.specs.Prelude.{◌≡◌, ◌≤◌, IfOk, [], length, map, true};
ghost use Rattle.drda_words.specs.Excuse.{Answers};
ghost use Rattle.row_values.specs.Column.{column_of};
ghost use Rattle.sql_semantics.specs.Classes as classes;
ghost use Rattle.sql_semantics.specs.Values as values;
ghost use Rattle.core_calls.specs.StatementError.{fault_of};
ghost use Rattle.tables.specs.RowList.{is_selection};

use crate::column_place;
use core_calls::{SqlFault, StatementError};
use row_values::{Column, Schema};
use sql_lex::Part;
use sql_text::Columns;
use std::alloc::{AllocError, Global};
use tables::MAX_SELECTED;

#[tactic(auto, using(crate::proofs::Places::place_below))]
fn known_place(columns: &[Column], name: &[u8]) -> Result<u8, StatementError>
    requires { length columns.now ≤ 64 }
    ensures { Answers (λ place. place) fault_of result (classes.known_place (values.column_place (map column_of columns.now) name.now)) }
{
    match column_place(columns, name) {
        Some(place) => Ok(place as u8),
        None => Err(StatementError::Fault(SqlFault::ColumnUnknown)),
    }
}

fn named_places(
    alloc: Global,
    columns: &[Column],
    names: &[Part<'_>],
) -> Result<Vec<u8>, StatementError>
    requires { length columns.now ≤ 64 }
    ensures { Answers (λ places. places.items) fault_of result (classes.named_places (map column_of columns.now) [] names.now) }
{
    let mut places = Vec::new(alloc);
    for name in names {
        let place = known_place(columns, name.bytes())?;
        places.push(place)?;
    }
    Ok(places)
}

fn all_places(alloc: Global, columns: &[Column]) -> Result<Vec<u8>, AllocError>
    requires { length columns.now ≤ 64 }
    ensures { IfOk result (λ places. places.items ≡ values.all_places 0 (map column_of columns.now)) }
{
    let mut places = Vec::new(alloc);
    for place in 0..columns.len() {
        places.push(place as u8)?;
    }
    Ok(places)
}

/// The places, from 0, of the columns that a SELECT asks for: of all in their order, or of those
/// named, from left to right and each as often as it is named. It is refused where a name is no
/// column, and where more than 64 are named.
pub fn selected_places(
    alloc: Global,
    schema: &Schema,
    columns: &Columns<'_>,
) -> Result<Vec<u8>, StatementError>
    ensures places { Answers (λ places. places.items) fault_of result (classes.selected_places schema.now.columns columns.now) }
    ensures good { IfOk result (λ places. is_selection schema.now places.items ≡ true) }
{
    let schema_columns = schema.columns();
    match columns {
        Columns::All => Ok(all_places(alloc, schema_columns)?),
        Columns::Named(names) => {
            if names.len() > MAX_SELECTED {
                return Err(StatementError::Fault(SqlFault::LimitReached));
            }
            named_places(alloc, schema_columns, names.as_slice())
        }
    }
}

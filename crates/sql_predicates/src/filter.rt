//! Which rows of a table match.

ghost use Rattle.std.specs.Prelude.{◌≡◌, IfOk, List, map, true};
ghost use Rattle.std.specs.Option.{option_copied};
ghost use Rattle.row_values.specs.Row.{values_in};
ghost use Rattle.row_values.specs.RowView.{row_in, schema_in};
ghost use Rattle.row_values.specs.Value.{Value as SqlValue, value_of};
ghost use Rattle.sql_semantics.specs.Classes.{filter_fault};
ghost use Rattle.sql_semantics.specs.Truth.{matches};
ghost use Rattle.sql_predicates.specs.Binding.{RefusedFor};
ghost use Rattle.sql_predicates.specs.Test.{passes};

use crate::bind::bound;
use crate::evaluate::met;
use crate::test::Test;
use core_calls::StatementError;
use row_values::{RowRef, Schema, Value};
use sql_semantics::Truth;
use sql_text::Predicate;
use std::alloc::Global;

/// Which rows of a table match: a WHERE, with its names resolved to places of columns and its
/// literals and markers to values. Contracts see it by `passes`, which says whether a row of these
/// values matches.
#[derive(Debug, Drop)]
pub struct Filter {
    test: Option<Test>,
}

impl Filter {
    /// The filter of a WHERE, or of none, over the columns of a schema, with these values for the
    /// markers. It is refused for the first fault from left to right: a name that is no column, or a
    /// comparison of two classes, in which both names are judged before the classes.
    pub fn bind(
        alloc: Global,
        schema: &Schema,
        filter: Option<&Predicate<'_>>,
        params: &[Value<'_>],
    ) -> Result<Filter, StatementError>
        ensures fault { RefusedFor (filter_fault (map value_of params.now) schema.now.columns (option_copied filter.entry)) result }
        ensures meaning { IfOk result (λ f. (values : List SqlValue) → passes f values ≡ matches (map value_of params.now) schema.now.columns values (option_copied filter.entry)) }
    {
        match filter {
            None => Ok(Filter { test: None }),
            Some(predicate) => {
                let test = bound(alloc, schema.columns(), params, predicate)?;
                Ok(Filter { test: Some(test) })
            }
        }
    }

    /// Whether there is no WHERE, so that every row matches.
    pub fn takes_all(&self) -> bool
        ensures { result ≡ true → (values : List SqlValue) → passes self.now values ≡ true }
    {
        self.test.is_none()
    }

    /// Whether a row matches: no WHERE, or one that is true of it. Takes no memory, compares no name,
    /// and reads a value only where a part of the WHERE needs it: behind an AND that has failed, or an
    /// OR that holds, nothing is read.
    pub fn matches<'a>(&'a self, row: &RowRef<'a>) -> bool
        ensures { result ≡ passes self.now (values_in (schema_in row.now) (row_in row.now)) }
    {
        match &self.test {
            None => true,
            Some(test) => matches!(met(*row, test), Truth::Holds),
        }
    }
}

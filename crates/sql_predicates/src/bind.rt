//! Binds predicates to the columns of a table.

ghost use Rattle.std.specs.Prelude.{◌≡◌, IfOk, List, map};
ghost use Rattle.row_values.specs.Column.{column_of};
ghost use Rattle.row_values.specs.Value.{Value as SqlValue, value_of};
ghost use Rattle.sql_semantics.specs.Checked.{first_fault};
ghost use Rattle.sql_semantics.specs.Classes.{comparison_fault, predicate_fault};
ghost use Rattle.sql_semantics.specs.Truth.{compared, truth};
ghost use Rattle.sql_semantics.specs.Values.{term_value};
ghost use Rattle.sql_predicates.specs.Binding.{RefusedFor};
ghost use Rattle.sql_predicates.specs.Test.{met};

use crate::operand::{Operand, are_one_class, column};
use crate::test::Test;
use core_calls::{SqlFault, StatementError};
use row_values::{Column, Value};
use sql_lex::Comparison;
use sql_text::{Predicate, Term};
use sqlite_items::{Boxed, Items};
use std::alloc::Global;

#[tactic(auto, unfolding(crate::specs::Test::met), using(crate::proofs::Faults::one_class, crate::proofs::Faults::two_classes))]
fn comparison(
    alloc: Global,
    columns: &[Column],
    params: &[Value<'_>],
    a: &Term<'_>,
    comparison: Comparison,
    b: &Term<'_>,
) -> Result<Test, StatementError>
    ensures fault { RefusedFor (comparison_fault (map value_of params.now) (map column_of columns.now) a.now b.now) result }
    ensures meaning { IfOk result (λ test. (values : List SqlValue) → met values test ≡ compared comparison (term_value (map value_of params.now) (map column_of columns.now) values a.now) (term_value (map value_of params.now) (map column_of columns.now) values b.now)) }
{
    let (first, first_class) = Operand::bind(alloc, columns, params, a)?;
    let (second, second_class) = Operand::bind(alloc, columns, params, b)?;
    if !are_one_class(first_class, second_class) {
        return Err(StatementError::Fault(SqlFault::TypeMismatch));
    }
    Ok(Test::Compare(first, comparison, second))
}

/// A predicate with its names and literals resolved; of one part alone it is that part. It is refused for the first fault from left to
/// right: a name that is no column, or terms of two classes.
#[cycle(bind)]
#[tactic(auto, unfolding(crate::specs::Test::met, sql_semantics::specs::Truth::truth, sql_semantics::specs::Classes::predicate_fault))]
pub(crate) fn bound<'a, 'b, 'v>(
    alloc: Global,
    columns: &'a [Column],
    params: &'a [Value<'v>],
    predicate: &'a Predicate<'b>,
) -> Result<Test, StatementError>
    ensures fault { RefusedFor (predicate_fault (map value_of params.now) (map column_of columns.now) predicate.now) result }
    ensures meaning { IfOk result (λ test. (values : List SqlValue) → met values test ≡ truth (map value_of params.now) (map column_of columns.now) values predicate.now) }
{
    match predicate {
        Predicate::Any(parts) => {
            let parts = parts.as_slice();
            if let [part] = parts {
                let test = bound(alloc, columns, params, part)?;
                return Ok(test);
            }
            let tests = parts_bound(alloc, columns, params, parts)?;
            Ok(Test::Any(tests))
        }
        Predicate::All(parts) => {
            let parts = parts.as_slice();
            if let [part] = parts {
                let test = bound(alloc, columns, params, part)?;
                return Ok(test);
            }
            let tests = parts_bound(alloc, columns, params, parts)?;
            Ok(Test::All(tests))
        }
        Predicate::Not(part) => {
            let test = bound(alloc, columns, params, part.get())?;
            Ok(Test::Not(Boxed::new(alloc, test)?))
        }
        Predicate::Group(part) => {
            let test = bound(alloc, columns, params, part.get())?;
            Ok(test)
        }
        Predicate::Compare(a, comparison, b) => {
            self::comparison(alloc, columns, params, a, *comparison, b)
        }
        Predicate::IsNull(name, negative) => {
            let (place, _) = column(columns, name.bytes())?;
            Ok(Test::IsNull(place, *negative))
        }
    }
}

#[cycle(bind)]
fn parts_bound<'a, 'b, 'v>(
    alloc: Global,
    columns: &'a [Column],
    params: &'a [Value<'v>],
    parts: &'a [Predicate<'b>],
) -> Result<Items<Test>, StatementError>
    ensures fault { RefusedFor (first_fault (map (predicate_fault (map value_of params.now) (map column_of columns.now)) parts.now)) result }
    ensures meaning { IfOk result (λ tests. (values : List SqlValue) → map (met values) tests ≡ map (truth (map value_of params.now) (map column_of columns.now) values) parts.now) }
{
    let mut tests = Items::new(alloc);
    for part in parts {
        let test = bound(alloc, columns, params, part)?;
        tests.push(test)?;
    }
    Ok(tests)
}

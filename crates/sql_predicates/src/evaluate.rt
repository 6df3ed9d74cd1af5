//! Tests rows by their values.

ghost use Rattle.std.specs.Prelude.{◌≡◌, map};
ghost use Rattle.row_values.specs.Row.{values_in};
ghost use Rattle.row_values.specs.RowView.{row_in, schema_in};
ghost use Rattle.row_values.specs.Value.{value_of};
ghost use Rattle.sql_semantics.specs.Truth as spec;
ghost use Rattle.sql_predicates.specs.Test.{met};

use crate::operand::value_at;
use crate::test::Test;
use row_values::{RowRef, Value};
use sql_lex::Comparison;
use sql_semantics::Truth;

fn negated(truth: Truth) -> Truth
    ensures { result ≡ spec.negated truth }
{
    match truth {
        Truth::Holds => Truth::Fails,
        Truth::Fails => Truth::Holds,
        Truth::Unknown => Truth::Unknown,
    }
}

// AND
fn both(a: Truth, b: Truth) -> Truth
    ensures { result ≡ spec.both a b }
{
    match (a, b) {
        (Truth::Fails, _) => Truth::Fails,
        (Truth::Holds, other) => other,
        (Truth::Unknown, Truth::Fails) => Truth::Fails,
        (Truth::Unknown, _) => Truth::Unknown,
    }
}

// OR
fn either(a: Truth, b: Truth) -> Truth
    ensures { result ≡ spec.either a b }
{
    match (a, b) {
        (Truth::Holds, _) => Truth::Holds,
        (Truth::Fails, other) => other,
        (Truth::Unknown, Truth::Holds) => Truth::Holds,
        (Truth::Unknown, _) => Truth::Unknown,
    }
}

fn truth_of(test: bool) -> Truth
    ensures { result ≡ spec.truth_of test }
{
    if test { Truth::Holds } else { Truth::Fails }
}

fn is_null(value: &Value<'_>) -> bool
    ensures { result ≡ spec.is_null (value_of value.now) }
{
    matches!(value, Value::Null)
}

// With NULL a comparison is unknown.
#[tactic(auto, unfolding(sql_semantics::specs::Truth::compared))]
fn compared(comparison: Comparison, a: &Value<'_>, b: &Value<'_>) -> Truth
    ensures { result ≡ spec.compared comparison (value_of a.now) (value_of b.now) }
{
    if is_null(a) || is_null(b) {
        return Truth::Unknown;
    }
    let order = a.order(b);
    truth_of(match comparison {
        Comparison::Equal => order.is_eq(),
        Comparison::NotEqual => order.is_ne(),
        Comparison::Less => order.is_lt(),
        Comparison::LessEqual => order.is_le(),
        Comparison::Greater => order.is_gt(),
        Comparison::GreaterEqual => order.is_ge(),
    })
}

/// What the test says of the row.
#[cycle(met)]
#[tactic(auto, unfolding(crate::specs::Test::met))]
pub(crate) fn met<'a>(row: RowRef<'a>, test: &'a Test) -> Truth
    ensures { result ≡ met (values_in (schema_in row.entry) (row_in row.entry)) test.now }
{
    match test {
        Test::Any(tests) => any_of(row, tests.as_slice()),
        Test::All(tests) => all_of(row, tests.as_slice()),
        Test::Not(test) => negated(met(row, test.get())),
        Test::Compare(a, comparison, b) => {
            let first = a.value(row);
            let second = b.value(row);
            compared(*comparison, &first, &second)
        }
        Test::IsNull(place, negative) => {
            let value = value_at(row, *place);
            truth_of(is_null(&value) != *negative)
        }
    }
}

// The first part that holds decides.
#[cycle(met)]
fn any_of<'a>(row: RowRef<'a>, tests: &'a [Test]) -> Truth
    ensures { result ≡ spec.any_of (map (met (values_in (schema_in row.entry) (row_in row.entry))) tests.now) }
{
    let mut found = Truth::Fails;
    for test in tests {
        match either(found, met(row, test)) {
            Truth::Holds => return Truth::Holds,
            other => found = other,
        }
    }
    found
}

// The first part that fails decides.
#[cycle(met)]
fn all_of<'a>(row: RowRef<'a>, tests: &'a [Test]) -> Truth
    ensures { result ≡ spec.all_of (map (met (values_in (schema_in row.entry) (row_in row.entry))) tests.now) }
{
    let mut found = Truth::Holds;
    for test in tests {
        match both(found, met(row, test)) {
            Truth::Fails => return Truth::Fails,
            other => found = other,
        }
    }
    found
}

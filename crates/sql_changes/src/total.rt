//! What sums come to in a row.

ghost use Rattle.std.specs.Prelude.{◌+ℤ◌, ◌-ℤ◌};
ghost use Rattle.drda_words.specs.Excuse.{Answers};
ghost use Rattle.row_values.specs.Row.{values_in};
ghost use Rattle.row_values.specs.RowView.{row_in, schema_in};
ghost use Rattle.row_values.specs.Value.{value_of};
ghost use Rattle.sql_semantics.specs.Update as update;
ghost use Rattle.core_calls.specs.StatementError.{fault_of};
ghost use Rattle.sql_changes.specs.Assigned.{total};

use crate::sum::BoundSum;
use core_calls::{SqlFault, StatementError};
use row_values::{RowRef, Value};
use sql_text::Operation;

// The sum of two numbers, where it lies in BIGINT.
fn added<'a>(a: i64, b: i64) -> Result<Value<'a>, StatementError>
    ensures { Answers value_of fault_of result (update.bigint (a +ℤ b)) }
{
    match a.checked_add(b) {
        Some(sum) => Ok(Value::Number(sum)),
        None => Err(StatementError::Fault(SqlFault::OutOfRange)),
    }
}

// The difference of two numbers, where it lies in BIGINT.
fn subtracted<'a>(a: i64, b: i64) -> Result<Value<'a>, StatementError>
    ensures { Answers value_of fault_of result (update.bigint (a -ℤ b)) }
{
    match a.checked_sub(b) {
        Some(sum) => Ok(Value::Number(sum)),
        None => Err(StatementError::Fault(SqlFault::OutOfRange)),
    }
}

// A partial sum, which lies in BIGINT; with NULL it is NULL.
fn summed<'a>(operation: Operation, a: Value<'a>, b: Value<'a>) -> Result<Value<'a>, StatementError>
    ensures { Answers value_of fault_of result (update.summed operation (value_of a.entry) (value_of b.entry)) }
{
    match (operation, a, b) {
        (Operation::Add, Value::Number(a), Value::Number(b)) => added(a, b),
        (Operation::Subtract, Value::Number(a), Value::Number(b)) => subtracted(a, b),
        _ => Ok(Value::Null),
    }
}

/// What a sum comes to in a row: its terms from left to right, each partial sum in BIGINT.
pub(crate) fn total<'a>(row: RowRef<'a>, sum: &'a BoundSum) -> Result<Value<'a>, StatementError>
    ensures { Answers value_of fault_of result (total (values_in (schema_in row.entry) (row_in row.entry)) sum.now) }
{
    let mut value = sum.first.value(row);
    let mut left = sum.rest.as_slice();
    'addends: while let [addend, rest @ ..] = left {
        value = summed(addend.operation, value, addend.operand.value(row))?;
        left = rest;
    }
    Ok(value)
}

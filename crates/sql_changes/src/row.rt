//! Rows of values.

ghost use Rattle.std.specs.Prelude.{◌≡◌, ◌≤◌, IfOk, IsTrue, Ok, length, map, nat_le};
ghost use Rattle.drda_words.specs.Excuse.{Answers};
ghost use Rattle.row_values.specs.Column.{column_of};
ghost use Rattle.row_values.specs.Row.{all_fit, row_bytes};
ghost use Rattle.row_values.specs.Value.{value_of};
ghost use Rattle.sql_semantics.specs.Checked as checked;
ghost use Rattle.sql_semantics.specs.Insert as insert;
ghost use Rattle.sql_predicates.specs.Constant.{constant_value};
ghost use Rattle.core_calls.specs.declared.sql_fault.SqlFault.TheVariants as fault;
ghost use Rattle.core_calls.specs.StatementError.{fault_of};

use core_calls::{SqlFault, StatementError};
use row_values::{Column, Misfit, RowError, Schema, Value, are_row, encode_row};
use sql_predicates::Constant;
use std::alloc::{AllocError, Global};

/// The fault of a value that does not fit its column.
pub(crate) fn misfit_fault(misfit: Misfit) -> SqlFault
    ensures { result ≡ checked.misfit_fault misfit }
{
    match misfit {
        Misfit::WrongClass => SqlFault::TypeMismatch,
        Misfit::IsNull => SqlFault::NullGiven,
        Misfit::OutOfRange => SqlFault::OutOfRange,
        Misfit::TooLong => SqlFault::TooLong,
    }
}

/// Judges whether these values are a row: the first one that does not fit its column is at fault; it
/// is a syntax error where there is not one value for each column.
pub(crate) fn judge(mut columns: &[Column], mut values: &[Constant]) -> Result<(), SqlFault>
    ensures { result ≡ checked.if_none (insert.first_misfit (map column_of columns.entry.now) (map constant_value values.entry.now)) (checked.unless (all_fit (map column_of columns.entry.now) (map constant_value values.entry.now)) fault.Syntax (Ok tt)) }
{
    'columns: while let [column, columns_after @ ..] = columns {
        let [value, values_after @ ..] = values else {
            return Err(SqlFault::Syntax);
        };
        if let Err(misfit) = column.admit(&value.value()) {
            return Err(misfit_fault(misfit));
        }
        columns = columns_after;
        values = values_after;
    }
    if !values.is_empty() {
        return Err(SqlFault::Syntax);
    }
    Ok(())
}

/// The bytes of the row of values that fit. A limit is reached where it has more than 4,000.
pub(crate) fn encoded(
    alloc: Global,
    schema: &Schema,
    values: &[Value<'_>],
) -> Result<Vec<u8>, StatementError>
    requires { IsTrue (all_fit schema.now.columns (map value_of values.now)) }
    ensures exact { Answers (λ row. row.items) fault_of result (checked.unless (nat_le (length (row_bytes schema.now.columns (map value_of values.now))) 4000) fault.LimitReached (Ok (row_bytes schema.now.columns (map value_of values.now)))) }
    ensures short { IfOk result (λ row. length row.items ≤ 4000) }
{
    match encode_row(alloc, schema, values) {
        Ok(row) => Ok(row),
        Err(RowError::TooLong) => Err(StatementError::Fault(SqlFault::LimitReached)),
        Err(RowError::NoMemory) => Err(StatementError::NoMemory),
    }
}

/// The bytes of the row of these values. It is a syntax error where there is not one value for each
/// column, or one does not fit; a limit is reached where the row has more than 4,000 bytes.
pub(crate) fn new_row(
    alloc: Global,
    schema: &Schema,
    values: &[Value<'_>],
) -> Result<Vec<u8>, StatementError>
    ensures exact { Answers (λ row. row.items) fault_of result (insert.new_row schema.now (map value_of values.now)) }
    ensures short { IfOk result (λ row. length row.items ≤ 4000) }
{
    if !are_row(schema, values) {
        return Err(StatementError::Fault(SqlFault::Syntax));
    }
    encoded(alloc, schema, values)
}

/// The values, borrowed.
pub(crate) fn borrowed<'a>(
    alloc: Global,
    constants: &'a [Constant],
) -> Result<Vec<Value<'a>>, AllocError>
    ensures { IfOk result (λ values. map value_of values.items ≡ map constant_value constants.now) }
{
    let mut values = Vec::with_capacity(alloc, constants.len())?;
    let mut left = constants;
    'constants: while let [constant, rest @ ..] = left {
        values.push(constant.value())?;
        left = rest;
    }
    Ok(values)
}

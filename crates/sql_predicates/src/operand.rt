//! Terms whose names and literals are resolved.

ghost use Rattle.std.specs.Prelude.{◌≡◌, ◌||◌, ◌==◌, IfOk, List, map};
ghost use Rattle.drda_words.specs.Excuse.{Answers};
ghost use Rattle.row_values.specs.Column.{column_of};
ghost use Rattle.row_values.specs.Row.{values_in};
ghost use Rattle.row_values.specs.RowView.{row_in, schema_in};
ghost use Rattle.row_values.specs.Value.{Value as SqlValue, class_of, value_of};
ghost use Rattle.sql_semantics.specs.Classes.{column_class, column_named, kind_class, term_class};
ghost use Rattle.sql_semantics.specs.Values.{named_value, term_value};
ghost use Rattle.core_calls.specs.StatementError.{fault_of};
ghost use Rattle.sql_predicates.specs.Test.{operand_value, value_at};

use crate::{Constant, column_place};
use core_calls::{SqlFault, StatementError};
use row_values::{Column, Kind, RowRef, Value};
use sql_text::Term;
use std::alloc::Global;

/// A term whose name or literal is resolved: a column by its place, or a value.
#[derive(Debug, Drop)]
pub enum Operand {
    Column(usize),
    Value(Constant),
}

impl Operand {
    /// What a term stands for, with these values for the markers, and the class of its values, by
    /// its place in the order of values: 0 for NULL, then numbers, texts and bytes. It is refused
    /// where the term names no column.
    pub fn bind(
        alloc: Global,
        columns: &[Column],
        params: &[Value<'_>],
        term: &Term<'_>,
    ) -> Result<(Operand, u8), StatementError>
        ensures class { Answers (λ x. x.1) fault_of result (term_class (map value_of params.now) (map column_of columns.now) term.now) }
        ensures value { IfOk result (λ x. (values : List SqlValue) → operand_value values x.0 ≡ term_value (map value_of params.now) (map column_of columns.now) values term.now) }
    {
        match term {
            Term::Column(name) => {
                let (place, class) = column(columns, name.bytes())?;
                Ok((Operand::Column(place), class))
            }
            Term::Value(literal) => {
                let constant = Constant::of_literal(alloc, literal, params)?;
                let class = value_class(&constant.value());
                Ok((Operand::Value(constant), class))
            }
        }
    }

    /// The value that it has in a row: the column's, or its own.
    pub fn value<'a>(&'a self, row: RowRef<'a>) -> Value<'a>
        ensures { value_of result ≡ operand_value (values_in (schema_in row.entry) (row_in row.entry)) self.now }
    {
        match self {
            Operand::Column(place) => value_at(row, *place),
            Operand::Value(constant) => constant.value(),
        }
    }
}

/// The class of the values of a type, by its place in the order of values.
pub fn kind_class(kind: Kind) -> u8
    ensures { result ≡ kind_class kind }
{
    match kind {
        Kind::SmallInt | Kind::Integer | Kind::BigInt => 1,
        Kind::VarChar => 2,
        Kind::VarBinary => 3,
    }
}

/// Whether values of these classes go together; NULL, of class 0, has every class.
pub fn are_one_class(a: u8, b: u8) -> bool
    ensures { result ≡ (a == b || a == 0 || b == 0) }
{
    a == b || a == 0 || b == 0
}

// The class of a value, by its place in the order of values.
fn value_class(value: &Value<'_>) -> u8
    ensures { result ≡ class_of (value_of value.now) }
{
    match value {
        Value::Null => 0,
        Value::Number(_) => 1,
        Value::Text(_) => 2,
        Value::Bytes(_) => 3,
    }
}

/// The place of the column of this name, and its class. It is refused where there is none.
pub(crate) fn column(columns: &[Column], name: &[u8]) -> Result<(usize, u8), StatementError>
    ensures class { Answers (λ x. x.1) fault_of result (column_class (column_named (map column_of columns.now) name.now)) }
    ensures place { IfOk result (λ x. (values : List SqlValue) → value_at values x.0 ≡ named_value (map column_of columns.now) values name.now) }
{
    let Some(place) = column_place(columns, name) else {
        return Err(StatementError::Fault(SqlFault::ColumnUnknown));
    };
    match columns.get(place) {
        Some(column) => Ok((place, kind_class(column.kind))),
        None => Err(StatementError::Fault(SqlFault::ColumnUnknown)),
    }
}

/// The value of the column of this place in a row. No schema has a column that is not there.
#[tactic(auto, using(crate::proofs::Places::no_value))]
pub(crate) fn value_at<'a>(row: RowRef<'a>, place: usize) -> Value<'a>
    ensures { value_of result ≡ value_at (values_in (schema_in row.entry) (row_in row.entry)) place }
{
    row_values::laws::rows_have_values_and_keys();
    let columns = row.schema().columns();
    if place < columns.len() {
        row.column(place)
    } else {
        Value::Null
    }
}

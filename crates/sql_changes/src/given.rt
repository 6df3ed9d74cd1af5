//! The row that an INSERT gives.

ghost use Rattle.std.specs.Prelude.{◌≡◌, ◌≤◌, ◌==◌, ◌∷◌, [], IfOk, IfSome, List, ℕ, length, map, option_map, true};
ghost use Rattle.std.specs.List.{slice_get};
ghost use Rattle.drda_words.specs.Excuse.{Answers};
ghost use Rattle.row_values.specs.Column.{column_of};
ghost use Rattle.row_values.specs.Schema.{is_name, picked};
ghost use Rattle.row_values.specs.Value.{value_of};
ghost use Rattle.tables.specs.ChangeView.{change_of};
ghost use Rattle.sql_semantics.specs.Checked.{if_none};
ghost use Rattle.sql_semantics.specs.Insert as insert;
ghost use Rattle.sql_semantics.specs.Keys.{key_of_values};
ghost use Rattle.sql_semantics.specs.Meaning.{Changes, insert_answer, put_answer, within_room};
ghost use Rattle.sql_semantics.specs.Values.{literal_value};
ghost use Rattle.sql_text.specs.declared.tree.Columns.TheVariants as columns;
ghost use Rattle.sql_predicates.specs.Constant.{constant_value};
ghost use Rattle.core_calls.specs.StatementError.{fault_of};
ghost use Rattle.sql_changes.specs.Given.{values_given};

use crate::place::{new_places, place_of};
use crate::row::{borrowed, encoded, judge};
use core_calls::{SqlFault, StatementError};
use row_values::{Column, Schema, Value};
use sql_lex::Part;
use sql_predicates::{Constant, key_of_values};
use sql_text::{Columns, Literal};
use std::alloc::{AllocError, Global};
use tables::Change;

/// The row that an INSERT gives: a value for each column, which may fit it or not.
#[derive(Drop)]
pub struct GivenRow {
    values: Vec<Constant>,
}

impl GivenRow {
    /// The row of these values for these columns, NULL in each other one. The columns are judged
    /// from left to right: one that the table has not is unknown, one that stands twice is a syntax
    /// error; and so is another number of values than of columns.
    pub fn bind(
        alloc: Global,
        schema: &Schema,
        columns: &Columns<'_>,
        values: &[Literal<'_>],
        params: &[Value<'_>],
    ) -> Result<GivenRow, StatementError>
        ensures { Answers values_given fault_of result (insert.given_row schema.now columns.now (map (literal_value (map value_of params.now)) values.now)) }
    {
        let values = match columns {
            Columns::All => in_order(alloc, schema, values, params)?,
            Columns::Named(names) => by_names(alloc, schema, names.as_slice(), values, params)?,
        };
        Ok(GivenRow { values })
    }

    /// The key of the row, at most 8,012 bytes, where the values of its columns fit them.
    pub fn key(&self, alloc: Global, schema: &Schema) -> Result<Option<Vec<u8>>, AllocError>
        ensures key { IfOk result (λ key. option_map (λ k. k.items) key ≡ key_of_values schema.now (picked (values_given self.now) schema.now.key)) }
        ensures short { IfOk result (λ key. IfSome key (λ k. length k.items ≤ 8012)) }
    {
        let constants = self.values.as_slice();
        if let [place] = schema.key() {
            return match value_at(constants, *place) {
                Some(value) => key_of_values(alloc, schema, &[value]),
                None => key_of_values(alloc, schema, &[]),
            };
        }
        let values = picked(alloc, constants, schema.key())?;
        key_of_values(alloc, schema, values.as_slice())
    }

    /// The change that puts the row into the table of this name, which is in capitals, where no row
    /// has its key. It is refused for the first value, in the order of the columns, that does not
    /// fit, for a row over 4,000 bytes, for its key where a row has it, and where the change has
    /// more bytes than are left.
    pub fn put(
        &self,
        alloc: Global,
        table: &str,
        schema: &Schema,
        is_free: bool,
        left: usize,
    ) -> Result<Change, StatementError>
        requires { is_name table.now ≡ true }
        ensures { (others : List (List ℕ)) → (length others == 0) ≡ is_free → Answers (λ change. Changes (change_of change ∷ []) 1) fault_of result (put_answer left table.now schema.now others (values_given self.now)) }
    {
        let row = self.row(alloc, schema)?;
        if !is_free {
            return Err(StatementError::Fault(SqlFault::KeyExists));
        }
        within(left, Change::put(String::from_str(alloc, table)?, row))
    }

    // The bytes of the row, where its values fit the columns.
    fn row(&self, alloc: Global, schema: &Schema) -> Result<Vec<u8>, StatementError>
        ensures exact { Answers (λ row. row.items) fault_of result (if_none (insert.first_misfit schema.now.columns (values_given self.now)) (insert.new_row schema.now (values_given self.now))) }
        ensures short { IfOk result (λ row. length row.items ≤ 4000) }
    {
        judge(schema.columns(), self.values.as_slice())?;
        let values = borrowed(alloc, self.values.as_slice())?;
        encoded(alloc, schema, values.as_slice())
    }
}

// The change, where so many bytes are left for it.
fn within(left: usize, change: Change) -> Result<Change, StatementError>
    ensures { Answers (λ change. Changes (change_of change ∷ []) 1) fault_of result (within_room left (change_of change ∷ []) 1) }
{
    if change.length() > left {
        return Err(StatementError::Fault(SqlFault::LimitReached));
    }
    Ok(change)
}

/// The change that an INSERT makes, or its first fault. The table's name is in capitals; its key is
/// free where no row has the key that is given.
pub fn insert(
    alloc: Global,
    table: &str,
    schema: &Schema,
    columns: &Columns<'_>,
    values: &[Literal<'_>],
    params: &[Value<'_>],
    is_free: bool,
    left: usize,
) -> Result<Change, StatementError>
    requires { is_name table.now ≡ true }
    ensures { (others : List (List ℕ)) → (length others == 0) ≡ is_free → Answers (λ change. Changes (change_of change ∷ []) 1) fault_of result (insert_answer left table.now schema.now columns.now (map (literal_value (map value_of params.now)) values.now) others) }
{
    let row = GivenRow::bind(alloc, schema, columns, values, params)?;
    row.put(alloc, table, schema, is_free, left)
}

// A value for each column, in their order. No list of places is made of it.
#[tactic(auto, unfolding(sql_semantics::specs::Insert::given_row))]
fn in_order(
    alloc: Global,
    schema: &Schema,
    literals: &[Literal<'_>],
    params: &[Value<'_>],
) -> Result<Vec<Constant>, StatementError>
    ensures { Answers (λ row. map constant_value row.items) fault_of result (insert.given_row schema.now columns.All (map (literal_value (map value_of params.now)) literals.now)) }
{
    if schema.columns().len() != literals.len() {
        return Err(StatementError::Fault(SqlFault::Syntax));
    }
    let mut row = Vec::with_capacity(alloc, literals.len())?;
    let mut left = literals;
    'literals: while let [literal, rest @ ..] = left {
        row.push(Constant::of_literal(alloc, literal, params)?)?;
        left = rest;
    }
    Ok(row)
}

// The values that are given for these names, NULL in each other column.
#[tactic(auto, unfolding(sql_semantics::specs::Insert::given_row))]
fn by_names(
    alloc: Global,
    schema: &Schema,
    names: &[Part<'_>],
    literals: &[Literal<'_>],
    params: &[Value<'_>],
) -> Result<Vec<Constant>, StatementError>
    ensures { Answers (λ row. map constant_value row.items) fault_of result (insert.given_row schema.now (columns.Named names.now) (map (literal_value (map value_of params.now)) literals.now)) }
{
    let places = new_places(alloc, schema.columns(), names)?;
    if places.len() != literals.len() {
        return Err(StatementError::Fault(SqlFault::Syntax));
    }
    let row = given_values(alloc, schema.columns(), places.as_slice(), literals, params)?;
    Ok(row)
}

// A value for each column.
fn given_values(
    alloc: Global,
    columns: &[Column],
    places: &[usize],
    literals: &[Literal<'_>],
    params: &[Value<'_>],
) -> Result<Vec<Constant>, AllocError>
    ensures { IfOk result (λ row. map constant_value row.items ≡ insert.row_values (map column_of columns.now) (map (literal_value (map value_of params.now)) literals.now) places.now) }
{
    let mut row = Vec::with_capacity(alloc, columns.len())?;
    for column in 0..columns.len() {
        row.push(given(alloc, places, literals, params, column)?)?;
    }
    Ok(row)
}

// The value that is given for this column, NULL where none is.
fn given(
    alloc: Global,
    places: &[usize],
    literals: &[Literal<'_>],
    params: &[Value<'_>],
    column: usize,
) -> Result<Constant, AllocError>
    ensures { IfOk result (λ value. constant_value value ≡ insert.given places.now (map (literal_value (map value_of params.now)) literals.now) column) }
{
    let Some(place) = place_of(places, column) else {
        return Ok(Constant::Null);
    };
    match literals.get(place) {
        Some(literal) => Constant::of_literal(alloc, literal, params),
        None => Ok(Constant::Null),
    }
}

// The values of the columns at these places.
fn picked<'a>(
    alloc: Global,
    constants: &'a [Constant],
    places: &[u8],
) -> Result<Vec<Value<'a>>, AllocError>
    ensures { IfOk result (λ values. map value_of values.items ≡ picked (map constant_value constants.now) places.now) }
{
    let mut values = Vec::with_capacity(alloc, places.len())?;
    let mut left = places;
    'places: while let [place, rest @ ..] = left {
        left = rest;
        let Some(value) = value_at(constants, *place) else {
            continue 'places;
        };
        values.push(value)?;
    }
    Ok(values)
}

fn value_at<'a>(constants: &'a [Constant], place: u8) -> Option<Value<'a>>
    ensures { option_map value_of result ≡ slice_get (map constant_value constants.now) place }
{
    match constants.get(usize::from(place)) {
        Some(constant) => Some(constant.value()),
        None => None,
    }
}

//! The key that a predicate fixes.

ghost use Rattle.std.specs.Prelude.{◌≡◌, ◌≤◌, ◌∷◌, [], IfOk, IfSome, Some, length, map, option_map};
ghost use Rattle.std.specs.List.{list_all};
ghost use Rattle.std.specs.Option.{option_and_then, option_copied};
ghost use Rattle.row_values.specs.Column.{column_of};
ghost use Rattle.row_values.specs.Value.{value_of};
ghost use Rattle.sql_predicates.specs.Constant.{constant_value};
ghost use Rattle.sql_semantics.specs.Keys.{key_of_values};
ghost use Rattle.sql_semantics.specs.Scope as scope;
ghost use Rattle.sql_semantics.specs.Scope.{filter_key};
ghost use Rattle.sql_semantics.specs.Values.{literal_value};
ghost use Rattle.sql_predicates.specs.Parts.{fixed_in, is_plain, plain_in_all};

use crate::{Constant, column_place};
use row_values::{Column, Schema, Value, are_key, encode_key};
use sql_lex::Comparison;
use sql_text::{Literal, Predicate, Term};
use std::alloc::{AllocError, Global};

fn is_plain(predicate: &Predicate<'_>) -> bool
    ensures { result ≡ is_plain predicate.now }
{
    matches!(
        predicate,
        Predicate::Compare(_, _, _) | Predicate::IsNull(_, _)
    )
}

fn are_plain(parts: &[Predicate<'_>]) -> bool
    ensures { result ≡ list_all is_plain parts.now }
{
    parts.iter().all(|part| is_plain(part))
}

fn plain_in_all<'a, 'b>(predicate: &'a Predicate<'b>) -> &'a [Predicate<'b>]
    ensures { result.now ≡ plain_in_all predicate.now }
{
    match predicate {
        Predicate::All(parts) if are_plain(parts.as_slice()) => parts.as_slice(),
        _ => &[],
    }
}

// The parts of a conjunction without parentheses, OR and NOT; of any other predicate none.
#[tactic(auto, unfolding(sql_semantics::specs::Scope::conjuncts))]
fn conjuncts<'a, 'b>(predicate: &'a Predicate<'b>) -> &'a [Predicate<'b>]
    ensures { result.now ≡ scope.conjuncts predicate.now }
{
    match predicate {
        Predicate::Any(parts) => match parts.as_slice() {
            [part] => plain_in_all(part),
            _ => &[],
        },
        _ => &[],
    }
}

// The value of the literal, where it is not NULL and fits the column.
fn fitting(
    alloc: Global,
    column: &Column,
    params: &[Value<'_>],
    literal: &Literal<'_>,
) -> Result<Option<Constant>, AllocError>
    ensures { IfOk result (λ found. option_map constant_value found ≡ scope.fitting (Some (column_of column.now)) (literal_value (map value_of params.now) literal.now)) }
{
    let constant = Constant::of_literal(alloc, literal, params)?;
    if matches!(constant, Constant::Null) || column.admit(&constant.value()).is_err() {
        return Ok(None);
    }
    Ok(Some(constant))
}

// The value that `name = literal` gives to the column of this place.
fn equated_to(
    alloc: Global,
    columns: &[Column],
    params: &[Value<'_>],
    place: usize,
    name: &[u8],
    literal: &Literal<'_>,
) -> Result<Option<Constant>, AllocError>
    ensures { IfOk result (λ found. option_map constant_value found ≡ scope.fit_at (map column_of columns.now) place name.now (literal_value (map value_of params.now) literal.now)) }
{
    match column_place(columns, name) {
        Some(found) if found == place => match columns.get(place) {
            Some(column) => fitting(alloc, column, params, literal),
            None => Ok(None),
        },
        _ => Ok(None),
    }
}

// The value that the part gives to the column of this place.
fn fixed_in(
    alloc: Global,
    columns: &[Column],
    params: &[Value<'_>],
    place: usize,
    part: &Predicate<'_>,
) -> Result<Option<Constant>, AllocError>
    ensures { IfOk result (λ found. option_map constant_value found ≡ fixed_in (map value_of params.now) (map column_of columns.now) place part.now) }
{
    match part {
        Predicate::Compare(a, Comparison::Equal, b) => match (a, b) {
            (Term::Column(name), Term::Value(literal))
            | (Term::Value(literal), Term::Column(name)) => {
                equated_to(alloc, columns, params, place, name.bytes(), literal)
            }
            _ => Ok(None),
        },
        _ => Ok(None),
    }
}

// The value that the first of the parts gives that fixes the column of this place.
fn fixed(
    alloc: Global,
    columns: &[Column],
    params: &[Value<'_>],
    place: usize,
    parts: &[Predicate<'_>],
) -> Result<Option<Constant>, AllocError>
    ensures { IfOk result (λ found. option_map constant_value found ≡ scope.fixed (map value_of params.now) (map column_of columns.now) place parts.now) }
{
    for part in parts {
        let found = fixed_in(alloc, columns, params, place, part)?;
        if found.is_some() {
            return Ok(found);
        }
    }
    Ok(None)
}

// The values of these places, where each is fixed.
fn all_fixed(
    alloc: Global,
    columns: &[Column],
    params: &[Value<'_>],
    places: &[u8],
    parts: &[Predicate<'_>],
) -> Result<Option<Vec<Constant>>, AllocError>
    ensures { IfOk result (λ found. option_map (λ constants. map constant_value constants.items) found ≡ scope.all_fixed (map value_of params.now) (map column_of columns.now) places.now parts.now) }
{
    let mut constants = Vec::new(alloc);
    for place in places {
        let found = fixed(alloc, columns, params, usize::from(*place), parts)?;
        let Some(constant) = found else {
            return Ok(None);
        };
        constants.push(constant)?;
    }
    Ok(Some(constants))
}

/// The key of these values, one for each column of the key, where each fits its column; at most 8,012
/// bytes, in new memory.
#[tactic(auto, unfolding(sql_semantics::specs::Keys::key_of_values))]
pub fn key_of_values(
    alloc: Global,
    schema: &Schema,
    values: &[Value<'_>],
) -> Result<Option<Vec<u8>>, AllocError>
    ensures key { IfOk result (λ found. option_map (λ key. key.items) found ≡ key_of_values schema.now (map value_of values.now)) }
    ensures short { IfOk result (λ found. IfSome found (λ key. length key.items ≤ 8012)) }
{
    if !are_key(schema, values) {
        return Ok(None);
    }
    Ok(Some(encode_key(alloc, schema, values)?))
}

// The values of constants.
fn borrowed(alloc: Global, constants: &[Constant]) -> Result<Vec<Value<'_>>, AllocError>
    ensures { IfOk result (λ values. map value_of values.items ≡ map constant_value constants.now) }
{
    let mut values = Vec::new(alloc);
    for constant in constants {
        values.push(constant.value())?;
    }
    Ok(values)
}

// The key that the parts fix, which is the one column of this place.
fn key_of_one(
    alloc: Global,
    schema: &Schema,
    place: u8,
    parts: &[Predicate<'_>],
    params: &[Value<'_>],
) -> Result<Option<Vec<u8>>, AllocError>
    ensures key { IfOk result (λ found. option_map (λ key. key.items) found ≡ option_and_then (key_of_values schema.now) (scope.all_fixed (map value_of params.now) schema.now.columns (place ∷ []) parts.now)) }
    ensures short { IfOk result (λ found. IfSome found (λ key. length key.items ≤ 8012)) }
{
    let found = fixed(alloc, schema.columns(), params, usize::from(place), parts)?;
    match found {
        Some(constant) => key_of_values(alloc, schema, &[constant.value()]),
        None => Ok(None),
    }
}

#[tactic(auto, unfolding(sql_semantics::specs::Scope::fixed_key))]
fn predicate_key(
    alloc: Global,
    schema: &Schema,
    predicate: &Predicate<'_>,
    params: &[Value<'_>],
) -> Result<Option<Vec<u8>>, AllocError>
    ensures key { IfOk result (λ found. option_map (λ key. key.items) found ≡ scope.fixed_key (map value_of params.now) schema.now predicate.now) }
    ensures short { IfOk result (λ found. IfSome found (λ key. length key.items ≤ 8012)) }
{
    let parts = conjuncts(predicate);
    if let [place] = schema.key() {
        return key_of_one(alloc, schema, *place, parts, params);
    }
    let found = all_fixed(alloc, schema.columns(), params, schema.key(), parts)?;
    let Some(constants) = found else {
        return Ok(None);
    };
    let values = borrowed(alloc, constants.as_slice())?;
    key_of_values(alloc, schema, values.as_slice())
}

/// The key that a WHERE fixes: it is comparisons and tests for NULL with AND between them, without
/// parentheses and NOT, and for each column of the key one of them is `=` with a value that is not
/// NULL and fits the column; the first such value counts. The key has at most 8,012 bytes.
pub fn fixed_key(
    alloc: Global,
    schema: &Schema,
    filter: Option<&Predicate<'_>>,
    params: &[Value<'_>],
) -> Result<Option<Vec<u8>>, AllocError>
    ensures key { IfOk result (λ found. option_map (λ key. key.items) found ≡ filter_key (map value_of params.now) schema.now (option_copied filter.entry)) }
    ensures short { IfOk result (λ found. IfSome found (λ key. length key.items ≤ 8012)) }
{
    match filter {
        None => Ok(None),
        Some(predicate) => predicate_key(alloc, schema, predicate, params),
    }
}

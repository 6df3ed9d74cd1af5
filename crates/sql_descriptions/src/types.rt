//! The types that parameters are given as.

ghost use Rattle.std.specs.Prelude.{◌≡◌, ◌∷◌, ◌++◌, IfOk, List, None, map};
ghost use Rattle.row_values.specs.Column.{column_of};
ghost use Rattle.sql_text.specs.declared.tree.Literal.{Literal as TreeLiteral};
ghost use Rattle.sql_semantics.specs.Describe as describe;

use core_calls::ParameterType;
use row_values::{Column, Kind};
use sql_lex::Part;
use sql_predicates::column_place;
use sql_text::{Columns, Term};
use std::alloc::{AllocError, Global};

/// The type of what is given to no column, and compared with none.
pub(crate) fn bigint() -> ParameterType
    ensures { result ≡ describe.type_of None }
{
    ParameterType {
        kind: Kind::BigInt,
        limit: 0,
    }
}

// The type of what is given to this column, or compared with it.
fn type_of(column: &Column) -> ParameterType
    ensures { result ≡ describe.type_of (Some (column_of column.now)) }
{
    ParameterType {
        kind: column.kind,
        limit: column.length,
    }
}

/// The type of the column of this name, BIGINT where there is none.
#[tactic(auto, unfolding(sql_semantics::specs::Describe::named_type))]
pub(crate) fn named_type(columns: &[Column], name: &[u8]) -> ParameterType
    ensures { result ≡ describe.named_type (map column_of columns.now) name.now }
{
    let Some(place) = column_place(columns, name) else {
        return bigint();
    };
    match columns.get(place) {
        Some(column) => type_of(column),
        None => bigint(),
    }
}

/// The type of what is compared with this term.
pub(crate) fn term_type(columns: &[Column], term: &Term<'_>) -> ParameterType
    ensures { result ≡ describe.term_type (map column_of columns.now) term.now }
{
    match term {
        Term::Column(name) => named_type(columns, name.bytes()),
        Term::Value(_) => bigint(),
    }
}

/// The types of the columns that an INSERT gives, from left to right.
pub(crate) fn column_types(
    alloc: Global,
    columns: &[Column],
    named: &Columns<'_>,
) -> Result<Vec<ParameterType>, AllocError>
    ensures { IfOk result (λ types. types.items ≡ describe.column_types (map column_of columns.now) named.now) }
{
    match named {
        Columns::All => all_types(alloc, columns),
        Columns::Named(names) => named_types(alloc, columns, names.as_slice()),
    }
}

fn all_types(alloc: Global, columns: &[Column]) -> Result<Vec<ParameterType>, AllocError>
    ensures { IfOk result (λ types. types.items ≡ map (λ c. describe.type_of (Some c)) (map column_of columns.now)) }
{
    let mut types = Vec::with_capacity(alloc, columns.len())?;
    let mut left = columns;
    'columns: while let [column, rest @ ..] = left {
        types.push(type_of(column))?;
        left = rest;
    }
    Ok(types)
}

fn named_types(
    alloc: Global,
    columns: &[Column],
    names: &[Part<'_>],
) -> Result<Vec<ParameterType>, AllocError>
    ensures { IfOk result (λ types. types.items ≡ map (describe.named_type (map column_of columns.now)) names.now) }
{
    let mut types = Vec::with_capacity(alloc, names.len())?;
    let mut left = names;
    'names: while let [name, rest @ ..] = left {
        types.push(named_type(columns, name.bytes()))?;
        left = rest;
    }
    Ok(types)
}

/// The first of the types that values are given as, and the others: BIGINT where there is none.
pub(crate) fn first_type(types: &[ParameterType]) -> (ParameterType, &[ParameterType])
    ensures { (v : TreeLiteral) (vs : List TreeLiteral) → describe.given_types types.now (v ∷ vs) ≡ describe.literal_types result.0 v ++ describe.given_types result.1.now vs }
{
    match types {
        [first, rest @ ..] => (*first, rest),
        [] => (bigint(), types),
    }
}

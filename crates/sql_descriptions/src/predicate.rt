//! The types of the parameters of predicates.

ghost use Rattle.std.specs.Prelude.{◌≡◌, ◌++◌, OnOk, map};
ghost use Rattle.row_values.specs.Column.{column_of};
ghost use Rattle.sql_semantics.specs.Describe as describe;

use crate::parameter::add_term;
use crate::types::term_type;
use core_calls::ParameterType;
use row_values::Column;
use sql_text::{Predicate, Term};
use std::alloc::AllocError;

fn add_comparison(
    types: &mut Vec<ParameterType>,
    columns: &[Column],
    a: &Term<'_>,
    b: &Term<'_>,
) -> Result<(), AllocError>
    ensures { OnOk result (types.new.items ≡ types.old.items ++ (describe.term_types (describe.term_type (map column_of columns.now) b.now) a.now ++ describe.term_types (describe.term_type (map column_of columns.now) a.now) b.now)) }
{
    add_term(types, term_type(columns, b), a)?;
    add_term(types, term_type(columns, a), b)
}

/// Adds the types of a predicate's markers: each has that of the column that it is compared with,
/// BIGINT where it is compared with none.
#[cycle(walk)]
#[tactic(auto, unfolding(sql_semantics::specs::Describe::predicate_types))]
pub(crate) fn add_predicate<'a, 'b>(
    types: &mut Vec<ParameterType>,
    columns: &'a [Column],
    predicate: &'a Predicate<'b>,
) -> Result<(), AllocError>
    ensures { OnOk result (types.new.items ≡ types.old.items ++ describe.predicate_types (map column_of columns.now) predicate.now) }
{
    match predicate {
        Predicate::Any(parts) => add_parts(types, columns, parts.as_slice()),
        Predicate::All(parts) => add_parts(types, columns, parts.as_slice()),
        Predicate::Not(part) => add_predicate(types, columns, part.get()),
        Predicate::Group(part) => add_predicate(types, columns, part.get()),
        Predicate::Compare(a, _, b) => add_comparison(types, columns, a, b),
        Predicate::IsNull(_, _) => Ok(()),
    }
}

#[cycle(walk)]
fn add_parts<'a, 'b>(
    types: &mut Vec<ParameterType>,
    columns: &'a [Column],
    parts: &'a [Predicate<'b>],
) -> Result<(), AllocError>
    ensures { OnOk result (types.new.items ≡ types.old.items ++ describe.joined (map (describe.predicate_types (map column_of columns.now)) parts.now)) }
{
    for part in parts {
        add_predicate(types, columns, part)?;
    }
    Ok(())
}

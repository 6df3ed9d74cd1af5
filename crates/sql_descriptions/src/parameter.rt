//! The types of a statement's parameters.

ghost use Rattle.std.specs.Prelude.{◌≡◌, ◌++◌, IfOk, OnOk, map};
ghost use Rattle.std.specs.List.{flat_map};
ghost use Rattle.std.specs.Option.{option_copied};
ghost use Rattle.row_values.specs.Column.{column_of};
ghost use Rattle.sql_semantics.specs.Describe as describe;

use crate::predicate::add_predicate;
use crate::types::{column_types, first_type, named_type};
use core_calls::ParameterType;
use row_values::Column;
use sql_text::{Addend, Assignment, Columns, Command, Literal, Predicate, Sum, Term};
use std::alloc::{AllocError, Global};

// Adds the type of a literal, where it is a marker.
fn add_literal(
    types: &mut Vec<ParameterType>,
    given_as: ParameterType,
    literal: &Literal<'_>,
) -> Result<(), AllocError>
    ensures { OnOk result (types.new.items ≡ types.old.items ++ describe.literal_types given_as literal.now) }
{
    match literal {
        Literal::Marker(_) => types.push(given_as)?,
        _ => {}
    }
    Ok(())
}

/// Adds the type of a term, where it is a marker.
pub(crate) fn add_term(
    types: &mut Vec<ParameterType>,
    given_as: ParameterType,
    term: &Term<'_>,
) -> Result<(), AllocError>
    ensures { OnOk result (types.new.items ≡ types.old.items ++ describe.term_types given_as term.now) }
{
    match term {
        Term::Value(literal) => add_literal(types, given_as, literal),
        Term::Column(_) => Ok(()),
    }
}

// Adds the types of the values that an INSERT gives as these.
fn add_given(
    types: &mut Vec<ParameterType>,
    given_as: &[ParameterType],
    values: &[Literal<'_>],
) -> Result<(), AllocError>
    ensures { OnOk result (types.new.items ≡ types.old.items ++ describe.given_types given_as.now values.now) }
{
    let mut left = values;
    let mut types_left = given_as;
    'values: while let [value, rest @ ..] = left {
        let (first, others) = first_type(types_left);
        add_literal(types, first, value)?;
        left = rest;
        types_left = others;
    }
    Ok(())
}

fn add_addends(
    types: &mut Vec<ParameterType>,
    given_as: ParameterType,
    addends: &[Addend<'_>],
) -> Result<(), AllocError>
    ensures { OnOk result (types.new.items ≡ types.old.items ++ flat_map (λ a. describe.term_types given_as a.term) addends.now) }
{
    let mut left = addends;
    'addends: while let [addend, rest @ ..] = left {
        add_term(types, given_as, &addend.term)?;
        left = rest;
    }
    Ok(())
}

#[tactic(auto, unfolding(sql_semantics::specs::Describe::sum_types))]
fn add_sum(
    types: &mut Vec<ParameterType>,
    given_as: ParameterType,
    sum: &Sum<'_>,
) -> Result<(), AllocError>
    ensures { OnOk result (types.new.items ≡ types.old.items ++ describe.sum_types given_as sum.now) }
{
    add_term(types, given_as, &sum.first)?;
    add_addends(types, given_as, sum.rest.as_slice())
}

// Each marker of the sum has the type of the column that it is assigned to.
#[tactic(auto, unfolding(sql_semantics::specs::Describe::assignment_types))]
fn add_assignment(
    types: &mut Vec<ParameterType>,
    columns: &[Column],
    assignment: &Assignment<'_>,
) -> Result<(), AllocError>
    ensures { OnOk result (types.new.items ≡ types.old.items ++ describe.assignment_types (map column_of columns.now) assignment.now) }
{
    let given_as = named_type(columns, assignment.column.bytes());
    add_sum(types, given_as, &assignment.sum)
}

fn add_assignments(
    types: &mut Vec<ParameterType>,
    columns: &[Column],
    assignments: &[Assignment<'_>],
) -> Result<(), AllocError>
    ensures { OnOk result (types.new.items ≡ types.old.items ++ flat_map (describe.assignment_types (map column_of columns.now)) assignments.now) }
{
    let mut left = assignments;
    'assignments: while let [assignment, rest @ ..] = left {
        add_assignment(types, columns, assignment)?;
        left = rest;
    }
    Ok(())
}

fn add_filter(
    types: &mut Vec<ParameterType>,
    columns: &[Column],
    filter: Option<&Predicate<'_>>,
) -> Result<(), AllocError>
    ensures { OnOk result (types.new.items ≡ types.old.items ++ describe.filter_types (map column_of columns.now) (option_copied filter.entry)) }
{
    match filter {
        Some(predicate) => add_predicate(types, columns, predicate),
        None => Ok(()),
    }
}

fn add_values(
    alloc: Global,
    types: &mut Vec<ParameterType>,
    columns: &[Column],
    named: &Columns<'_>,
    values: &[Literal<'_>],
) -> Result<(), AllocError>
    ensures { OnOk result (types.new.items ≡ types.old.items ++ describe.given_types (describe.column_types (map column_of columns.now) named.now) values.now) }
{
    let given_as = column_types(alloc, columns, named)?;
    add_given(types, given_as.as_slice(), values)
}

/// The types of a statement's parameters, in the order of its markers. A marker has the type of the
/// column that it is given to or compared with, and each marker of a sum that of the column that the
/// sum is assigned to; else it is BIGINT.
pub(crate) fn parameter_types(
    alloc: Global,
    columns: &[Column],
    command: &Command<'_>,
) -> Result<Vec<ParameterType>, AllocError>
    ensures { IfOk result (λ types. types.items ≡ describe.parameter_types (map column_of columns.now) command.now) }
{
    let mut types = Vec::new(alloc);
    match command {
        Command::Create { .. } => {}
        Command::Insert {
            columns: named,
            values,
            ..
        } => add_values(alloc, &mut types, columns, named, values.as_slice())?,
        Command::Update {
            assignments,
            filter,
            ..
        } => {
            add_assignments(&mut types, columns, assignments.as_slice())?;
            add_filter(&mut types, columns, filter.as_ref())?
        }
        Command::Delete { filter, .. } | Command::Select { filter, .. } => {
            add_filter(&mut types, columns, filter.as_ref())?
        }
    }
    Ok(types)
}

//! Copies of values, and of the terms and sums that are made of them.

ghost use Rattle.std.specs.Prelude.{◌≡◌, IfOk};

use sql_text::{Addend, Literal, Sum, Term};
use sqlite_items::Items;
use std::alloc::{AllocError, Global};

fn copy_literal<'c>(alloc: Global, literal: &Literal<'_>) -> Result<Literal<'c>, AllocError>
    ensures { IfOk result (λ copy. copy ≡ literal.now) }
{
    match literal {
        Literal::Number(digits) => Ok(Literal::Number(digits.copy(alloc)?)),
        Literal::Text(spelled) => Ok(Literal::Text(spelled.copy(alloc)?)),
        Literal::Bytes(pairs) => Ok(Literal::Bytes(pairs.copy(alloc)?)),
        Literal::Marker(before) => Ok(Literal::Marker(*before)),
        Literal::Null => Ok(Literal::Null),
    }
}

/// The same values.
pub(crate) fn copy_values<'c>(
    alloc: Global,
    values: &[Literal<'_>],
) -> Result<Items<Literal<'c>>, AllocError>
    ensures { IfOk result (λ copies. copies ≡ values.now) }
{
    let mut copies = Items::new(alloc);
    for value in values {
        copies.push(copy_literal(alloc, value)?)?;
    }
    Ok(copies)
}

/// The same term.
pub(crate) fn copy_term<'c>(alloc: Global, term: &Term<'_>) -> Result<Term<'c>, AllocError>
    ensures { IfOk result (λ copy. copy ≡ term.now) }
{
    match term {
        Term::Column(name) => Ok(Term::Column(name.copy(alloc)?)),
        Term::Value(value) => Ok(Term::Value(copy_literal(alloc, value)?)),
    }
}

fn copy_addend<'c>(alloc: Global, addend: &Addend<'_>) -> Result<Addend<'c>, AllocError>
    ensures { IfOk result (λ copy. copy ≡ addend.now) }
{
    Ok(Addend {
        operation: addend.operation,
        term: copy_term(alloc, &addend.term)?,
    })
}

fn copy_addends<'c>(alloc: Global, addends: &[Addend<'_>]) -> Result<Items<Addend<'c>>, AllocError>
    ensures { IfOk result (λ copies. copies ≡ addends.now) }
{
    let mut copies = Items::new(alloc);
    for addend in addends {
        copies.push(copy_addend(alloc, addend)?)?;
    }
    Ok(copies)
}

/// The same sum.
pub(crate) fn copy_sum<'c>(alloc: Global, sum: &Sum<'_>) -> Result<Sum<'c>, AllocError>
    ensures { IfOk result (λ copy. copy ≡ sum.now) }
{
    Ok(Sum {
        first: copy_term(alloc, &sum.first)?,
        rest: copy_addends(alloc, sum.rest.as_slice())?,
    })
}

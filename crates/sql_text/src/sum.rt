//! Reads values, terms and sums.

ghost use Rattle.std.specs.Prelude.{◌≡◌};
ghost use Rattle.sql_lex.specs.Tokens.{tokens_ahead};
ghost use Rattle.sql_text.specs.Reading.{Yields, Keeps};
ghost use Rattle.sql_text.specs.Rules as spec;

use crate::fault::Fault;
use crate::list::longest;
use crate::token::{TermStart, ValueStart, digits, operation, start, term_start};
use crate::tree::{Addend, Literal, Sum, Term};
use sql_lex::Cursor;
use sqlite_items::Items;
use std::alloc::Global;

/// The value that begins so.
#[inline(always)]
pub(crate) fn value_behind<'a>(
    start: ValueStart<'a>,
    cursor: Cursor<'a>,
) -> Result<(Literal<'a>, Cursor<'a>), Fault>
    ensures value { Yields (spec.value_by start.entry (tokens_ahead cursor.entry)) result }
    ensures markers { Keeps cursor.entry result }
{
    match start {
        ValueStart::Whole(value) => Ok((value, cursor)),
        ValueStart::Negative(number) => {
            let (_, rest) = digits(cursor)?;
            Ok((Literal::Number(number), rest))
        }
    }
}

#[tactic(auto, unfolding(crate::specs::Rules::value_at))]
#[inline(always)]
pub(crate) fn value<'a>(cursor: Cursor<'a>) -> Result<(Literal<'a>, Cursor<'a>), Fault>
    ensures value { Yields (spec.value_at (tokens_ahead cursor.entry)) result }
    ensures markers { Keeps cursor.entry result }
{
    let (start, rest) = start(cursor)?;
    value_behind(start, rest)
}

/// A column where a name comes next, and else a value.
#[tactic(auto, unfolding(crate::specs::Rules::term_at))]
pub(crate) fn term<'a>(cursor: Cursor<'a>) -> Result<(Term<'a>, Cursor<'a>), Fault>
    ensures value { Yields (spec.term_at (tokens_ahead cursor.entry)) result }
    ensures markers { Keeps cursor.entry result }
{
    let (start, rest) = term_start(cursor)?;
    match start {
        TermStart::Column(name) => Ok((Term::Column(name), rest)),
        TermStart::Value(start) => {
            let (value, rest) = value_behind(start, rest)?;
            Ok((Term::Value(value), rest))
        }
    }
}

/// The further terms of a sum.
pub(crate) fn addends<'a>(
    alloc: Global,
    cursor: Cursor<'a>,
) -> Result<(Items<Addend<'a>>, Cursor<'a>), Fault>
    ensures value { Yields (spec.addends_at (tokens_ahead cursor.entry)) result }
    ensures markers { Keeps cursor.entry result }
{
    let turns = longest();
    let mut found = Items::new(alloc);
    let mut rest = cursor;
    for _turn in 0..turns {
        let (operation, after) = operation(rest);
        let Some(operation) = operation else {
            return Ok((found, after));
        };
        let (term, after) = term(after)?;
        found.push(Addend { operation, term })?;
        rest = after;
    }
    Err(Fault::Deep)
}

#[tactic(auto, unfolding(crate::specs::Rules::sum_at))]
pub(crate) fn sum<'a>(alloc: Global, cursor: Cursor<'a>) -> Result<(Sum<'a>, Cursor<'a>), Fault>
    ensures value { Yields (spec.sum_at (tokens_ahead cursor.entry)) result }
    ensures markers { Keeps cursor.entry result }
{
    let (first, rest) = term(cursor)?;
    let (addends, rest) = addends(alloc, rest)?;
    Ok((
        Sum {
            first,
            rest: addends,
        },
        rest,
    ))
}

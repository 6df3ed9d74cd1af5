//! Reads predicates.

ghost use Rattle.std.specs.Prelude.{◌≡◌};
ghost use Rattle.sql_lex.specs.Tokens.{tokens_ahead};
ghost use Rattle.sql_text.specs.Reading.{Yields, Keeps};
ghost use Rattle.sql_text.specs.Rules as spec;

use crate::fault::Fault;
use crate::list::longest;
use crate::sum::{term, value};
use crate::token::{before, comparison, take};
use crate::tree::{Predicate, Term};
use sql_lex::{Cursor, Part, Terminal, Token};
use sqlite_items::{Boxed, Items};
use std::alloc::Global;

/// The rest of a comparison.
#[tactic(auto, unfolding(crate::specs::Rules::compared))]
pub(crate) fn compared<'a>(
    a: Term<'a>,
    cursor: Cursor<'a>,
) -> Result<(Predicate<'a>, Cursor<'a>), Fault>
    ensures value { Yields (spec.compared a.entry (tokens_ahead cursor.entry)) result }
    ensures markers { Keeps cursor.entry result }
{
    let (comparison, rest) = comparison(cursor)?;
    let (b, rest) = term(rest)?;
    Ok((Predicate::Compare(a, comparison, b), rest))
}

/// The rest of a test for null, behind IS.
#[tactic(auto, unfolding(crate::specs::Rules::null_test))]
pub(crate) fn null_test<'a>(
    name: Part<'a>,
    cursor: Cursor<'a>,
) -> Result<(Predicate<'a>, Cursor<'a>), Fault>
    ensures value { Yields (spec.null_test name.entry (tokens_ahead cursor.entry)) result }
    ensures markers { Keeps cursor.entry result }
{
    let (negated, rest) = take(Terminal::Not, cursor);
    before(Terminal::Null, Predicate::IsNull(name, negated), rest)
}

/// What goes on behind a name.
#[tactic(auto, unfolding(crate::specs::Rules::named))]
pub(crate) fn named<'a>(
    name: Part<'a>,
    cursor: Cursor<'a>,
) -> Result<(Predicate<'a>, Cursor<'a>), Fault>
    ensures value { Yields (spec.named name.entry (tokens_ahead cursor.entry)) result }
    ensures markers { Keeps cursor.entry result }
{
    let (is, rest) = take(Terminal::Is, cursor);
    if is {
        null_test(name, rest)
    } else {
        compared(Term::Column(name), rest)
    }
}

/// A comparison that begins with a value.
#[tactic(auto, unfolding(crate::specs::Rules::comparison))]
pub(crate) fn comparison_of_value<'a>(
    cursor: Cursor<'a>,
) -> Result<(Predicate<'a>, Cursor<'a>), Fault>
    ensures value { Yields (spec.comparison (tokens_ahead cursor.entry)) result }
    ensures markers { Keeps cursor.entry result }
{
    let (value, rest) = value(cursor)?;
    compared(Term::Value(value), rest)
}

/// Parts with AND between them.
#[cycle(grammar)]
pub(crate) fn all<'a>(
    alloc: Global,
    depth: usize,
    cursor: Cursor<'a>,
) -> Result<(Predicate<'a>, Cursor<'a>), Fault>
    ensures value { Yields (spec.all_at (spec.neg_at depth) (tokens_ahead cursor.entry)) result }
    ensures markers { Keeps cursor.entry result }
{
    let turns = longest();
    let mut found = Items::new(alloc);
    let mut rest = cursor;
    for _turn in 0..turns {
        let (item, after) = neg(alloc, depth, rest)?;
        found.push(item)?;
        let (goes, after) = take(Terminal::And, after);
        if !goes {
            return Ok((Predicate::All(found), after));
        }
        rest = after;
    }
    Err(Fault::Deep)
}

/// Parts with OR between them.
#[cycle(grammar)]
pub(crate) fn any<'a>(
    alloc: Global,
    depth: usize,
    cursor: Cursor<'a>,
) -> Result<(Predicate<'a>, Cursor<'a>), Fault>
    ensures value { Yields (spec.any_at (spec.neg_at depth) (tokens_ahead cursor.entry)) result }
    ensures markers { Keeps cursor.entry result }
{
    let turns = longest();
    let mut found = Items::new(alloc);
    let mut rest = cursor;
    for _turn in 0..turns {
        let (item, after) = all(alloc, depth, rest)?;
        found.push(item)?;
        let (goes, after) = take(Terminal::Or, after);
        if !goes {
            return Ok((Predicate::Any(found), after));
        }
        rest = after;
    }
    Err(Fault::Deep)
}

/// A predicate without AND and OR, whose parts are nested no deeper than this.
#[tactic(auto, unfolding(crate::specs::Rules::level, crate::specs::Rules::group, crate::specs::Rules::negation))]
#[cycle(grammar)]
pub(crate) fn level<'a>(
    alloc: Global,
    depth: usize,
    cursor: Cursor<'a>,
) -> Result<(Predicate<'a>, Cursor<'a>), Fault>
    ensures value { Yields (spec.level (spec.neg_at depth) (tokens_ahead cursor.entry)) result }
    ensures markers { Keeps cursor.entry result }
{
    let Some((token, _, rest)) = cursor.next() else {
        return comparison_of_value(cursor);
    };
    match token {
        Token::Fixed(Terminal::Not) => {
            let (part, rest) = neg(alloc, depth, rest)?;
            Ok((Predicate::Not(Boxed::new(alloc, part)?), rest))
        }
        Token::Fixed(Terminal::Open) => {
            let (part, rest) = any(alloc, depth, rest)?;
            let (part, rest) = before(Terminal::Close, part, rest)?;
            Ok((Predicate::Group(Boxed::new(alloc, part)?), rest))
        }
        Token::Name(name) => named(name, rest),
        _ => comparison_of_value(cursor),
    }
}

/// A predicate without AND and OR, that may be nested so deep.
#[tactic(auto, unfolding(crate::specs::Rules::neg_at))]
#[cycle(grammar)]
pub(crate) fn neg<'a>(
    alloc: Global,
    depth: usize,
    cursor: Cursor<'a>,
) -> Result<(Predicate<'a>, Cursor<'a>), Fault>
    ensures value { Yields (spec.neg_at depth (tokens_ahead cursor.entry)) result }
    ensures markers { Keeps cursor.entry result }
{
    if depth == 0 {
        return Err(Fault::Deep);
    }
    level(alloc, depth - 1, cursor)
}

/// A predicate. Parentheses and NOTs are nested at most 64 deep.
#[tactic(auto, unfolding(crate::specs::Rules::predicate_at))]
pub(crate) fn whole_predicate<'a>(
    alloc: Global,
    cursor: Cursor<'a>,
) -> Result<(Predicate<'a>, Cursor<'a>), Fault>
    ensures value { Yields (spec.predicate_at (tokens_ahead cursor.entry)) result }
    ensures markers { Keeps cursor.entry result }
{
    any(alloc, 65, cursor)
}

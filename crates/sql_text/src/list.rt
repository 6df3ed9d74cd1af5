//! Reads lists.

ghost use Rattle.std.specs.Prelude.{◌≡◌, Bool};
ghost use Rattle.sql_lex.specs.Tokens.{tokens_ahead};
ghost use Rattle.sql_lex.specs.declared.terminal.Terminal.TheVariants as terminal;
ghost use Rattle.sql_text.specs.Reading as reading;
ghost use Rattle.sql_text.specs.Reading.{Parser, Yields, Keeps};
ghost use Rattle.sql_text.specs.Rules as spec;

use crate::column::{another, definition};
use crate::draft::{DraftColumn, DraftKey};
use crate::fault::Fault;
use crate::sum::{sum, value};
use crate::token::{equal, name, placed_name, take};
use crate::tree::{Assignment, Literal};
use sql_lex::{Cursor, Part, Terminal};
use sqlite_items::Items;
use std::alloc::Global;

/// How many items a list has at most: each takes a byte of the longest text.
#[tactic(auto, unfolding(crate::specs::Rules::longest))]
pub(crate) fn longest() -> usize
    ensures { result ≡ spec.longest }
{
    32767
}

/// What a list has as its items.
pub(crate) trait ListItem<'a>: Drop {
    ghost item_at: { Parser Self };

    ghost more_at: { Parser Bool };

    fn item(alloc: Global, cursor: Cursor<'a>) -> Result<(Self, Cursor<'a>), Fault>
        ensures value { Yields (item_at (tokens_ahead cursor.entry)) result }
        ensures markers { Keeps cursor.entry result };

    /// Whether a further item comes.
    fn more(cursor: Cursor<'a>) -> Result<(bool, Cursor<'a>), Fault>
        ensures value { Yields (more_at (tokens_ahead cursor.entry)) result }
        ensures markers { Keeps cursor.entry result };
}

/// One item or more.
pub(crate) fn items<'a, T: ListItem<'a>>(
    alloc: Global,
    cursor: Cursor<'a>,
) -> Result<(Items<T>, Cursor<'a>), Fault>
    ensures value { Yields (spec.items T.item_at T.more_at (tokens_ahead cursor.entry)) result }
    ensures markers { Keeps cursor.entry result }
{
    let turns = longest();
    let mut found = Items::new(alloc);
    let mut rest = cursor;
    for _turn in 0..turns {
        let (item, after) = T::item(alloc, rest)?;
        found.push(item)?;
        let (goes, after) = T::more(after)?;
        if !goes {
            return Ok((found, after));
        }
        rest = after;
    }
    Err(Fault::Deep)
}

/// Whether a comma comes next, which is then taken.
fn comma<'a>(cursor: Cursor<'a>) -> Result<(bool, Cursor<'a>), Fault>
    ensures value { Yields (reading.take_fixed terminal.Comma (tokens_ahead cursor.entry)) result }
    ensures markers { Keeps cursor.entry result }
{
    let (goes, rest) = take(Terminal::Comma, cursor);
    Ok((goes, rest))
}

impl<'a> ListItem<'a> for Part<'a> {
    ghost item_at = { reading.name_at };

    ghost more_at = { reading.take_fixed terminal.Comma };

    fn item(_alloc: Global, cursor: Cursor<'a>) -> Result<(Part<'a>, Cursor<'a>), Fault> {
        name(cursor)
    }

    fn more(cursor: Cursor<'a>) -> Result<(bool, Cursor<'a>), Fault> {
        comma(cursor)
    }
}

impl<'a> ListItem<'a> for Literal<'a> {
    ghost item_at = { spec.value_at };

    ghost more_at = { reading.take_fixed terminal.Comma };

    fn item(_alloc: Global, cursor: Cursor<'a>) -> Result<(Literal<'a>, Cursor<'a>), Fault> {
        value(cursor)
    }

    fn more(cursor: Cursor<'a>) -> Result<(bool, Cursor<'a>), Fault> {
        comma(cursor)
    }
}

#[tactic(auto, unfolding(crate::specs::Rules::key_column_at))]
pub(crate) fn key_column<'a>(cursor: Cursor<'a>) -> Result<(DraftKey<'a>, Cursor<'a>), Fault>
    ensures value { Yields (spec.key_column_at (tokens_ahead cursor.entry)) result }
    ensures markers { Keeps cursor.entry result }
{
    let ((name, left), rest) = placed_name(cursor)?;
    Ok((DraftKey { name, left }, rest))
}

impl<'a> ListItem<'a> for DraftKey<'a> {
    ghost item_at = { spec.key_column_at };

    ghost more_at = { reading.take_fixed terminal.Comma };

    fn item(_alloc: Global, cursor: Cursor<'a>) -> Result<(DraftKey<'a>, Cursor<'a>), Fault> {
        key_column(cursor)
    }

    fn more(cursor: Cursor<'a>) -> Result<(bool, Cursor<'a>), Fault> {
        comma(cursor)
    }
}

#[tactic(auto, unfolding(crate::specs::Rules::assignment_at))]
pub(crate) fn assignment<'a>(
    alloc: Global,
    cursor: Cursor<'a>,
) -> Result<(Assignment<'a>, Cursor<'a>), Fault>
    ensures value { Yields (spec.assignment_at (tokens_ahead cursor.entry)) result }
    ensures markers { Keeps cursor.entry result }
{
    let (column, rest) = name(cursor)?;
    let rest = equal(rest)?;
    let (sum, rest) = sum(alloc, rest)?;
    Ok((Assignment { column, sum }, rest))
}

impl<'a> ListItem<'a> for Assignment<'a> {
    ghost item_at = { spec.assignment_at };

    ghost more_at = { reading.take_fixed terminal.Comma };

    fn item(alloc: Global, cursor: Cursor<'a>) -> Result<(Assignment<'a>, Cursor<'a>), Fault> {
        assignment(alloc, cursor)
    }

    fn more(cursor: Cursor<'a>) -> Result<(bool, Cursor<'a>), Fault> {
        comma(cursor)
    }
}

impl<'a> ListItem<'a> for DraftColumn<'a> {
    ghost item_at = { spec.definition_at };

    ghost more_at = { spec.another };

    fn item(_alloc: Global, cursor: Cursor<'a>) -> Result<(DraftColumn<'a>, Cursor<'a>), Fault> {
        definition(cursor)
    }

    fn more(cursor: Cursor<'a>) -> Result<(bool, Cursor<'a>), Fault> {
        another(cursor)
    }
}

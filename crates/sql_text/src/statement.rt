//! Reads statements.

ghost use Rattle.std.specs.Prelude.{◌≡◌};
ghost use Rattle.sql_lex.specs.Tokens.{tokens_ahead};
ghost use Rattle.sql_text.specs.Reading.{Yields, Keeps};
ghost use Rattle.sql_text.specs.Rules as spec;

use crate::draft::{Draft, DraftColumn, DraftKey};
use crate::fault::Fault;
use crate::list::items;
use crate::predicate::whole_predicate;
use crate::token::{Verb, at_end, before, expect, first_word, name, take};
use crate::tree::{Assignment, Columns, Literal, Predicate};
use sql_lex::{Cursor, Part, Terminal};
use std::alloc::Global;

/// The columns that an INSERT gives.
#[tactic(auto, unfolding(crate::specs::Rules::listed_at, crate::specs::Rules::names_at))]
pub(crate) fn listed<'a>(
    alloc: Global,
    cursor: Cursor<'a>,
) -> Result<(Columns<'a>, Cursor<'a>), Fault>
    ensures value { Yields (spec.listed_at (tokens_ahead cursor.entry)) result }
    ensures markers { Keeps cursor.entry result }
{
    let (opens, rest) = take(Terminal::Open, cursor);
    if !opens {
        return Ok((Columns::All, rest));
    }
    let (names, rest) = items::<Part<'a>>(alloc, rest)?;
    before(Terminal::Close, Columns::Named(names), rest)
}

/// The columns that a SELECT asks for.
#[tactic(auto, unfolding(crate::specs::Rules::selected_at, crate::specs::Rules::names_at))]
pub(crate) fn selected<'a>(
    alloc: Global,
    cursor: Cursor<'a>,
) -> Result<(Columns<'a>, Cursor<'a>), Fault>
    ensures value { Yields (spec.selected_at (tokens_ahead cursor.entry)) result }
    ensures markers { Keeps cursor.entry result }
{
    let (all, rest) = take(Terminal::Star, cursor);
    if all {
        return Ok((Columns::All, rest));
    }
    let (names, rest) = items::<Part<'a>>(alloc, rest)?;
    Ok((Columns::Named(names), rest))
}

/// WHERE and its predicate, or nothing.
#[tactic(auto, unfolding(crate::specs::Rules::filter_at))]
pub(crate) fn filter<'a>(
    alloc: Global,
    cursor: Cursor<'a>,
) -> Result<(Option<Predicate<'a>>, Cursor<'a>), Fault>
    ensures value { Yields (spec.filter_at (tokens_ahead cursor.entry)) result }
    ensures markers { Keeps cursor.entry result }
{
    let (filters, rest) = take(Terminal::Where, cursor);
    if !filters {
        return Ok((None, rest));
    }
    let (predicate, rest) = whole_predicate(alloc, rest)?;
    Ok((Some(predicate), rest))
}

#[tactic(auto, unfolding(crate::specs::Rules::create_at, crate::specs::Rules::definitions_at, crate::specs::Rules::key_at))]
pub(crate) fn create<'a>(
    alloc: Global,
    cursor: Cursor<'a>,
) -> Result<(Draft<'a>, Cursor<'a>), Fault>
    ensures value { Yields (spec.create_at (tokens_ahead cursor.entry)) result }
    ensures markers { Keeps cursor.entry result }
{
    let rest = expect(Terminal::Table, cursor)?;
    let (table, rest) = name(rest)?;
    let rest = expect(Terminal::Open, rest)?;
    let (columns, rest) = items::<DraftColumn<'a>>(alloc, rest)?;
    let rest = expect(Terminal::Key, rest)?;
    let rest = expect(Terminal::Open, rest)?;
    let (key, rest) = items::<DraftKey<'a>>(alloc, rest)?;
    let draft = Draft::Create {
        table,
        columns,
        key,
    };
    let (draft, rest) = before(Terminal::Close, draft, rest)?;
    before(Terminal::Close, draft, rest)
}

#[tactic(auto, unfolding(crate::specs::Rules::insert_at, crate::specs::Rules::values_at))]
pub(crate) fn insert<'a>(
    alloc: Global,
    cursor: Cursor<'a>,
) -> Result<(Draft<'a>, Cursor<'a>), Fault>
    ensures value { Yields (spec.insert_at (tokens_ahead cursor.entry)) result }
    ensures markers { Keeps cursor.entry result }
{
    let rest = expect(Terminal::Into, cursor)?;
    let (table, rest) = name(rest)?;
    let (columns, rest) = listed(alloc, rest)?;
    let (columns, rest) = before(Terminal::Values, columns, rest)?;
    let (columns, rest) = before(Terminal::Open, columns, rest)?;
    let (values, rest) = items::<Literal<'a>>(alloc, rest)?;
    let draft = Draft::Insert {
        table,
        columns,
        values,
    };
    before(Terminal::Close, draft, rest)
}

#[tactic(auto, unfolding(crate::specs::Rules::update_at, crate::specs::Rules::assignments_at))]
pub(crate) fn update<'a>(
    alloc: Global,
    cursor: Cursor<'a>,
) -> Result<(Draft<'a>, Cursor<'a>), Fault>
    ensures value { Yields (spec.update_at (tokens_ahead cursor.entry)) result }
    ensures markers { Keeps cursor.entry result }
{
    let (table, rest) = name(cursor)?;
    let rest = expect(Terminal::Set, rest)?;
    let (assignments, rest) = items::<Assignment<'a>>(alloc, rest)?;
    let (filter, rest) = filter(alloc, rest)?;
    Ok((
        Draft::Update {
            table,
            assignments,
            filter,
        },
        rest,
    ))
}

#[tactic(auto, unfolding(crate::specs::Rules::delete_at))]
pub(crate) fn delete<'a>(
    alloc: Global,
    cursor: Cursor<'a>,
) -> Result<(Draft<'a>, Cursor<'a>), Fault>
    ensures value { Yields (spec.delete_at (tokens_ahead cursor.entry)) result }
    ensures markers { Keeps cursor.entry result }
{
    let rest = expect(Terminal::From, cursor)?;
    let (table, rest) = name(rest)?;
    let (filter, rest) = filter(alloc, rest)?;
    Ok((Draft::Delete { table, filter }, rest))
}

#[tactic(auto, unfolding(crate::specs::Rules::select_at))]
pub(crate) fn select<'a>(
    alloc: Global,
    cursor: Cursor<'a>,
) -> Result<(Draft<'a>, Cursor<'a>), Fault>
    ensures value { Yields (spec.select_at (tokens_ahead cursor.entry)) result }
    ensures markers { Keeps cursor.entry result }
{
    let (columns, rest) = selected(alloc, cursor)?;
    let rest = expect(Terminal::From, rest)?;
    let (table, rest) = name(rest)?;
    let (filter, rest) = filter(alloc, rest)?;
    Ok((
        Draft::Select {
            columns,
            table,
            filter,
        },
        rest,
    ))
}

/// What goes on behind the first word.
pub(crate) fn by_verb<'a>(
    alloc: Global,
    verb: Verb,
    cursor: Cursor<'a>,
) -> Result<(Draft<'a>, Cursor<'a>), Fault>
    ensures value { Yields (spec.command_by verb (tokens_ahead cursor.entry)) result }
    ensures markers { Keeps cursor.entry result }
{
    match verb {
        Verb::Create => create(alloc, cursor),
        Verb::Insert => insert(alloc, cursor),
        Verb::Update => update(alloc, cursor),
        Verb::Delete => delete(alloc, cursor),
        Verb::Select => select(alloc, cursor),
    }
}

/// A whole statement.
#[tactic(auto, unfolding(crate::specs::Rules::command_at))]
pub(crate) fn whole_command<'a>(
    alloc: Global,
    cursor: Cursor<'a>,
) -> Result<(Draft<'a>, Cursor<'a>), Fault>
    ensures value { Yields (spec.command_at (tokens_ahead cursor.entry)) result }
    ensures markers { Keeps cursor.entry result }
{
    let (verb, rest) = first_word(cursor)?;
    let (command, rest) = by_verb(alloc, verb, rest)?;
    at_end(command, rest)
}

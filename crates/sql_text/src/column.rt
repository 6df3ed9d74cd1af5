//! Reads the columns of a table to be made.

ghost use Rattle.std.specs.Prelude.{◌≡◌};
ghost use Rattle.sql_lex.specs.Tokens.{tokens_ahead};
ghost use Rattle.sql_text.specs.Reading.{Yields, Keeps};
ghost use Rattle.sql_text.specs.Rules as spec;

use crate::draft::{DraftColumn, DraftType};
use crate::fault::Fault;
use crate::token::{TypeWord, before, expect, length, placed_name, take, type_word};
use sql_lex::{Cursor, Terminal};

/// A length in parentheses, and its place.
#[tactic(auto, unfolding(crate::specs::Rules::length_within))]
pub(crate) fn length_in_parentheses<'a>(
    cursor: Cursor<'a>,
) -> Result<((usize, usize), Cursor<'a>), Fault>
    ensures value { Yields (spec.length_within (tokens_ahead cursor.entry)) result }
    ensures markers { Keeps cursor.entry result }
{
    let rest = expect(Terminal::Open, cursor)?;
    let (length, rest) = length(rest)?;
    before(Terminal::Close, length, rest)
}

#[tactic(auto, unfolding(crate::specs::Rules::type_at))]
pub(crate) fn column_type<'a>(cursor: Cursor<'a>) -> Result<(DraftType, Cursor<'a>), Fault>
    ensures value { Yields (spec.type_at (tokens_ahead cursor.entry)) result }
    ensures markers { Keeps cursor.entry result }
{
    let (word, rest) = type_word(cursor)?;
    match word {
        TypeWord::Whole(column_type) => Ok((column_type, rest)),
        TypeWord::OfText => {
            let ((length, left), rest) = length_in_parentheses(rest)?;
            Ok((DraftType::VarChar { length, left }, rest))
        }
        TypeWord::OfBytes => {
            let ((length, left), rest) = length_in_parentheses(rest)?;
            Ok((DraftType::VarBinary { length, left }, rest))
        }
    }
}

/// Whether a column may be null: `NOT NULL` or nothing.
#[tactic(auto, unfolding(crate::specs::Rules::nullable_at))]
pub(crate) fn nullable<'a>(cursor: Cursor<'a>) -> Result<(bool, Cursor<'a>), Fault>
    ensures value { Yields (spec.nullable_at (tokens_ahead cursor.entry)) result }
    ensures markers { Keeps cursor.entry result }
{
    let (bars, rest) = take(Terminal::Not, cursor);
    if !bars {
        return Ok((true, rest));
    }
    before(Terminal::Null, false, rest)
}

#[tactic(auto, unfolding(crate::specs::Rules::definition_at))]
pub(crate) fn definition<'a>(cursor: Cursor<'a>) -> Result<(DraftColumn<'a>, Cursor<'a>), Fault>
    ensures value { Yields (spec.definition_at (tokens_ahead cursor.entry)) result }
    ensures markers { Keeps cursor.entry result }
{
    let ((name, left), rest) = placed_name(cursor)?;
    let (column_type, rest) = column_type(rest)?;
    let (nullable, rest) = nullable(rest)?;
    let definition = DraftColumn {
        name,
        left,
        column_type,
        nullable,
    };
    Ok((definition, rest))
}

/// Whether a further column comes behind the comma, and not `PRIMARY`.
#[tactic(auto, unfolding(crate::specs::Rules::another))]
pub(crate) fn another<'a>(cursor: Cursor<'a>) -> Result<(bool, Cursor<'a>), Fault>
    ensures value { Yields (spec.another (tokens_ahead cursor.entry)) result }
    ensures markers { Keeps cursor.entry result }
{
    let rest = expect(Terminal::Comma, cursor)?;
    let (primary, rest) = take(Terminal::Primary, rest);
    Ok((!primary, rest))
}

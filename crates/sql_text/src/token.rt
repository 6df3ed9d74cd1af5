//! Reads single tokens.

ghost use Rattle.std.specs.Prelude.{◌≡◌, Ok, IfOk};
ghost use Rattle.sql_lex.specs.Markers.{markers_of};
ghost use Rattle.sql_lex.specs.Tokens.{tokens_ahead};
ghost use Rattle.sql_text.specs.Reading as spec;
ghost use Rattle.sql_text.specs.Reading.{Yields, Passes, Follows, Keeps};

use crate::draft::DraftType;
use crate::fault::Fault;
use crate::number::{is_bigint, is_negative_bigint, length_of};
use crate::tree::{Literal, Operation};
use sql_lex::{Comparison, Cursor, Part, Terminal, Token};

/// What a value begins with.
#[derive(Drop)]
pub(crate) enum ValueStart<'a> {
    /// The value.
    Whole(Literal<'a>),
    /// A `-`, with the number that it makes of the digits behind it.
    Negative(Part<'a>),
}

/// What a term begins with.
#[derive(Drop)]
pub(crate) enum TermStart<'a> {
    /// The name of a column.
    Column(Part<'a>),
    Value(ValueStart<'a>),
}

/// What a column's type begins with.
#[derive(Clone, Copy)]
pub(crate) enum TypeWord {
    /// The type.
    Whole(DraftType),
    OfText,
    OfBytes,
}

/// What a statement begins with.
#[derive(Clone, Copy)]
pub(crate) enum Verb {
    Create,
    Insert,
    Update,
    Delete,
    Select,
}

/// The next token, and how many bytes there are from it on. At the end of the text no rule goes on.
pub(crate) fn next<'a>(cursor: Cursor<'a>) -> Result<((Token<'a>, usize), Cursor<'a>), Fault>
    ensures value { Yields (spec.next_at (tokens_ahead cursor.entry)) result }
    ensures markers { Keeps cursor.entry result }
{
    match cursor.next() {
        Some((token, left, rest)) => Ok(((token, left), rest)),
        None => Err(Fault::Unexpected(0)),
    }
}

/// Takes this token, which has to come next.
#[tactic(auto, unfolding(crate::specs::Reading::expect_fixed))]
pub(crate) fn expect<'a>(want: Terminal, cursor: Cursor<'a>) -> Result<Cursor<'a>, Fault>
    ensures value { Passes (spec.expect_fixed want (tokens_ahead cursor.entry)) result }
    ensures markers { IfOk result (λ rest. markers_of rest ≡ markers_of cursor.entry) }
{
    let ((token, left), rest) = next(cursor)?;
    match token {
        Token::Fixed(found) if found.is(want) => Ok(rest),
        _ => Err(Fault::Unexpected(left)),
    }
}

/// What was read, where this token comes next, which is then taken.
pub(crate) fn before<'a, T: Drop>(
    want: Terminal,
    found: T,
    cursor: Cursor<'a>,
) -> Result<(T, Cursor<'a>), Fault>
    ensures value { Follows found (spec.expect_fixed want (tokens_ahead cursor.entry)) result }
    ensures markers { Keeps cursor.entry result }
{
    let rest = expect(want, cursor)?;
    Ok((found, rest))
}

/// Whether this token comes next, which is then taken.
#[tactic(auto, unfolding(crate::specs::Reading::take_fixed))]
pub(crate) fn take<'a>(want: Terminal, cursor: Cursor<'a>) -> (bool, Cursor<'a>)
    ensures value { spec.take_fixed want (tokens_ahead cursor.entry) ≡ Ok (result.0, tokens_ahead result.1) }
    ensures markers { markers_of result.1 ≡ markers_of cursor.entry }
{
    let Some((token, _, rest)) = cursor.next() else {
        return (false, cursor);
    };
    match token {
        Token::Fixed(found) if found.is(want) => (true, rest),
        _ => (false, cursor),
    }
}

#[tactic(auto, unfolding(crate::specs::Reading::name_at))]
pub(crate) fn name<'a>(cursor: Cursor<'a>) -> Result<(Part<'a>, Cursor<'a>), Fault>
    ensures value { Yields (spec.name_at (tokens_ahead cursor.entry)) result }
    ensures markers { Keeps cursor.entry result }
{
    let ((token, left), rest) = next(cursor)?;
    match token {
        Token::Name(name) => Ok((name, rest)),
        _ => Err(Fault::Unexpected(left)),
    }
}

/// A name, and its place.
#[tactic(auto, unfolding(crate::specs::Reading::placed_name_at))]
pub(crate) fn placed_name<'a>(cursor: Cursor<'a>) -> Result<((Part<'a>, usize), Cursor<'a>), Fault>
    ensures value { Yields (spec.placed_name_at (tokens_ahead cursor.entry)) result }
    ensures markers { Keeps cursor.entry result }
{
    let ((token, left), rest) = next(cursor)?;
    match token {
        Token::Name(name) => Ok(((name, left), rest)),
        _ => Err(Fault::Unexpected(left)),
    }
}

#[tactic(auto, unfolding(crate::specs::Reading::digits_at))]
pub(crate) fn digits<'a>(cursor: Cursor<'a>) -> Result<(Part<'a>, Cursor<'a>), Fault>
    ensures value { Yields (spec.digits_at (tokens_ahead cursor.entry)) result }
    ensures markers { Keeps cursor.entry result }
{
    let ((token, left), rest) = next(cursor)?;
    match token {
        Token::Number(digits) => Ok((digits, rest)),
        _ => Err(Fault::Unexpected(left)),
    }
}

/// The length of a type, and its place.
#[tactic(auto, unfolding(crate::specs::Reading::length_at))]
pub(crate) fn length<'a>(cursor: Cursor<'a>) -> Result<((usize, usize), Cursor<'a>), Fault>
    ensures value { Yields (spec.length_at (tokens_ahead cursor.entry)) result }
    ensures markers { Keeps cursor.entry result }
{
    let ((token, left), rest) = next(cursor)?;
    match token {
        Token::Number(digits) => Ok(((length_of(digits.bytes()), left), rest)),
        _ => Err(Fault::Unexpected(left)),
    }
}

#[tactic(auto, unfolding(crate::specs::Reading::comparison_at))]
pub(crate) fn comparison<'a>(cursor: Cursor<'a>) -> Result<(Comparison, Cursor<'a>), Fault>
    ensures value { Yields (spec.comparison_at (tokens_ahead cursor.entry)) result }
    ensures markers { Keeps cursor.entry result }
{
    let ((token, left), rest) = next(cursor)?;
    match token {
        Token::Compare(comparison) => Ok((comparison, rest)),
        _ => Err(Fault::Unexpected(left)),
    }
}

/// The `=` of an assignment.
#[tactic(auto, unfolding(crate::specs::Reading::equal_at))]
pub(crate) fn equal<'a>(cursor: Cursor<'a>) -> Result<Cursor<'a>, Fault>
    ensures value { Passes (spec.equal_at (tokens_ahead cursor.entry)) result }
    ensures markers { IfOk result (λ rest. markers_of rest ≡ markers_of cursor.entry) }
{
    let ((token, left), rest) = next(cursor)?;
    match token {
        Token::Compare(Comparison::Equal) => Ok(rest),
        _ => Err(Fault::Unexpected(left)),
    }
}

/// The sign before a further term of a sum, if one comes next.
#[tactic(auto, unfolding(crate::specs::Reading::operation_at))]
pub(crate) fn operation<'a>(cursor: Cursor<'a>) -> (Option<Operation>, Cursor<'a>)
    ensures value { spec.operation_at (tokens_ahead cursor.entry) ≡ Ok (result.0, tokens_ahead result.1) }
    ensures markers { markers_of result.1 ≡ markers_of cursor.entry }
{
    let Some((token, _, rest)) = cursor.next() else {
        return (None, cursor);
    };
    match token {
        Token::Fixed(Terminal::Plus) => (Some(Operation::Add), rest),
        Token::Minus(_) => (Some(Operation::Subtract), rest),
        _ => (None, cursor),
    }
}

#[inline(always)]
fn start_of<'a>(token: Token<'a>) -> Option<ValueStart<'a>>
    ensures { result ≡ spec.as_start token.entry }
{
    match token {
        Token::Number(digits) => {
            if !is_bigint(digits.bytes()) {
                return None;
            }
            Some(ValueStart::Whole(Literal::Number(digits)))
        }
        Token::Minus(Some(number)) => {
            if !is_negative_bigint(number.bytes()) {
                return None;
            }
            Some(ValueStart::Negative(number))
        }
        Token::Text(text) => Some(ValueStart::Whole(Literal::Text(text))),
        Token::Bytes(digits) => Some(ValueStart::Whole(Literal::Bytes(digits))),
        Token::Marker(before) => Some(ValueStart::Whole(Literal::Marker(before))),
        Token::Fixed(Terminal::Null) => Some(ValueStart::Whole(Literal::Null)),
        _ => None,
    }
}

#[tactic(auto, unfolding(crate::specs::Reading::start_at))]
#[inline(always)]
pub(crate) fn start<'a>(cursor: Cursor<'a>) -> Result<(ValueStart<'a>, Cursor<'a>), Fault>
    ensures value { Yields (spec.start_at (tokens_ahead cursor.entry)) result }
    ensures markers { Keeps cursor.entry result }
{
    let ((token, left), rest) = next(cursor)?;
    match start_of(token) {
        Some(start) => Ok((start, rest)),
        None => Err(Fault::Unexpected(left)),
    }
}

fn term_start_of<'a>(token: Token<'a>) -> Option<TermStart<'a>>
    ensures { result ≡ spec.as_term token.entry }
{
    match token {
        Token::Name(name) => Some(TermStart::Column(name)),
        token => match start_of(token) {
            Some(start) => Some(TermStart::Value(start)),
            None => None,
        },
    }
}

#[tactic(auto, unfolding(crate::specs::Reading::term_start_at))]
pub(crate) fn term_start<'a>(cursor: Cursor<'a>) -> Result<(TermStart<'a>, Cursor<'a>), Fault>
    ensures value { Yields (spec.term_start_at (tokens_ahead cursor.entry)) result }
    ensures markers { Keeps cursor.entry result }
{
    let ((token, left), rest) = next(cursor)?;
    match term_start_of(token) {
        Some(start) => Ok((start, rest)),
        None => Err(Fault::Unexpected(left)),
    }
}

fn type_word_of(token: &Token<'_>) -> Option<TypeWord>
    ensures { result ≡ spec.as_type token.now }
{
    match token {
        Token::Fixed(Terminal::SmallInt) => Some(TypeWord::Whole(DraftType::SmallInt)),
        Token::Fixed(Terminal::Integer | Terminal::Int) => {
            Some(TypeWord::Whole(DraftType::Integer))
        }
        Token::Fixed(Terminal::BigInt) => Some(TypeWord::Whole(DraftType::BigInt)),
        Token::Fixed(Terminal::VarChar) => Some(TypeWord::OfText),
        Token::Fixed(Terminal::VarBinary) => Some(TypeWord::OfBytes),
        _ => None,
    }
}

#[tactic(auto, unfolding(crate::specs::Reading::type_word_at))]
pub(crate) fn type_word<'a>(cursor: Cursor<'a>) -> Result<(TypeWord, Cursor<'a>), Fault>
    ensures value { Yields (spec.type_word_at (tokens_ahead cursor.entry)) result }
    ensures markers { Keeps cursor.entry result }
{
    let ((token, left), rest) = next(cursor)?;
    match type_word_of(&token) {
        Some(word) => Ok((word, rest)),
        None => Err(Fault::Unexpected(left)),
    }
}

fn verb_of(token: &Token<'_>) -> Option<Verb>
    ensures { result ≡ spec.as_verb token.now }
{
    match token {
        Token::Fixed(Terminal::Create) => Some(Verb::Create),
        Token::Fixed(Terminal::Insert) => Some(Verb::Insert),
        Token::Fixed(Terminal::Update) => Some(Verb::Update),
        Token::Fixed(Terminal::Delete) => Some(Verb::Delete),
        Token::Fixed(Terminal::Select) => Some(Verb::Select),
        _ => None,
    }
}

#[tactic(auto, unfolding(crate::specs::Reading::verb_at))]
pub(crate) fn first_word<'a>(cursor: Cursor<'a>) -> Result<(Verb, Cursor<'a>), Fault>
    ensures value { Yields (spec.verb_at (tokens_ahead cursor.entry)) result }
    ensures markers { Keeps cursor.entry result }
{
    let ((token, left), rest) = next(cursor)?;
    match verb_of(&token) {
        Some(verb) => Ok((verb, rest)),
        None => Err(Fault::Unexpected(left)),
    }
}

/// What was read, where the text ends behind it.
#[tactic(auto, unfolding(crate::specs::Reading::end_at))]
pub(crate) fn at_end<'a, T: Drop>(found: T, cursor: Cursor<'a>) -> Result<(T, Cursor<'a>), Fault>
    ensures value { Follows found (spec.end_at (tokens_ahead cursor.entry)) result }
    ensures markers { Keeps cursor.entry result }
{
    match cursor.next() {
        None => Ok((found, cursor)),
        Some((_, left, _)) => Err(Fault::Unexpected(left)),
    }
}

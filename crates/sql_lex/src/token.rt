//! Tokens.

use crate::part::Part;
use crate::terminal::Terminal;

/// How two terms are compared.
#[derive(Clone, Copy, Debug, PartialEq, Eq)]
pub enum Comparison {
    /// `=`
    Equal,
    /// `<>`
    NotEqual,
    /// `<`
    Less,
    /// `<=`
    LessEqual,
    /// `>`
    Greater,
    /// `>=`
    GreaterEqual,
}

/// A token, with its part of the text where its spelling is not fixed.
#[derive(Drop)]
pub enum Token<'a> {
    /// A word of the grammar, or a sign.
    Fixed(Terminal),
    /// A sign of comparison.
    Compare(Comparison),
    /// `-`, and the number that it begins where a value may begin: itself and the digits that
    /// stand directly behind it, if any do.
    Minus(Option<Part<'a>>),
    /// `?`, and how many markers stand before it in the text.
    Marker(usize),
    /// A letter, then letters, digits and `_`; at most 30 bytes, and no word of the grammar.
    Name(Part<'a>),
    /// Digits.
    Number(Part<'a>),
    /// What stands between the quotes of a text, with each quote in it still doubled.
    Text(Part<'a>),
    /// The pairs of hexadecimal digits between the quotes behind an `X`.
    Bytes(Part<'a>),
    /// What is no token: a byte that begins none, a name that is too long, quotes that do not
    /// close, or bytes that are not pairs of hexadecimal digits.
    Unknown,
}

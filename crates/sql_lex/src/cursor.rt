//! A place in a text, from which tokens are cut.

ghost use Rattle.std.specs.Prelude.{◌≡◌, ◌<◌, ◌≤◌, ◌^◌, length, IfSome, slice_index, false};
ghost use Rattle.sql_lex.specs.Markers.{markers_of};
ghost use Rattle.sql_lex.specs.Tokens as spec;
ghost use Rattle.sql_lex.specs.Tokens.{Next};

use crate::cut::{is_blank, token};
use crate::token::Token;
use std::marker::Model;

/// A place in a text: what is left of it, and how many markers stand before. Contracts see it as
/// that number and the bytes that are left.
#[derive(Drop)]
pub struct Cursor<'a> {
    markers: usize,
    text: &'a [u8],
}

impl<'a> Model for Cursor<'a> {
    ghost use Rattle.std.specs.Prelude.{List, ℕ, ◌<◌, ◌+◌, ◌^◌, length};
    ghost use Rattle.std.specs.Coded.{coded_list, coded_ℕ, coded×};

    ghost Value = { ℕ × List ℕ };

    ghost coded = { coded× coded_ℕ (coded_list coded_ℕ) };

    ghost view = { λ c. (c.markers, c.text.now) };

    ghost invariant = { λ c. c.markers + length c.text.now < 2 ^ 63 };
}

fn skip_blanks(markers: usize, mut text: &[u8]) -> &[u8]
    ensures rest { spec.tokens_ahead (markers, result.now) ≡ spec.tokens_ahead (markers, text.entry.now) }
    ensures stops { spec.is_blank (slice_index result.now 0) ≡ false }
    ensures within { length result.now ≤ length text.entry.now }
{
    while let [b, rest @ ..] = text {
        if !is_blank(*b) {
            return text;
        }
        text = rest;
    }
    text
}

impl<'a> Cursor<'a> {
    /// The beginning of a text.
    pub fn new(text: &'a [u8]) -> Cursor<'a>
        requires { length text.now < 2 ^ 63 }
        ensures { result ≡ (0, text.now) }
    {
        Cursor { markers: 0, text }
    }

    /// How many markers stand before.
    pub fn markers(&self) -> usize
        ensures { result ≡ self.now.0 }
    {
        self.markers
    }

    /// The next token, how many bytes there are from it on, and the place behind it; nothing at
    /// the text's end.
    #[inline(always)]
    pub fn next(&self) -> Option<(Token<'a>, usize, Cursor<'a>)>
        ensures token { Next self.now result }
        ensures shorter { IfSome result (λ x. length x.2.1 < length self.now.1) }
        ensures markers { IfSome result (λ x. markers_of x.2 ≡ markers_of self.now) }
    {
        let text = skip_blanks(self.markers, self.text);
        if text.is_empty() {
            return None;
        }
        let (token, n) = token(self.markers, text);
        let markers = counted(&token, self.markers);
        let rest = Cursor {
            markers,
            text: &text[n..],
        };
        Some((token, text.len(), rest))
    }
}

/// How many markers stand before what follows a token.
fn counted(token: &Token<'_>, markers: usize) -> usize
    requires { markers < 2 ^ 63 }
    ensures { result ≡ spec.counted token.now markers }
{
    match token {
        Token::Marker(_) => markers + 1,
        _ => markers,
    }
}

//! Cuts the token at the front of a text.

ghost use Rattle.std.specs.Prelude.{◌≡◌, ◌≢◌, ◌<◌, ◌≤◌, ◌+◌, ◌^◌, length, slice_index, IfSome, true, false, find, position, ◌==◌};
ghost use Rattle.std.specs.List.{prefix_len, list_all};
ghost use Rattle.std.specs.Char.{is_ascii_digit, is_ascii_alphabetic, is_ascii_hexdigit};
ghost use Rattle.sql_lex.specs.Terminal as wordlist;
ghost use Rattle.sql_lex.specs.Tokens as spec;

use crate::part::Part;
use crate::terminal::{Terminal, words_of};
use crate::token::{Comparison, Token};

/// The most bytes of a name.
const MAX_NAME_BYTES: usize = 30;

pub(crate) fn is_blank(b: u8) -> bool
    ensures { result ≡ spec.is_blank b }
{
    b == b' ' || b == b'\t' || b == b'\n' || b == b'\r'
}

fn goes_on(b: u8) -> bool
    ensures { result ≡ spec.goes_on b }
{
    b.is_ascii_alphanumeric() || b == b'_'
}

/// The byte at a place, or 0 where there is none.
fn byte(text: &[u8], at: usize) -> u8
    ensures value { result ≡ slice_index text.now at }
    ensures within { result ≢ 0 → at < length text.now }
{
    if at < text.len() { text[at] } else { 0 }
}

fn word_len(text: &[u8]) -> usize
    ensures value { result ≡ prefix_len spec.goes_on text.now }
    ensures within { result ≤ length text.now }
    ensures moves { is_ascii_alphabetic (slice_index text.now 0) ≡ true → 1 ≤ result }
{
    text.iter().take_while(|b| goes_on(**b)).count()
}

fn digits_len(text: &[u8]) -> usize
    ensures value { result ≡ prefix_len is_ascii_digit text.now }
    ensures within { result ≤ length text.now }
    ensures moves { is_ascii_digit (slice_index text.now 0) ≡ true → 1 ≤ result }
{
    text.iter().take_while(|b| b.is_ascii_digit()).count()
}

fn is_spelled(text: &[u8], word: Terminal) -> bool
    ensures { result ≡ spec.is_spelled text.now word }
{
    text.eq_ignore_ascii_case(word.spelling())
}

fn spelled_among(words: &[Terminal], text: &[u8]) -> Option<Terminal>
    ensures { result ≡ find (spec.is_spelled text.now) words.now }
{
    words.iter().copied().find(|w| is_spelled(text, *w))
}

fn word(text: &[u8]) -> Option<Terminal>
    ensures { result ≡ find (spec.is_spelled text.now) wordlist.words }
{
    spelled_among(words_of(text.len()), text)
}

#[tactic(auto, unfolding(crate::specs::Tokens::named))]
fn named(text: &[u8]) -> Token<'_>
    ensures { result ≡ spec.named text.now }
{
    match word(text) {
        Some(word) => Token::Fixed(word),
        None if text.len() <= MAX_NAME_BYTES => Token::Name(Part::new(text)),
        None => Token::Unknown,
    }
}

fn closing(mut text: &[u8]) -> Option<usize>
    requires { length text.now < 2 ^ 63 }
    ensures value { result ≡ spec.closing false 0 text.entry.now }
    ensures within { IfSome result (λ end. end < length text.entry.now) }
{
    let mut at = 0;
    while let [b, rest @ ..] = text {
        if *b != b'\'' {
            at += 1;
            text = rest;
        } else if let [b'\'', rest @ ..] = rest {
            at += 2;
            text = rest;
        } else {
            return Some(at);
        }
    }
    None
}

fn quoted(text: &[u8]) -> (Token<'_>, usize)
    requires { length text.now < 2 ^ 63 }
    ensures value { result ≡ spec.quoted_by text.now (spec.closing false 0 text.now) }
    ensures within { (1 ≤ result.1) × (result.1 ≤ length text.now + 1) }
{
    match closing(text) {
        None => (Token::Unknown, 1),
        Some(end) => (Token::Text(Part::new(&text[..end])), end + 2),
    }
}

fn all_hexadecimal(text: &[u8]) -> bool
    ensures { result ≡ list_all is_ascii_hexdigit text.now }
{
    text.iter().all(|b| b.is_ascii_hexdigit())
}

fn is_pairs(text: &[u8]) -> bool
    ensures { result ≡ spec.is_pairs text.now }
{
    text.len() % 2 == 0 && all_hexadecimal(text)
}

fn first_quote(text: &[u8]) -> Option<usize>
    ensures value { result ≡ position (λ b. b == 39) text.now }
    ensures within { IfSome result (λ end. end < length text.now) }
{
    text.iter().position(|b| *b == b'\'')
}

fn hexadecimal(text: &[u8]) -> (Token<'_>, usize)
    requires { length text.now < 2 ^ 63 }
    ensures value { result ≡ spec.hexadecimal_by text.now (position (λ b. b == 39) text.now) }
    ensures within { (1 ≤ result.1) × (result.1 ≤ length text.now + 2) }
{
    let Some(end) = first_quote(text) else {
        return (Token::Unknown, 1);
    };
    if !is_pairs(&text[..end]) {
        return (Token::Unknown, 1);
    }
    (Token::Bytes(Part::new(&text[..end])), end + 3)
}

fn minus(text: &[u8]) -> Token<'_>
    requires some { 0 < length text.now }
    requires fits { length text.now < 2 ^ 63 }
    ensures { result ≡ spec.minus text.now }
{
    let n = digits_len(&text[1..]);
    if n == 0 {
        return Token::Minus(None);
    }
    Token::Minus(Some(Part::new(&text[..n + 1])))
}

#[tactic(auto, unfolding(crate::specs::Tokens::sign))]
fn sign<'a>(b: u8, next: u8) -> (Token<'a>, usize)
    ensures value { result ≡ spec.sign b next }
    ensures within { (1 ≤ result.1) × (result.1 ≤ 2) × (next ≡ 0 → result.1 ≡ 1) }
{
    match b {
        b'<' => match next {
            b'=' => (Token::Compare(Comparison::LessEqual), 2),
            b'>' => (Token::Compare(Comparison::NotEqual), 2),
            _ => (Token::Compare(Comparison::Less), 1),
        },
        b'>' => match next {
            b'=' => (Token::Compare(Comparison::GreaterEqual), 2),
            _ => (Token::Compare(Comparison::Greater), 1),
        },
        b'=' => (Token::Compare(Comparison::Equal), 1),
        b'(' => (Token::Fixed(Terminal::Open), 1),
        b')' => (Token::Fixed(Terminal::Close), 1),
        b',' => (Token::Fixed(Terminal::Comma), 1),
        b'*' => (Token::Fixed(Terminal::Star), 1),
        b'+' => (Token::Fixed(Terminal::Plus), 1),
        _ => (Token::Unknown, 1),
    }
}

#[tactic(auto, unfolding(crate::specs::Tokens::lettered))]
fn lettered(text: &[u8]) -> (Token<'_>, usize)
    requires some { is_ascii_alphabetic (slice_index text.now 0) ≡ true }
    requires fits { length text.now < 2 ^ 63 }
    ensures value { result ≡ spec.lettered text.now }
    ensures within { (1 ≤ result.1) × (result.1 ≤ length text.now) }
{
    if byte(text, 1) == b'\'' && byte(text, 0).eq_ignore_ascii_case(&b'X') {
        return hexadecimal(&text[2..]);
    }
    let n = word_len(text);
    (named(&text[..n]), n)
}

/// The token at the front, behind so many markers, and how many bytes it takes.
#[tactic(auto, unfolding(crate::specs::Tokens::token))]
pub(crate) fn token(markers: usize, text: &[u8]) -> (Token<'_>, usize)
    requires some { 0 < length text.now }
    requires fits { length text.now < 2 ^ 63 }
    ensures value { result ≡ spec.token markers text.now }
    ensures within { (1 ≤ result.1) × (result.1 ≤ length text.now) }
{
    let b = text[0];
    if b.is_ascii_alphabetic() {
        lettered(text)
    } else if b.is_ascii_digit() {
        let n = digits_len(text);
        (Token::Number(Part::new(&text[..n])), n)
    } else if b == b'\'' {
        quoted(&text[1..])
    } else if b == b'-' {
        (minus(text), 1)
    } else if b == b'?' {
        (Token::Marker(markers), 1)
    } else {
        sign(b, byte(text, 1))
    }
}

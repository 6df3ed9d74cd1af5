//! A page that is read.

ghost use Rattle.std.specs.Prelude.{◌≡◌, ◌==◌, true, IfSome, option_map};
ghost use Rattle.std.specs.List.{list_all};
ghost use Rattle.drda_words.specs.Bytes.{AreBytes};
ghost use Rattle.row_pages.specs.Page.{code_of};
ghost use Rattle.row_pages.specs.Reading.{has_rows, rows_in};
ghost use Rattle.row_pages.specs.Parsing.{Parses, SaysHead, kind_at, page_at};
ghost use Rattle.row_pages.specs.Keeping.{HoldsRows, Judges, page_with};

use crate::rows::{RowIter, behind_rows};
use drda_disk::PAGE_BYTES;
use std::marker::Model;

/// The bytes in front of a page's rows.
pub(crate) const HEADER_BYTES: usize = 3;

/// What the rows of a page are.
#[derive(Clone, Copy, Debug, PartialEq, Eq)]
pub enum PageKind {
    /// The names, schemas and places of tables.
    Catalogue,
    /// Rows of a table.
    Rows,
}

impl PageKind {
    /// The number that a page begins with: 1 or 2.
    pub fn code(self) -> u8
        ensures { result ≡ code_of self }
    {
        match self {
            PageKind::Catalogue => 1,
            PageKind::Rows => 2,
        }
    }

    /// The kind of this number, if it is one.
    pub(crate) fn of(code: u8) -> Option<PageKind>
        ensures { result ≡ kind_at code }
    {
        match code {
            1 => Some(PageKind::Catalogue),
            2 => Some(PageKind::Rows),
            _ => None,
        }
    }
}

/// Bytes that are no page.
#[derive(Clone, Copy, Debug, PartialEq, Eq)]
pub struct Damaged;

/// A page where it lies. Contracts see it as its kind and its list of rows.
#[derive(Drop)]
pub struct PageRef<'p> {
    kind: PageKind,
    count: usize,
    bytes: &'p [u8],
}

impl<'p> Model for PageRef<'p> {
    ghost use Rattle.std.specs.Prelude.{◌≡◌, true};
    ghost use Rattle.row_pages.specs.Page.{Page};
    ghost use Rattle.row_pages.specs.Reading.{has_rows, rows_in};

    ghost Value = { Page };

    ghost view = { λ p. record { kind = p.kind; rows = rows_in p.count p.bytes.now } };

    ghost invariant = { λ p. has_rows p.count p.bytes.now ≡ true };
}

impl<'p> PageRef<'p> {
    /// The page that the bytes are. `Damaged` exactly where they are none: their number is not
    /// 8,192, the kind is unknown, the rows do not fit, or what follows them is not zeros. Takes
    /// no memory.
    pub fn parse(bytes: &'p [u8]) -> Result<PageRef<'p>, Damaged>
        ensures { Parses bytes.now result }
    {
        match judged(bytes) {
            Some((kind, count)) => { Ok(PageRef::behind_head(kind, count, &bytes[HEADER_BYTES..])) }
            None => Err(Damaged),
        }
    }

    /// The page of this kind whose rows are the first ones of these bytes.
    pub(crate) fn behind_head(kind: PageKind, count: usize, bytes: &'p [u8]) -> PageRef<'p>
        requires { has_rows count bytes.now ≡ true }
        ensures { result ≡ record { kind = kind; rows = rows_in count bytes.now } }
    {
        PageRef { kind, count, bytes }
    }

    /// What the rows are.
    pub fn kind(&self) -> PageKind
        ensures { result ≡ self.now.kind }
    {
        self.kind
    }

    /// The rows, in their order. Takes no memory.
    pub fn rows(&self) -> RowIter<'p>
        ensures { result ≡ self.now.rows }
    {
        RowIter::new(self.count, self.bytes)
    }
}

/// The kind and the number of rows that the head of these bytes says, where they may be a page: there
/// are 8,192 of them, and the kind is known.
#[tactic(auto, unfolding(crate::specs::Parsing::page_at))]
pub(crate) fn head_of(bytes: &[u8]) -> Option<(PageKind, usize)>
    ensures head { SaysHead bytes.now result }
    ensures bytes { IfSome result (λ _. AreBytes bytes.now) }
{
    if bytes.len() != PAGE_BYTES {
        return None;
    }
    let [code, high, low, ..] = bytes else {
        return None;
    };
    let kind = PageKind::of(*code)?;
    Some((kind, u16::from_be_bytes([*high, *low]) as usize))
}

// The kind and the number of rows of the page that the bytes are, if they are one, read from the front.
fn read_head(bytes: &[u8]) -> Option<(PageKind, usize)>
    ensures page { option_map (λ head. page_with head bytes.now) result ≡ page_at bytes.now }
    ensures holds { IfSome result (λ head. HoldsRows head.1 bytes.now) }
{
    let (kind, count) = head_of(bytes)?;
    let zeros = behind_rows(count, &bytes[HEADER_BYTES..])?;
    if is_zero(zeros) {
        Some((kind, count))
    } else {
        None
    }
}

/// The kind and the number of rows of the page that the bytes are; `None` exactly where they are
/// none.
pub(crate) fn judged(bytes: &[u8]) -> Option<(PageKind, usize)>
    ensures { Judges bytes.now result }
{
    read_head(bytes)
}

/// Whether all bytes are zero.
pub(crate) fn is_zero(bytes: &[u8]) -> bool
    ensures { result ≡ list_all (λ b. b == 0) bytes.now }
{
    bytes.iter().all(|byte| *byte == 0)
}

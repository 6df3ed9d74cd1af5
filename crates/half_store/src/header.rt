//! The header page of a half.
ghost use Rattle.std.specs.Prelude.{◌≡◌, ◌==◌, ◌^◌, ◌<◌, ◌≤◌, Some, length};
ghost use Rattle.std.specs.List.{list_all};
ghost use Rattle.std.specs.Int.{w32, from_be_bytes};
ghost use Rattle.drda_words.specs.Place.{part};
ghost use Rattle.drda_disk.specs.Layout.{page_bytes};
ghost use Rattle.half_store.specs.Header.{header_in, is_inside, half_in, layout_of, layout_word, opened, HasRoom};

use drda_disk::{OPEN_GATE, PAGE_BYTES};

/// The offset of the layout in a header page.
const LAYOUT_AT: usize = 21;

/// The bytes of a gate and a header.
const HEADER_BYTES: usize = 25;

/// How the journal of a half is laid out: which records it may have, and how many bytes a branch in
/// doubt holds back.
#[derive(Clone, Copy, Debug, PartialEq, Eq)]
pub enum Layout {
    /// A branch in doubt is decided by its transaction manager alone, and holds the bytes of that
    /// decision.
    One,
    /// It may be decided heuristically, too, and forgotten later: it holds the bytes of both.
    Two,
}

impl Layout {
    /// The number that stands in a header.
    pub(crate) fn word(self) -> u32
        ensures { result ≡ layout_word self }
    {
        match self {
            Layout::One => 0,
            Layout::Two => 2,
        }
    }

    // The layout of a number that stands in a header.
    fn of(word: u32) -> Option<Layout>
        ensures { result ≡ layout_of word }
    {
        match word {
            0 => Some(Layout::One),
            2 => Some(Layout::Two),
            _ => None,
        }
    }
}

/// What the header of a half says.
#[derive(Clone, Copy, Debug, PartialEq, Eq)]
pub struct Header {
    /// The open half with the greater one is active.
    pub generation: u64,
    /// The pages behind the header.
    pub pages: u32,
    /// The number of the first catalogue page, counted from 0 behind the header.
    pub first_catalogue: u32,
    /// The number of catalogue pages.
    pub catalogue_pages: u32,
    /// How its journal is laid out.
    pub layout: Layout,
}

/// What a half's header page reads as.
#[derive(Clone, Copy, Debug, PartialEq, Eq)]
pub(crate) enum HalfState {
    /// The gate is closed, and nothing else was looked at.
    Closed,
    /// The gate is open and the header is none.
    Unsound,
    Open(Header),
}

/// The pages and a gate lie in the half, and the catalogue's pages among the pages.
fn is_inside(half_bytes: usize, header: Header) -> bool
    ensures { result ≡ is_inside half_bytes header }
{
    PAGE_BYTES * (1 + header.pages as usize) < half_bytes
        && header.first_catalogue as usize + header.catalogue_pages as usize
            <= header.pages as usize
}

/// All bytes are zero.
fn are_zeros(bytes: &[u8]) -> bool
    ensures { result ≡ list_all (λ b. b == 0) bytes.now }
{
    bytes.iter().all(|byte| *byte == 0)
}

/// The layout that a header page names.
fn layout_in(page: &[u8]) -> Option<Layout>
    requires { length page.now ≡ page_bytes }
    ensures { result ≡ layout_of (from_be_bytes w32 (part page.now 21 4)) }
{
    let (word, _) = page[LAYOUT_AT..].split_at(4);
    Layout::of(u32::from_be_bytes([word[0], word[1], word[2], word[3]]))
}

/// The header of this layout that a page has behind its gate.
fn header_in(layout: Layout, page: &[u8]) -> Header
    requires { length page.now ≡ page_bytes }
    ensures { result ≡ header_in layout page.now }
{
    let [
        _,
        g0,
        g1,
        g2,
        g3,
        g4,
        g5,
        g6,
        g7,
        p0,
        p1,
        p2,
        p3,
        f0,
        f1,
        f2,
        f3,
        c0,
        c1,
        c2,
        c3,
        ..
    ] = page
    else {
        unreachable!()
    };
    Header {
        generation: u64::from_be_bytes([*g0, *g1, *g2, *g3, *g4, *g5, *g6, *g7]),
        pages: u32::from_be_bytes([*p0, *p1, *p2, *p3]),
        first_catalogue: u32::from_be_bytes([*f0, *f1, *f2, *f3]),
        catalogue_pages: u32::from_be_bytes([*c0, *c1, *c2, *c3]),
        layout,
    }
}

/// What the header of this layout says of its half, behind an open gate.
fn opened_as(half_bytes: usize, page: &[u8], layout: Layout) -> HalfState
    requires { length page.now ≡ page_bytes }
    ensures state { result ≡ opened half_bytes page.now (Some layout) }
    ensures room { HasRoom half_bytes result }
{
    let header = header_in(layout, page);
    if is_inside(half_bytes, header) && are_zeros(&page[HEADER_BYTES..]) {
        HalfState::Open(header)
    } else {
        HalfState::Unsound
    }
}

/// What a header page of a half of so many bytes reads as.
#[tactic(auto, unfolding(crate::specs::Header::half_in))]
pub(crate) fn half_in(half_bytes: usize, page: &[u8]) -> HalfState
    requires { length page.now ≡ page_bytes }
    ensures state { result ≡ half_in half_bytes page.now }
    ensures room { HasRoom half_bytes result }
{
    if page[0] != OPEN_GATE {
        return HalfState::Closed;
    }
    match layout_in(page) {
        Some(layout) => opened_as(half_bytes, page, layout),
        None => HalfState::Unsound,
    }
}

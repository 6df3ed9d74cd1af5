//! The rows of a page, one after another.

ghost use Rattle.std.specs.Prelude.{◌≡◌, ◌+◌, ◌<◌, ◌≤◌, ◌++◌, ◌∷◌, [], true, drop, length, option_map, vec_capacity};
ghost use Rattle.std.specs.Iterator.{at_most};
ghost use Rattle.drda_disk.specs.Layout.{page_bytes};
ghost use Rattle.row_pages.specs.Reading.{has_rows, row_at, rows_in};
ghost use Rattle.row_pages.specs.Walk.{EndsAt, GivesRow, Places, StandsBehind};

use crate::page::HEADER_BYTES;
use std::iter::Iterator;
use std::marker::Model;

/// The rows that are left to give. Contracts see it as the list of them.
#[derive(Drop)]
pub struct RowIter<'p> {
    left: usize,
    bytes: &'p [u8],
}

impl<'p> Model for RowIter<'p> {
    ghost use Rattle.std.specs.Prelude.{◌≡◌, ℕ, List, true};
    ghost use Rattle.row_pages.specs.Reading.{has_rows, rows_in};

    ghost Value = { List (List ℕ) };

    ghost view = { λ r. rows_in r.left r.bytes.now };

    ghost invariant = { λ r. has_rows r.left r.bytes.now ≡ true };
}

impl<'p> RowIter<'p> {
    /// The first rows of these bytes.
    pub(crate) fn new(left: usize, bytes: &'p [u8]) -> RowIter<'p>
        requires { has_rows left bytes.now ≡ true }
        ensures { result ≡ rows_in left bytes.now }
    {
        RowIter { left, bytes }
    }
}

impl<'p> Iterator for RowIter<'p> {
    type Item = &'p [u8];

    ghost next_gives = { GivesRow };

    ghost remaining = { λ r. at_most (length r) };

    fn next(&mut self) -> Option<&'p [u8]> {
        if self.left == 0 {
            return None;
        }
        let (row, rest) = first_row(self.bytes)?;
        self.left -= 1;
        self.bytes = rest;
        Some(row)
    }
}

/// The row in front of the bytes, and what follows it.
#[tactic(auto, unfolding(crate::specs::Reading::row_at))]
pub(crate) fn first_row(bytes: &[u8]) -> Option<(&[u8], &[u8])>
    ensures { option_map (λ x. (x.0.now, x.1.now)) result ≡ row_at bytes.now }
{
    let [high, low, rest @ ..] = bytes else {
        return None;
    };
    let length = u16::from_be_bytes([*high, *low]) as usize;
    if length <= rest.len() {
        Some((&rest[..length], &rest[length..]))
    } else {
        None
    }
}

/// What follows the first rows, where there are so many.
pub(crate) fn behind_rows(count: usize, bytes: &[u8]) -> Option<&[u8]>
    ensures { StandsBehind count bytes.now result }
{
    let mut rest = bytes;
    for _ in 0..count {
        let (_, after) = first_row(rest)?;
        rest = after;
    }
    Some(rest)
}

/// The bytes from a place on.
#[inline(always)]
pub(crate) fn from_place(bytes: &[u8], at: usize) -> &[u8]
    requires { at ≤ length bytes.now }
    ensures { result.now ≡ drop at bytes.now }
{
    &bytes[at..]
}

// Where the row ends that begins at a place of the bytes, if one does.
fn row_end(bytes: &[u8], at: usize) -> Option<usize>
    requires { at ≤ length bytes.now }
    ensures { EndsAt bytes.now at result }
{
    let (row, _) = first_row(from_place(bytes, at))?;
    Some(at + 2 + row.len())
}

// Adds a place, for which there is room.
fn put_start(starts: &mut Vec<u16>, at: usize)
    requires room { length starts.old.items + 1 ≤ vec_capacity starts.old }
    requires small { at < 65536 }
    ensures items { starts.new.items ≡ starts.old.items ++ at ∷ [] }
    ensures capacity { vec_capacity starts.old ≤ vec_capacity starts.new }
{
    let _ = starts.push(at as u16);
}

/// The places of a page's bytes where its first rows begin, each with its length, into a list that has
/// room for them; and where the last one ends, where there are so many.
pub(crate) fn place_rows(starts: &mut Vec<u16>, count: usize, bytes: &[u8]) -> Option<usize>
    requires none { starts.old.items ≡ [] }
    requires room { count ≤ vec_capacity starts.old }
    requires size { length bytes.now ≡ page_bytes }
    ensures { Places count bytes.now starts.new.items result }
{
    let mut at = HEADER_BYTES;
    for _ in 0..count {
        let end = row_end(bytes, at)?;
        put_start(starts, at);
        at = end;
    }
    Some(at)
}

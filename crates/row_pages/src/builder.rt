//! A page that is being filled.

ghost use Rattle.std.specs.Prelude.{◌≡◌, ◌≤◌, ◌+◌, ◌-◌, ◌++◌, [], IfOk, OnErr, drop, length, replicate, vec_capacity};
ghost use Rattle.drda_disk.specs.Layout.{page_bytes};
ghost use Rattle.row_pages.specs.Page.{Fits, IsPage, rows_bytes};
ghost use Rattle.row_pages.specs.Filling.{Pushes};
ghost use Rattle.row_pages.specs.Laying.{IsShort, Lays};

use crate::kept::KeptPage;
use crate::page::{HEADER_BYTES, PageKind};
use drda_disk::PAGE_BYTES;
use std::alloc::{AllocError, Global};
use std::marker::Model;
use std::mem;

/// What became of a row that was pushed.
#[derive(Clone, Copy, Debug, PartialEq, Eq)]
pub enum Pushed {
    /// It is the page's last row now.
    Added,
    /// The page has no room for it, and is as it was.
    Full,
}

/// A page that is being filled. Contracts see it as its kind and its rows so far.
#[derive(Drop)]
pub struct PageBuilder {
    kind: PageKind,
    count: usize,
    bytes: Vec<u8>,
}

impl Model for PageBuilder {
    ghost use Rattle.std.specs.Prelude.{drop};
    ghost use Rattle.row_pages.specs.Page.{Page};
    ghost use Rattle.row_pages.specs.Reading.{rows_in};
    ghost use Rattle.row_pages.specs.Filling.{IsFilled};

    ghost Value = { Page };

    ghost view = { λ b. record { kind = b.kind; rows = rows_in b.count (drop 3 b.bytes.items) } };

    ghost invariant = { λ b. IsFilled b.count b.bytes };
}

/// Adds bytes for which there is room.
fn put(bytes: &mut Vec<u8>, more: &[u8])
    requires { length bytes.old.items + length more.now ≤ vec_capacity bytes.old }
    ensures items { bytes.new.items ≡ bytes.old.items ++ more.now }
    ensures capacity { vec_capacity bytes.old ≤ vec_capacity bytes.new }
{
    let _ = bytes.extend_from_slice(more);
}

/// Adds zeros up to a length for which there is room.
fn pad(bytes: &mut Vec<u8>, to: usize)
    requires longer { length bytes.old.items ≤ to }
    requires room { to ≤ vec_capacity bytes.old }
    ensures { bytes.new.items ≡ bytes.old.items ++ replicate (to - length bytes.old.items) 0 }
{
    for _ in bytes.len()..to {
        put(bytes, &[0]);
    }
}

/// Writes the head of a page over the places that were left for it.
fn set_head(bytes: &mut [u8], head: &[u8; 3])
    requires { 3 ≤ length bytes.old }
    ensures { bytes.new ≡ head.now ++ drop 3 bytes.old }
{
    bytes[..HEADER_BYTES].copy_from_slice(head);
}

impl PageBuilder {
    /// A page without rows. All of its memory is taken here.
    pub fn new(alloc: Global, kind: PageKind) -> Result<PageBuilder, AllocError>
        ensures { IfOk result (λ page. page ≡ record { kind = kind; rows = [] }) }
    {
        let mut bytes = Vec::with_capacity(alloc, PAGE_BYTES)?;
        put(&mut bytes, &[0, 0, 0]);
        Ok(PageBuilder {
            kind,
            count: 0,
            bytes,
        })
    }

    /// Puts a row behind the others: `Full` exactly where all of them do not fit into a page, which
    /// then is as it was.
    pub fn try_push(&mut self, row: &[u8]) -> Pushed
        ensures { Pushes row.now self.old result self.new }
    {
        if row.len() > PAGE_BYTES - HEADER_BYTES - 2
            || self.bytes.len() + 2 + row.len() > PAGE_BYTES
        {
            return Pushed::Full;
        }
        put(&mut self.bytes, &(row.len() as u16).to_be_bytes());
        put(&mut self.bytes, row);
        self.count += 1;
        Pushed::Added
    }

    /// Lays a row behind the others, or, where it does not fit, first into a new page; then the
    /// bytes of the page before are given out. A page of rows without any is filled so that it ends
    /// only where the next row does not fit. Out of memory: the page is as it was.
    pub fn lay(&mut self, alloc: Global, row: &[u8]) -> Result<Option<Vec<u8>>, AllocError>
        requires { IsShort row.now }
        ensures ok { IfOk result (λ given. Lays row.now self.old given self.new) }
        ensures err { OnErr result (self.new ≡ self.old) }
    {
        match self.try_push(row) {
            Pushed::Added => Ok(None),
            Pushed::Full => {
                let mut next = PageBuilder::new(alloc, self.kind)?;
                next.try_push(row);
                let full = mem::replace(self, next);
                Ok(Some(full.finish()))
            }
        }
    }

    /// How many bytes the page has left. A row takes its own, and two for its length.
    pub fn room(&self) -> usize
        ensures { 3 + length (rows_bytes self.now.rows) + result ≡ page_bytes }
    {
        PAGE_BYTES - self.bytes.len()
    }

    /// Goes on with a page that is there, in place of the one that is being filled, which is given out:
    /// the rows of that page are those of this one then, and its kind stays. Takes no memory.
    pub fn replace(&mut self, page: KeptPage) -> PageBuilder
        ensures former { result ≡ self.old }
        ensures page { self.new ≡ record { kind = self.old.kind; rows = page.rows } }
        ensures fits { Fits page.rows }
    {
        let (count, bytes) = page.into_filled();
        let kind = self.kind;
        mem::replace(self, PageBuilder { kind, count, bytes })
    }

    /// The bytes of the page, 8,192 of them. Takes no memory.
    pub fn finish(self) -> Vec<u8>
        ensures page { IsPage self result.items }
        ensures bytes { length result.items ≡ page_bytes }
    {
        let PageBuilder {
            kind,
            count,
            mut bytes,
        } = self;
        pad(&mut bytes, PAGE_BYTES);
        let [high, low] = (count as u16).to_be_bytes();
        set_head(&mut bytes, &[kind.code(), high, low]);
        bytes
    }
}

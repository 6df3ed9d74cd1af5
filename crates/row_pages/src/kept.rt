//! A page in memory of its own, judged when it was read.

ghost use Rattle.std.specs.Prelude.{◌≡◌, ◌≤◌, ◌<◌, ◌+◌, [], IsTrue, IfOk, Some, drop, length, vec_capacity};
ghost use Rattle.std.specs.List.{slice_get};
ghost use Rattle.drda_words.specs.Place.{part};
ghost use Rattle.drda_disk.specs.Disk.{Stays};
ghost use Rattle.drda_disk.specs.Layout.{page_bytes};
ghost use Rattle.row_pages.specs.Filling.{IsFilled};
ghost use Rattle.row_pages.specs.Page.{IsPage};
ghost use Rattle.row_pages.specs.Parsing.{ParsesKept};
ghost use Rattle.row_pages.specs.Reading.{rows_in};
ghost use Rattle.row_pages.specs.Keeping.{CountsPageFault, TellsDamage};

use crate::page::{HEADER_BYTES, PageKind, PageRef, head_of, is_zero};
use crate::rows::{first_row, from_place, place_rows};
use drda_disk::{Disk, DiskError, PAGE_BYTES, read_bytes};
use std::alloc::Global;
use std::marker::Model;
use thiserror::Error;

/// Why there is no page.
#[derive(Clone, Copy, Debug, PartialEq, Eq, Error)]
pub enum PageFault {
    #[error("no memory")]
    NoMemory,
    #[error("the device failed")]
    DeviceFailed,
    #[error("bytes that are no page")]
    Damaged,
}

impl From<DiskError> for PageFault {
    ghost use Rattle.std.specs.Prelude.{◌≡◌};
    ghost use Rattle.row_pages.specs.Keeping.{fault_of};

    ghost from_gives = { λ e f. f ≡ fault_of e };

    fn from(fault: DiskError) -> Self {
        match fault {
            DiskError::NoMemory => PageFault::NoMemory,
            DiskError::DeviceFailed => PageFault::DeviceFailed,
        }
    }
}

/// A page in memory of its own, whose bytes were judged when it was made, with the places where its
/// rows begin and where the last one ends. Contracts see it as its kind and its rows.
#[derive(Drop)]
pub struct KeptPage {
    kind: PageKind,
    starts: Vec<u16>,
    end: usize,
    bytes: Vec<u8>,
}

impl Model for KeptPage {
    ghost use Rattle.std.specs.Prelude.{length};
    ghost use Rattle.row_pages.specs.Page.{Page};
    ghost use Rattle.row_pages.specs.Keeping.{KeepsPage, page_with};

    ghost Value = { Page };

    ghost view = { λ p. page_with (p.kind, length p.starts.items) p.bytes.items };

    ghost invariant = { λ p. KeepsPage p.kind p.starts.items p.bytes.items p.end };
}

impl KeptPage {
    /// The page that the bytes are; `Damaged` exactly where they are none. The places of its rows go into
    /// a list that is there, in place of what it has: memory is taken only where it has no room for them.
    pub(crate) fn parse(bytes: Vec<u8>, mut starts: Vec<u16>) -> Result<KeptPage, PageFault>
        ensures { ParsesKept bytes.items result }
    {
        let Some((kind, count)) = head_of(&bytes) else {
            return Err(PageFault::Damaged);
        };
        if !empty_for(&mut starts, count) {
            return Err(PageFault::NoMemory);
        }
        match place_rows(&mut starts, count, &bytes) {
            Some(end) => {
                if is_zero(from_place(&bytes, end)) {
                    Ok(KeptPage {
                        kind,
                        starts,
                        end,
                        bytes,
                    })
                } else {
                    Err(PageFault::Damaged)
                }
            }
            None => Err(PageFault::Damaged),
        }
    }

    /// How many rows it has.
    pub fn len(&self) -> usize
        ensures { result ≡ length self.now.rows }
    {
        self.starts.len()
    }

    /// Row `i`, counted from 0, found at once.
    pub fn row(&self, i: usize) -> &[u8]
        requires { i < length self.now.rows }
        ensures { slice_get self.now.rows i ≡ Some result.now }
    {
        match first_row(from_place(&self.bytes, usize::from(self.starts[i]))) {
            Some((row, _)) => row,
            None => unreachable!(),
        }
    }

    /// The number of its rows, and its bytes up to where the last one ends: a page that goes on to be
    /// filled. Takes no memory.
    pub(crate) fn into_filled(self) -> (usize, Vec<u8>)
        ensures filled { IsFilled result.0 result.1 }
        ensures rows { rows_in result.0 (drop 3 result.1.items) ≡ self.rows }
    {
        let KeptPage {
            kind: _,
            starts,
            end,
            mut bytes,
        } = self;
        bytes.truncate(end);
        (starts.len(), bytes)
    }

    /// Its bytes, 8,192 of them, and the list of the places of its rows: memory for another page. Takes no memory.
    pub(crate) fn into_parts(self) -> (Vec<u8>, Vec<u16>)
        ensures { length result.0.items ≡ page_bytes }
    {
        let KeptPage {
            kind: _,
            starts,
            end: _,
            bytes,
        } = self;
        (bytes, starts)
    }

    /// The page where it lies. Takes no memory.
    pub fn page_ref(&self) -> PageRef<'_>
        ensures { result ≡ self.now }
    {
        PageRef::behind_head(self.kind, self.starts.len(), &self.bytes[HEADER_BYTES..])
    }
}

// Lets go of the places that a list has, and makes room in it for so many; whether there is room.
fn empty_for(starts: &mut Vec<u16>, count: usize) -> bool
    ensures room { IsTrue result → count ≤ vec_capacity starts.new }
    ensures none { starts.new.items ≡ [] }
{
    starts.clear();
    starts.reserve(count).is_ok()
}

/// The page that the disk reads at an offset, in memory of its own: for who reads it once, since no
/// cache keeps it. The range lies inside the disk. `Damaged` is told only where the bytes there are no
/// page.
pub fn read_page<D: Disk>(alloc: Global, disk: &mut D, at: usize) -> Result<KeptPage, PageFault>
    requires { at + page_bytes ≤ length (D.life disk.old).seen }
    ensures page { IfOk result (λ page. IsTrue D.is_modelled → IsPage page (part (D.life disk.old).seen at page_bytes)) }
    ensures damaged { IsTrue D.is_modelled → TellsDamage (part (D.life disk.old).seen at page_bytes) result }
    ensures stays { Stays (D.life disk.old) (D.life disk.new) }
    ensures faults { CountsPageFault result (D.life disk.old).faults (D.life disk.new).faults }
{
    let bytes = read_bytes(alloc, disk, at, PAGE_BYTES)?;
    KeptPage::parse(bytes, Vec::new(alloc))
}

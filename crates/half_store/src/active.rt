//! The active half of a store.
ghost use Rattle.std.specs.Prelude.{◌≡◌, ◌+◌, ◌*◌, ◌^◌, ◌<◌, ℕ, IfOk, string_bytes};
ghost use Rattle.drda_disk.specs.Layout.{page_bytes};
ghost use Rattle.half_store.specs.Header.{HasRoom};
ghost use Rattle.half_store.specs.Active.{picked, with_half};
ghost use Rattle.half_store.specs.Opened.{Tells, IsBehindPages, store_of, CountsOpen};

use crate::header::HalfState;
use crate::layout::FIRST_AT;
use crate::{Half, Header, Layout, OpenError};
use drda_disk::{PAGE_BYTES, Region};

/// The half of a store that counts, and the name of its database.
#[derive(Debug, Drop)]
pub struct Active {
    /// The database's name: 1 to 18 printable characters.
    pub name: String,
    pub half: Half,
    pub generation: u64,
    /// The number of its pages, which lie behind its header.
    pub pages: u32,
    /// The number of the first catalogue page, from 0.
    pub first_catalogue: u32,
    pub catalogue_pages: u32,
    /// How its journal is laid out.
    pub layout: Layout,
    /// What is left of the half behind its pages: its journal's.
    pub region: Region,
}

/// The half that counts, or the offset at which the halves are damaged.
#[tactic(auto, unfolding(crate::specs::Active::picked))]
fn picked(half_bytes: usize, first: HalfState, second: HalfState) -> Result<(Half, Header), usize>
    requires small { half_bytes < 2 ^ 40 }
    requires first { HasRoom half_bytes first }
    requires second { HasRoom half_bytes second }
    ensures picked { result ≡ picked half_bytes first second }
    ensures room { IfOk result (λ found. page_bytes * (1 + found.1.pages) < half_bytes) }
{
    match (first, second) {
        (HalfState::Unsound, _) => Err(FIRST_AT),
        (_, HalfState::Unsound) => Err(FIRST_AT + half_bytes),
        (HalfState::Closed, HalfState::Closed) => Err(FIRST_AT),
        (HalfState::Open(header), HalfState::Closed) => Ok((Half::First, header)),
        (HalfState::Closed, HalfState::Open(header)) => Ok((Half::Second, header)),
        (HalfState::Open(a), HalfState::Open(b)) => {
            if a.generation == b.generation {
                Err(FIRST_AT + half_bytes)
            } else if a.generation < b.generation {
                Ok((Half::Second, b))
            } else {
                Ok((Half::First, a))
            }
        }
    }
}

/// A half of so many bytes that counts, by its header.
pub(crate) fn active_at(half_bytes: usize, name: String, half: Half, header: Header) -> Active
    requires small { half_bytes < 2 ^ 40 }
    requires room { page_bytes * (1 + header.pages) < half_bytes }
    ensures store { store_of result ≡ record { name = string_bytes name; half = half; header = header } }
    ensures region { IsBehindPages half_bytes result }
{
    let used = PAGE_BYTES * (1 + header.pages as usize);
    Active {
        name,
        half,
        generation: header.generation,
        pages: header.pages,
        first_catalogue: header.first_catalogue,
        catalogue_pages: header.catalogue_pages,
        layout: header.layout,
        region: Region {
            at: half.offset(half_bytes) + used,
            length: half_bytes - used,
        },
    }
}

/// The half that counts, of the halves of a store of this name.
pub(crate) fn judged(
    half_bytes: usize,
    name: String,
    first: HalfState,
    second: HalfState,
) -> Result<Active, OpenError>
    requires small { half_bytes < 2 ^ 40 }
    requires first { HasRoom half_bytes first }
    requires second { HasRoom half_bytes second }
    ensures told { Tells (with_half (string_bytes name) (picked half_bytes first second)) result }
    ensures region { IfOk result (IsBehindPages half_bytes) }
    ensures cause { (n : ℕ) → CountsOpen result n n }
{
    match picked(half_bytes, first, second) {
        Ok((half, header)) => Ok(active_at(half_bytes, name, half, header)),
        Err(at) => Err(OpenError::Damaged { at }),
    }
}

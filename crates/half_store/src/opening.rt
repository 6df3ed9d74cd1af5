//! Opening a store.
ghost use Rattle.std.specs.Prelude.{◌≡◌, ◌+◌, ◌≤◌, IsTrue, OnOk, IfOk, length};
ghost use Rattle.drda_words.specs.Place.{part};
ghost use Rattle.drda_disk.specs.Disk.{Stays};
ghost use Rattle.drda_disk.specs.Errors.{CountsError};
ghost use Rattle.drda_disk.specs.Layout.{page_bytes};
ghost use Rattle.half_store.specs.Layout.{half_len, is_store_size};
ghost use Rattle.half_store.specs.Header.{half_in, HasRoom};
ghost use Rattle.half_store.specs.Active.{active_of};
ghost use Rattle.half_store.specs.Opened.{Tells, IsBehindPages, CountsOpen};

use crate::active::judged;
use crate::head::read_name;
use crate::header::{HalfState, half_in};
use crate::layout::{FIRST_AT, half_bytes, is_store_size};
use crate::{Active, OpenError};
use drda_disk::{Disk, DiskError, PAGE_BYTES, read_bytes};
use std::alloc::Global;

/// What the header page of a half at an offset reads as.
fn read_half<D: Disk>(
    alloc: Global,
    disk: &mut D,
    half_bytes: usize,
    at: usize,
) -> Result<HalfState, DiskError>
    requires { at + page_bytes ≤ length (D.life disk.old).seen }
    ensures state { IfOk result (λ state. IsTrue D.is_modelled → state ≡ half_in half_bytes (part (D.life disk.old).seen at page_bytes)) }
    ensures room { IfOk result (HasRoom half_bytes) }
    ensures stays { Stays (D.life disk.old) (D.life disk.new) }
    ensures cause { CountsError result (D.life disk.old).faults (D.life disk.new).faults }
{
    let page = read_bytes(alloc, disk, at, PAGE_BYTES)?;
    Ok(half_in(half_bytes, &page))
}

/// The store that a disk is: its name, its active half, and what that half's header says. Its head
/// and the header page of each half are read, and nothing else; nothing is written.
///
/// `NotAStore` comes where the disk has not 2 MiB to 1 GiB or does not begin with `DRDASTO1`.
/// `Damaged` comes at 8 for another layout than 1, at 12 for a size that is not the disk's, at 20 for
/// a name of another length than 1 to 18, at 21 for one that is not printable; at a half's offset
/// where its gate is open and its pages, with a byte for a gate, pass its end, its catalogue pages
/// pass its pages, the number of its own layout is neither 0 nor 2, or its header page has other
/// bytes than zeros behind the header; at the first half where no half is open, and at the second
/// where both are and have one generation. The first of these in this order counts.
pub fn open<D: Disk>(alloc: Global, disk: &mut D) -> Result<Active, OpenError>
    ensures active { IsTrue D.is_modelled → Tells (active_of (D.life disk.old).seen) result }
    ensures size { OnOk result (IsTrue (is_store_size (length (D.life disk.new).seen))) }
    ensures region { IfOk result (IsBehindPages (half_len (length (D.life disk.old).seen))) }
    ensures stays { Stays (D.life disk.old) (D.life disk.new) }
    ensures cause { CountsOpen result (D.life disk.old).faults (D.life disk.new).faults }
{
    let size = disk.size();
    if !is_store_size(size) {
        return Err(OpenError::NotAStore);
    }
    let name = read_name(alloc, disk, size)?;
    let half_bytes = half_bytes(size);
    let first = read_half(alloc, disk, half_bytes, FIRST_AT)?;
    let second = read_half(alloc, disk, half_bytes, FIRST_AT + half_bytes)?;
    judged(half_bytes, name, first, second)
}

//! The head of a store, in front of its halves.
ghost use Rattle.std.specs.Prelude.{◌≡◌, ◌≤◌, ℕ, IsTrue, length, take, IfOk, string_bytes};
ghost use Rattle.std.specs.Int.{w32, w64, from_be_bytes};
ghost use Rattle.drda_words.specs.Place.{part};
ghost use Rattle.drda_disk.specs.Disk.{Stays};
ghost use Rattle.half_store.specs.Layout.{are_printable};
ghost use Rattle.half_store.specs.Active.{name_in, name_behind, is_marked};
ghost use Rattle.half_store.specs.Opened.{TellsName, CountsOpen};

use crate::OpenError;
use crate::layout::are_printable;
use drda_disk::Disk;
use std::alloc::{AllocError, Global};

/// The bytes of the mark.
pub const MARK_BYTES: usize = 8;

/// The first bytes of every store.
pub const MARK: [u8; MARK_BYTES] = *b"DRDASTO1";

/// The one layout that there is.
pub(crate) const LAYOUT: u32 = 1;

/// The bytes of a head with the longest name.
const HEAD_BYTES: usize = 39;

/// The longest name of a database.
pub(crate) const LONGEST_NAME: usize = 18;

/// The offsets of a head's parts.
const LAYOUT_AT: usize = 8;

const SIZE_AT: usize = 12;

const NAME_LENGTH_AT: usize = 20;

const NAME_AT: usize = 21;

/// A copy of printable bytes, as text.
fn text_of(alloc: Global, bytes: &[u8]) -> Result<String, AllocError>
    requires { IsTrue (are_printable bytes.now) }
    ensures { IfOk result (λ text. string_bytes text ≡ bytes.now) }
{
    let mut text = String::new(alloc);
    for byte in bytes {
        text.push(char::from(*byte))?;
    }
    Ok(text)
}

/// The bytes begin as a store does.
fn is_marked(bytes: &[u8]) -> bool
    requires { 8 ≤ length bytes.now }
    ensures { result ≡ is_marked bytes.now }
{
    bytes[..MARK_BYTES] == MARK[..]
}

/// The name of so many bytes in front of these.
fn name_behind(alloc: Global, name_bytes: usize, bytes: &[u8]) -> Result<String, OpenError>
    requires { 18 ≤ length bytes.now }
    ensures name { TellsName (name_behind name_bytes bytes.now) result }
    ensures cause { (n : ℕ) → CountsOpen result n n }
{
    if name_bytes == 0 || name_bytes > LONGEST_NAME {
        return Err(OpenError::Damaged { at: NAME_LENGTH_AT });
    }
    let name = &bytes[..name_bytes];
    if !are_printable(name) {
        return Err(OpenError::Damaged { at: NAME_AT });
    }
    Ok(text_of(alloc, name)?)
}

/// The layout and the size that a head tells.
fn numbers_in(head: &[u8]) -> (u32, u64)
    requires { length head.now ≡ 39 }
    ensures layout { result.0 ≡ from_be_bytes w32 (part head.now 8 4) }
    ensures size { result.1 ≡ from_be_bytes w64 (part head.now 12 8) }
{
    let [
        _,
        _,
        _,
        _,
        _,
        _,
        _,
        _,
        l0,
        l1,
        l2,
        l3,
        s0,
        s1,
        s2,
        s3,
        s4,
        s5,
        s6,
        s7,
        ..
    ] = head
    else {
        return (0, 0);
    };
    (
        u32::from_be_bytes([*l0, *l1, *l2, *l3]),
        u64::from_be_bytes([*s0, *s1, *s2, *s3, *s4, *s5, *s6, *s7]),
    )
}

/// The name in the head of a store of this size, judged from the front.
#[tactic(auto, unfolding(crate::specs::Active::name_in))]
fn name_in(alloc: Global, size: usize, head: &[u8]) -> Result<String, OpenError>
    requires { length head.now ≡ 39 }
    ensures name { TellsName (name_in size head.now) result }
    ensures cause { (n : ℕ) → CountsOpen result n n }
{
    if !is_marked(head) {
        return Err(OpenError::NotAStore);
    }
    let (layout, stored_size) = numbers_in(head);
    if layout != LAYOUT {
        return Err(OpenError::Damaged { at: LAYOUT_AT });
    }
    if stored_size != size as u64 {
        return Err(OpenError::Damaged { at: SIZE_AT });
    }
    name_behind(alloc, head[NAME_LENGTH_AT] as usize, &head[NAME_AT..])
}

/// The name in the head of a disk of this size.
pub(crate) fn read_name<D: Disk>(
    alloc: Global,
    disk: &mut D,
    size: usize,
) -> Result<String, OpenError>
    requires { 39 ≤ length (D.life disk.old).seen }
    ensures name { IsTrue D.is_modelled → TellsName (name_in size (take 39 (D.life disk.old).seen)) result }
    ensures stays { Stays (D.life disk.old) (D.life disk.new) }
    ensures cause { CountsOpen result (D.life disk.old).faults (D.life disk.new).faults }
{
    let mut head = [0u8; HEAD_BYTES];
    disk.read_at(0, &mut head)?;
    name_in(alloc, size, &head)
}

//! Transaction branch identifiers.

ghost use Rattle.std.specs.Prelude.{◌≡◌, ◌≢◌, ◌<◌, ◌≤◌, ◌+◌, ◌-◌, ◌++◌, replicate, List, ℕ, length, Some, None, IfOk, OnErr, OnOk, if◌then◌else◌};
ghost use Rattle.std.specs.Result.{result_ok};
ghost use Rattle.std.specs.Str.{bytes_eq};
ghost use Rattle.std.specs.Ordering.{nat_cmp};
ghost use Rattle.std.specs.Cmp.{partial_equiv_from_equiv};
ghost use Rattle.std.specs.Cmp.Lexicographic.{slice_cmp, nat_list_eq_equiv, nat_list_cmp_total, texts_po, texts_ties};
ghost use Rattle.std.proofs.Common.{refl};
ghost use Rattle.drda_words.specs.Bytes.{AreBytes};
ghost use Rattle.xa_calls.specs.Xid.{Parts, AreParts, IsXid, BeginsWith, wire, parts_of, number_at, begins_with_xid, xid_length, xid_in};

use std::alloc::AllocError;
use std::cmp::Ordering;
use std::fmt;
use std::marker::Model;
use thiserror::Error;

/// The bytes before the two parts: three numbers of four bytes.
const HEAD: usize = 12;

/// The longest that each of the two parts may be, in bytes.
const MAX_PART_BYTES: u32 = 64;

/// The format number of the null XID, which names no branch (-1 as 32 bits).
const NULL_FORMAT: u32 = 0xFFFF_FFFF;

/// What a text begins with is no XID data, or that of the null XID.
#[derive(Clone, Copy, Debug, PartialEq, Eq, Error)]
#[error("not an XID")]
pub struct BadXid;

/// A transaction branch identifier: a format number, a global transaction identifier of 1 to 64
/// bytes and a branch qualifier of 0 to 64 bytes (C193 chapter 4, "Transaction Identification"; that a
/// branch qualifier may be empty is this server's own leniency). Contracts see it as the bytes that write it.
#[derive(Clone, Copy)]
pub struct Xid {
    bytes: [u8; 140],
    used: u8,
}

impl Model for Xid {
    ghost use Rattle.std.specs.Prelude.{List, ℕ, ◌++◌, ◌-◌, length, take, replicate};
    ghost use Rattle.std.specs.Str.{bytes_eq};
    ghost use Rattle.std.specs.Ordering.{nat_cmp};
    ghost use Rattle.std.specs.Cmp.{partial_equiv_from_equiv};
    ghost use Rattle.std.specs.Cmp.Lexicographic.{slice_cmp, nat_list_eq_equiv, nat_list_cmp_total, texts_po, texts_ties};
    ghost use Rattle.std.proofs.Common.{refl};
    ghost use Rattle.drda_words.specs.Bytes.{AreBytes};
    ghost use Rattle.xa_calls.specs.Xid.{IsPadded, padded-take, length-take_padded};

    ghost Value = { List ℕ };

    ghost view = { λ x. take x.used x.bytes };

    ghost invariant = { λ x. IsPadded x.bytes x.used };

    ghost inverse = { λ l. record { bytes = l ++ replicate (140 - length l) 0; used = length l } };

    ghost inverse_ok = { λ x h i. record { bytes = padded-take x.bytes x.used h i; used = length-take_padded x.bytes x.used h i } };
}

impl Xid {
    /// The XID that a text begins with, as DRDA's XID data: its format number, the lengths of its
    /// parts, four bytes each, highest first, and then the parts. Bytes after them are skipped.
    ///
    /// `BadXid` exactly where the text begins with no such data: it is too short, a part's length is
    /// out of its range, or the format is that of the null XID. Takes no memory.
    pub fn read(text: &[u8]) -> Result<Xid, BadXid>
        ensures value { result_ok result ≡ xid_in text.now }
        ensures ok { IfOk result (λ xid. IsXid xid × BeginsWith text.now xid) }
        ensures err { OnErr result ((p : Parts) (rest : List ℕ) → AreParts p → text.now ≢ wire p ++ rest) }
    {
        match length_in(text) {
            Some(length) => Ok(Xid::holding(&text[..length])),
            None => Err(BadXid),
        }
    }

    // The XID of these bytes.
    fn holding(bytes: &[u8]) -> Xid
        requires whole { xid_in bytes.now ≡ Some bytes.now }
        requires short { length bytes.now ≤ 140 }
        ensures { result ≡ bytes.now }
    {
        Xid {
            bytes: padded(bytes),
            used: bytes.len() as u8,
        }
    }

    /// The bytes that write it, 13 to 140 of them. Branches are ordered by these bytes.
    pub fn as_bytes(&self) -> &[u8]
        ensures bytes { result.now ≡ self.now }
        ensures whole { xid_in self.now ≡ Some self.now }
    {
        &self.bytes[..self.used as usize]
    }

    /// Appends the bytes that write it; where memory is wanting, `out` is as before.
    pub fn write(&self, out: &mut Vec<u8>) -> Result<(), AllocError>
        ensures ok { OnOk result (out.new.items ≡ out.old.items ++ self.now) }
        ensures err { OnErr result (out.new.items ≡ out.old.items) }
    {
        out.extend_from_slice(self.as_bytes())
    }

    /// The format number.
    pub fn format(&self) -> u32
        ensures { result ≡ (parts_of self.now).format }
    {
        u32_at(self.as_bytes(), 0)
    }

    /// The global transaction identifier.
    pub fn global(&self) -> &[u8]
        ensures { result.now ≡ (parts_of self.now).global }
    {
        let bytes = self.as_bytes();
        let (_, rest) = bytes.split_at(HEAD);
        &rest[..u32_at(bytes, 4) as usize]
    }

    /// The branch qualifier, which may be empty.
    pub fn branch(&self) -> &[u8]
        ensures { result.now ≡ (parts_of self.now).branch }
    {
        let bytes = self.as_bytes();
        let (_, rest) = bytes.split_at(HEAD + u32_at(bytes, 4) as usize);
        &rest[..u32_at(bytes, 8) as usize]
    }
}

impl PartialEq for Xid {
    ghost eq = { λ a b. bytes_eq a b };

    ghost laws = { partial_equiv_from_equiv nat_list_eq_equiv };

    fn eq(&self, other: &Xid) -> bool {
        self.as_bytes() == other.as_bytes()
    }
}

impl Eq for Xid {
    ghost laws = { nat_list_eq_equiv };
}

impl PartialOrd for Xid {
    ghost partial_cmp = { λ a b. Some (slice_cmp nat_cmp a b) };

    ghost laws = { texts_po };

    fn partial_cmp(&self, other: &Xid) -> Option<Ordering> {
        Some(self.cmp(other))
    }
}

/// By the bytes that write them.
impl Ord for Xid {
    ghost cmp = { λ a b. slice_cmp nat_cmp a b };

    ghost total = { nat_list_cmp_total };

    ghost matches_partial_cmp = { λ a b. refl };

    ghost matches_eq = { λ a b. texts_ties a b };

    fn cmp(&self, other: &Xid) -> Ordering {
        self.as_bytes().cmp(other.as_bytes())
    }
}

impl fmt::Debug for Xid {
    fn fmt<W: fmt::Write>(&self, f: &mut fmt::Formatter<W>) -> fmt::Result {
        fmt::Debug::fmt(&self.as_bytes(), f)
    }
}

/// Each text of bytes begins with the data of one XID at most, and the reading finds it: those of
/// an XID with its parts in their ranges, read whatever follows them.
pub fn one_reading()
    ensures found { (text bytes : List ℕ) → AreBytes text → xid_in text ≡ Some bytes → IsXid bytes × BeginsWith text bytes }
    ensures again { (p : Parts) (rest : List ℕ) → AreParts p → xid_in (wire p ++ rest) ≡ Some (wire p) }
    ensures skipped { (bytes rest : List ℕ) → xid_in bytes ≡ Some bytes → xid_in (bytes ++ rest) ≡ Some bytes }
{}

// The bytes, and zeros after them.
fn padded(bytes: &[u8]) -> [u8; 140]
    requires { length bytes.now ≤ 140 }
    ensures { result ≡ bytes.now ++ replicate (140 - length bytes.now) 0 }
{
    let mut cells = [0; 140];
    cells[..bytes.len()].copy_from_slice(bytes);
    cells
}

// How many bytes the XID has that a text begins with.
fn length_in(text: &[u8]) -> Option<usize>
    ensures { result ≡ (if begins_with_xid text.now then Some (xid_length text.now) else None) }
{
    if text.len() < HEAD {
        return None;
    }
    let format = u32_at(text, 0);
    let global = u32_at(text, 4);
    let branch = u32_at(text, 8);
    if format == NULL_FORMAT || global == 0 || global > MAX_PART_BYTES || branch > MAX_PART_BYTES {
        return None;
    }
    let length = HEAD + global as usize + branch as usize;
    if text.len() < length {
        None
    } else {
        Some(length)
    }
}

// The number in the four bytes at a place.
fn u32_at(text: &[u8], at: usize) -> u32
    requires { at + 4 ≤ length text.now }
    ensures { result ≡ number_at text.now at }
{
    let (four, _) = text[at..].split_at(4);
    u32::from_be_bytes([four[0], four[1], four[2], four[3]])
}

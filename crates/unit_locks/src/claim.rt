//! Claims and their bytes.

ghost use Rattle.std.specs.Prelude.{◌≡◌, ◌≢◌, ◌≤◌, ◌<◌, ◌+◌, ◌^◌, ◌++◌, List, ℕ, Ok, Err, IfOk, OnOk, length, option_map, drop, take};
ghost use Rattle.unit_locks.specs.Claim.{Claim as ClaimIs, IsClaim, access_of, claim_bytes, key_of, key_or_empty, length_at, mode_of, scope_bytes, scope_length_at};
ghost use Rattle.unit_locks.specs.Clash.{clash, overlap};
ghost use Rattle.unit_locks.specs.Claims.{is_same};

use crate::access::Access;
use std::alloc::{AllocError, Global};
use std::marker::Model;
use thiserror::Error;

/// The most bytes of a table's name in a claim.
pub const MAX_NAME_BYTES: usize = 255;

/// The most bytes of a key in a claim.
pub const MAX_KEY_BYTES: usize = 65_535;

/// The mark of a claim that reads.
const READ: u8 = 0;

/// The mark of a claim that writes.
const WRITE: u8 = 1;

/// The mark of a claim of all of a table.
const ALL: u8 = 0;

/// The mark of a claim of one key.
const ONE_KEY: u8 = 1;

/// The bytes in front of the table's name: what is done, and the length of the name.
const HEADER_BYTES: usize = 2;

/// The bytes in front of a key: the mark of one key, and its length.
const SCOPE_HEADER_BYTES: usize = 3;

/// Why no claim was read.
#[derive(Clone, Copy, Debug, PartialEq, Eq, Error)]
pub enum ReadError {
    /// No claim stands in front of the bytes.
    #[error("damaged")]
    Damaged,
    /// Out of memory.
    #[error("no memory")]
    NoMemory,
}

impl From<AllocError> for ReadError {
    ghost use Rattle.unit_locks.specs.declared.claim.ReadError.TheVariants.{NoMemory};

    ghost from_gives = { λ _ e. e ≡ NoMemory };

    fn from(_: AllocError) -> ReadError {
        ReadError::NoMemory
    }
}

/// What a unit claims: to read or to write one key of a table, or all of the table. The key is what
/// `encode_key` of `row_values` writes, and the table's name stands in capitals; neither is judged
/// here. Contracts see it as its three parts. It is held as the bytes that write it.
#[derive(Debug, Drop)]
pub struct Claim {
    bytes: Vec<u8>,
}

impl Model for Claim {
    ghost use Rattle.std.specs.Prelude.{◌≡◌};
    ghost use Rattle.unit_locks.specs.Claim.{Claim as ClaimIs, IsClaim, claim_bytes, claim_of};

    ghost Value = { ClaimIs };

    ghost view = { λ c. claim_of c.bytes.items };

    ghost invariant = { λ c. (claim_bytes (claim_of c.bytes.items) ≡ c.bytes.items) × IsClaim (claim_of c.bytes.items) };
}

impl Claim {
    /// A claim of a table, and of one key of it where one is given.
    #[tactic(auto, using(crate::proofs::Bytes::claim_back))]
    pub fn new(
        alloc: Global,
        access: Access,
        table: &[u8],
        key: Option<&[u8]>,
    ) -> Result<Claim, AllocError>
        requires name { length table.now < 2 ^ 8 }
        requires key { length (key_or_empty (option_map (λ k. k.now) key)) < 2 ^ 16 }
        ensures { IfOk result (λ claim. claim ≡ record { access = access; table = table.now; key = option_map (λ k. k.now) key.entry }) }
    {
        let mut bytes = Vec::with_capacity(alloc, longest_claim(table, key))?;
        put_claim(&mut bytes, access, table, key)?;
        Ok(Claim { bytes })
    }

    /// The claim in front of these bytes, and the bytes that follow it. Only their form is judged:
    /// the marks and the lengths. `Damaged` exactly where no claim stands there.
    pub fn from_bytes(alloc: Global, bytes: &[u8]) -> Result<(Claim, &[u8]), ReadError>
        ensures ok { IfOk result (λ x. bytes.now ≡ claim_bytes x.0 ++ x.1.now) }
        ensures damaged { result ≡ Err ReadError.Damaged → (claim : ClaimIs) (rest : List ℕ) → IsClaim claim → bytes.now ≢ claim_bytes claim ++ rest }
    {
        let Some(length) = length_in(bytes) else {
            return Err(ReadError::Damaged);
        };
        let (front, rest) = bytes.split_at(length);
        let bytes = Vec::from_slice(alloc, front)?;
        Ok((Claim { bytes }, rest))
    }

    /// The bytes that write the claim: its access (00 read, 01 write), the table's name behind a
    /// length of one byte, and its scope: 00 for all of the table, or 01 and the key behind a length
    /// of two bytes, the high one first.
    pub fn to_bytes(&self) -> &[u8]
        ensures bytes { result.now ≡ claim_bytes self.now }
        ensures whole { IsClaim self.now }
    {
        self.bytes.as_slice()
    }

    /// What the unit does with the rows.
    pub fn access(&self) -> Access
        ensures { result ≡ self.now.access }
    {
        if self.bytes[0] == READ {
            Access::Read
        } else {
            Access::Write
        }
    }

    /// The table's name.
    pub fn table(&self) -> &[u8]
        ensures { result.now ≡ self.now.table }
    {
        let length = self.bytes[1] as usize;
        let (_, rest) = self.bytes.as_slice().split_at(HEADER_BYTES);
        &rest[..length]
    }

    /// The key, where the claim is of one key.
    pub fn key(&self) -> Option<&[u8]>
        ensures { option_map (λ k. k.now) result ≡ self.now.key }
    {
        let length = self.bytes[1] as usize;
        let (_, scope) = self.bytes.as_slice().split_at(HEADER_BYTES + length);
        match scope {
            [_, _, _, key @ ..] => Some(key),
            _ => None,
        }
    }

    /// Whether two claims of different units clash: one of them writes, and both are of the same
    /// table and of the same key, or one of all of it. Reads beside reads never clash.
    pub fn clashes_with(&self, other: &Claim) -> bool
        ensures { result ≡ clash self.now other.now }
    {
        (self.access() == Access::Write || other.access() == Access::Write)
            && self.table() == other.table()
            && keys_overlap(self.key(), other.key())
    }

    /// Whether two claims are the same.
    pub(crate) fn is_same(&self, other: &Claim) -> bool
        ensures { result ≡ is_same self.now other.now }
    {
        self.to_bytes() == other.to_bytes()
    }
}

// Whether two scopes of one table have a key in common.
fn keys_overlap(one: Option<&[u8]>, other: Option<&[u8]>) -> bool
    ensures { result ≡ overlap (option_map (λ k. k.now) one.entry) (option_map (λ k. k.now) other.entry) }
{
    match (one, other) {
        (Some(one), Some(other)) => one == other,
        _ => true,
    }
}

// The bytes of a claim of this table and key, or two more where there is no key: so it takes memory once.
fn longest_claim(table: &[u8], key: Option<&[u8]>) -> usize
    requires name { length table.now < 2 ^ 8 }
    requires key { length (key_or_empty (option_map (λ k. k.now) key)) < 2 ^ 16 }
{
    let key = match key {
        Some(key) => key.len(),
        None => 0,
    };
    HEADER_BYTES + table.len() + SCOPE_HEADER_BYTES + key
}

// Appends the bytes of a claim, or some of them.
fn put_claim(
    out: &mut Vec<u8>,
    access: Access,
    table: &[u8],
    key: Option<&[u8]>,
) -> Result<(), AllocError>
    requires name { length table.now < 2 ^ 8 }
    requires key { length (key_or_empty (option_map (λ k. k.now) key)) < 2 ^ 16 }
    ensures { OnOk result (out.new.items ≡ out.old.items ++ claim_bytes (record { access = access; table = table.now; key = option_map (λ k. k.now) key.entry })) }
{
    out.push(match access {
        Access::Read => READ,
        Access::Write => WRITE,
    })?;
    out.push(table.len() as u8)?;
    out.extend_from_slice(table)?;
    match key {
        None => out.push(ALL)?,
        Some(key) => {
            out.push(ONE_KEY)?;
            out.extend_from_slice(&(key.len() as u16).to_be_bytes())?;
            out.extend_from_slice(key)?;
        }
    }
    Ok(())
}

// How many bytes the claim has that stands in front.
fn length_in(bytes: &[u8]) -> Option<usize>
    ensures { result ≡ length_at bytes.now }
{
    let [mode, length, rest @ ..] = bytes else {
        return None;
    };
    let length = *length as usize;
    if *mode > WRITE || length > rest.len() {
        return None;
    }
    let scope = scope_length_in(&rest[length..])?;
    Some(HEADER_BYTES + length + scope)
}

// How many bytes the scope has that stands in front.
fn scope_length_in(bytes: &[u8]) -> Option<usize>
    ensures { result ≡ scope_length_at bytes.now }
{
    match bytes {
        [ALL, ..] => Some(1),
        [ONE_KEY, high, low, rest @ ..] => {
            let length = u16::from_be_bytes([*high, *low]) as usize;
            if length > rest.len() {
                return None;
            }
            Some(3 + length)
        }
        _ => None,
    }
}

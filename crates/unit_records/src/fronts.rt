//! Reading the parts of a body, one behind another.

ghost use Rattle.std.specs.Prelude.{◌≡◌, ◌++◌, ◌<◌, IfNone, IfSome, length, map};
ghost use Rattle.std.specs.List.{flat_map};
ghost use Rattle.std.specs.Int.{w32, to_be_bytes};
ghost use Rattle.tables.specs.Change.{change_bytes};
ghost use Rattle.tables.specs.ChangeView.{change_of};
ghost use Rattle.unit_locks.specs.Claim.{IsClaim, claim_bytes};
ghost use Rattle.xa_calls.specs.Xid.{IsXid};
ghost use Rattle.unit_records.specs.Fronts.{AreListed, AreSo, TakesFront, listed};
ghost use Rattle.unit_records.specs.Records.{IsChange};

use row_values::ReadError;
use std::alloc::Global;
use tables::Change;
use unit_locks::Claim;
use xa_calls::{BadXid, Xid};

/// The XID in front, and what follows it.
pub(crate) fn take_xid(bytes: &[u8]) -> Result<(Xid, &[u8]), ReadError>
    ensures { TakesFront (λ x. (x.0, x.1.now)) (λ xid. xid) IsXid bytes.now result }
{
    match Xid::read(bytes) {
        Ok(xid) => {
            let length = xid.as_bytes().len();
            Ok((xid, &bytes[length..]))
        }
        Err(BadXid) => Err(ReadError::Damaged),
    }
}

/// Claims behind their number, and what follows them.
pub(crate) fn take_claims(alloc: Global, bytes: &[u8]) -> Result<(Vec<Claim>, &[u8]), ReadError>
    ensures { TakesFront (λ x. (x.0.items, x.1.now)) (listed claim_bytes) (AreListed IsClaim) bytes.now result }
{
    match split_count(bytes) {
        Some((count, rest)) => take_counted_claims(alloc, count, rest),
        None => Err(ReadError::Damaged),
    }
}

/// Changes behind their number, and what follows them.
pub(crate) fn take_changes(alloc: Global, bytes: &[u8]) -> Result<(Vec<Change>, &[u8]), ReadError>
    ensures { TakesFront (λ x. (map change_of x.0.items, x.1.now)) (listed change_bytes) (AreListed IsChange) bytes.now result }
{
    match split_count(bytes) {
        Some((count, rest)) => take_counted_changes(alloc, count, rest),
        None => Err(ReadError::Damaged),
    }
}

// The number in front, and what follows it.
fn split_count(bytes: &[u8]) -> Option<(u32, &[u8])>
    ensures some { IfSome result (λ x. bytes.now ≡ to_be_bytes w32 x.0 ++ x.1.now) }
    ensures none { IfNone result (length bytes.now < 4) }
{
    let [a, b, c, d, rest @ ..] = bytes else {
        return None;
    };
    Some((number_of([*a, *b, *c, *d]), rest))
}

// A number by its four bytes.
fn number_of(bytes: [u8; 4]) -> u32
    ensures { to_be_bytes w32 result ≡ bytes }
{
    let [a, b, c, d] = bytes;
    u32::from_be_bytes([a, b, c, d])
}

fn take_counted_claims(
    alloc: Global,
    count: u32,
    bytes: &[u8],
) -> Result<(Vec<Claim>, &[u8]), ReadError>
    ensures { TakesFront (λ x. (x.0.items, x.1.now)) (flat_map claim_bytes) (AreSo IsClaim count) bytes.now result }
{
    unit_locks::laws::one_reading();
    let mut claims = Vec::new(alloc);
    let mut left = bytes;
    for _ in 0..count {
        let (claim, rest) = match take_claim(alloc, left) {
            Ok(taken) => taken,
            Err(error) => return Err(error),
        };
        claims.push(claim)?;
        left = rest;
    }
    Ok((claims, left))
}

fn take_counted_changes(
    alloc: Global,
    count: u32,
    bytes: &[u8],
) -> Result<(Vec<Change>, &[u8]), ReadError>
    ensures { TakesFront (λ x. (map change_of x.0.items, x.1.now)) (flat_map change_bytes) (AreSo IsChange count) bytes.now result }
{
    tables::laws::changes_have_their_bytes();
    let mut changes = Vec::new(alloc);
    let mut left = bytes;
    for _ in 0..count {
        let (change, rest) = match take_change(alloc, left) {
            Ok(taken) => taken,
            Err(error) => return Err(error),
        };
        changes.push(change)?;
        left = rest;
    }
    Ok((changes, left))
}

// The claim in front, and what follows it.
fn take_claim(alloc: Global, bytes: &[u8]) -> Result<(Claim, &[u8]), ReadError>
    ensures { TakesFront (λ x. (x.0, x.1.now)) claim_bytes IsClaim bytes.now result }
{
    match Claim::from_bytes(alloc, bytes) {
        Ok((claim, rest)) => {
            let _bytes = claim.to_bytes();
            Ok((claim, rest))
        }
        Err(unit_locks::ReadError::Damaged) => Err(ReadError::Damaged),
        Err(unit_locks::ReadError::NoMemory) => Err(ReadError::NoMemory),
    }
}

// The change in front, and what follows it.
fn take_change(alloc: Global, bytes: &[u8]) -> Result<(Change, &[u8]), ReadError>
    ensures { TakesFront (λ x. (change_of x.0, x.1.now)) change_bytes IsChange bytes.now result }
{
    tables::laws::changes_have_their_bytes();
    Change::read(alloc, bytes)
}

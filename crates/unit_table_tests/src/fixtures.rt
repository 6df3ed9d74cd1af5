//! Owners, claims and changes as a line spells them.

use row_values::Schema;
use std::alloc::Global;
use std::sync::Arc;
use tables::Change;
use test_rows::schema_of;
use unit_locks::{Access, Claim};
use unit_table::Owner;
use xa_calls::Xid;

/// The conversation of a number; behind b a branch by the number that its XID has as its global part.
pub fn owner_of(word: &str) -> Option<Owner> {
    let Some(number) = word.strip_prefix('b') else {
        return Some(Owner::Local(word.parse::<u64>().ok()?));
    };
    let number = number.parse::<u8>().ok()?;
    Some(Owner::Global(Xid::read(&[0, 0, 0, 7, 0, 0, 0, 1, 0, 0, 0, 0, number]).ok()?))
}

// Whether keys are read or written, from one on and before another, as write:5..6; all else is no key.
fn keys_of(word: &str) -> Option<(Access, u32, u32)> {
    let Some((access, keys)) = word.split_once(':') else {
        return Some((Access::Read, 0, 0));
    };
    let (first, behind) = keys.split_once("..")?;
    let access = if access == "write" {
        Access::Write
    } else {
        Access::Read
    };
    Some((
        access,
        first.parse::<u32>().ok()?,
        behind.parse::<u32>().ok()?,
    ))
}

fn push_claim(alloc: Global, claims: &mut Vec<Claim>, access: Access, key: u32) -> Option<()> {
    let claim = Claim::new(alloc, access, b"T", Some(&key.to_be_bytes())).ok()?;
    claims.push(claim).ok()
}

/// Claims to read or write keys of a table T, which a word spells.
pub fn claims_of(alloc: Global, word: &str) -> Option<Vec<Claim>> {
    let (access, first, behind) = keys_of(word)?;
    let mut claims = Vec::new(alloc);
    for key in first..behind {
        push_claim(alloc, &mut claims, access, key)?;
    }
    Some(claims)
}

// The bytes of a change that puts a row of one byte into a table T.
const PUT: &[u8] = &[2, 1, b'T', 0, 1, 9];

/// One change, behind `put` or `bare`; all else is none.
pub fn changes_of(alloc: Global, word: &str) -> Option<Vec<Change>> {
    if word != "put" && word != "bare" {
        return Some(Vec::new(alloc));
    }
    let (change, _) = Change::read(alloc, PUT).ok()?;
    let mut changes = Vec::new(alloc);
    changes.push(change).ok()?;
    Some(changes)
}

/// The schema `K INTEGER NOT NULL`, with `K` as the key.
pub fn schema(alloc: Global) -> Option<Arc<Schema, Global>> {
    Arc::new(alloc, schema_of(alloc, &["K,INTEGER,not,0", "0"])??).ok()
}

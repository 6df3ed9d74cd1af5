//! A record that is put together before it is added.
ghost use Rattle.std.specs.Prelude.{◌≡◌, ◌+◌, ◌^◌, ◌<◌, ◌≤◌, ◌++◌, ◌∷◌, [], length, drop, vec_len, vec_capacity, IfOk, IsOk};
ghost use Rattle.unit_journal.specs.Record.{behind, body_in};

use crate::Kind;
use crate::record::{HEAD_BYTES, head_of};
use drda_disk::CLOSED_GATE;
use std::alloc::{AllocError, Global};

/// The bytes before a record's body but for its gate: its kind and the length of the body.
const FRONT: usize = HEAD_BYTES - 1;

/// A record as it goes onto the disk, all but its gate: its kind, the length of its body, the body,
/// and the closed gate of the next record. The body was written behind room for the bytes before it,
/// so adding the record copies nothing and takes no memory.
#[derive(Debug, Drop)]
pub struct LaidRecord {
    kind: Kind,
    bytes: Vec<u8>,
    ghost spelled: { bytes.items ≡ behind (record { kind = kind; body = body_in bytes.items }) ++ 0 ∷ [] },
    ghost short: { length (body_in bytes.items) < 2 ^ 32 },
}

/// Writes a kind and the length of the body into the bytes before the body.
fn set_front(bytes: &mut [u8], kind: Kind)
    requires front { 5 ≤ length bytes.old }
    requires short { length bytes.old < 5 + 2 ^ 32 }
    ensures bytes { bytes.new ≡ behind (record { kind = kind; body = drop 5 bytes.old }) }
    ensures len { length bytes.new ≡ length bytes.old }
{
    let len = (bytes.len() - FRONT) as u32;
    bytes[..FRONT].copy_from_slice(&head_of(kind, len)[1..]);
}

impl LaidRecord {
    ghost use Rattle.unit_journal.specs.LaidRecord.{entry_in};

    /// Room for the kind and the length of a record's body: five bytes, behind which the caller
    /// writes the body. There is memory for `len` bytes of it and for the gate behind them.
    pub fn begin(alloc: Global, len: usize) -> Result<Vec<u8>, AllocError>
        requires { len < 2 ^ 32 }
        ensures front { IfOk result (λ bytes. length bytes.items ≡ 5) }
        ensures room { IfOk result (λ bytes. 6 + len ≤ vec_capacity bytes) }
    {
        let mut bytes = Vec::with_capacity(alloc, HEAD_BYTES + len)?;
        bytes.extend_from_slice(&[0; FRONT])?;
        Ok(bytes)
    }

    /// The record of this kind whose body stands in `bytes` behind its first five. The closed gate of
    /// the next record is put behind it: where there is room for that byte, no memory is wanted.
    pub fn finish(kind: Kind, mut bytes: Vec<u8>) -> Result<LaidRecord, AllocError>
        requires front { 5 ≤ length bytes.items }
        requires short { length bytes.items < 5 + 2 ^ 32 }
        ensures entry { IfOk result (λ laid. entry_in laid ≡ record { kind = kind; body = drop 5 bytes.items }) }
        ensures room { vec_len bytes < vec_capacity bytes → IsOk result }
    {
        set_front(&mut bytes, kind);
        bytes.push(CLOSED_GATE)?;
        Ok(LaidRecord { kind, bytes })
    }

    /// Its kind.
    pub fn kind(&self) -> Kind
        ensures { result ≡ (entry_in self.now).kind }
    {
        self.kind
    }

    /// Its body: the bytes behind the head, without the gate that follows.
    pub fn body(&self) -> &[u8]
        ensures { result.now ≡ (entry_in self.now).body }
    {
        &self.bytes[FRONT..self.bytes.len() - 1]
    }

    /// What is written behind its gate.
    pub(crate) fn bytes(&self) -> &[u8]
        ensures bytes { result.now ≡ behind (entry_in self.now) ++ 0 ∷ [] }
        ensures len { length result.now ≡ 6 + length (entry_in self.now).body }
        ensures short { length (entry_in self.now).body < 2 ^ 32 }
    {
        &self.bytes
    }

    /// The same, and the record is given up for them.
    pub(crate) fn into_bytes(self) -> Vec<u8>
        ensures bytes { result.items ≡ behind (entry_in self) ++ 0 ∷ [] }
        ensures short { length (entry_in self).body < 2 ^ 32 }
    {
        self.bytes
    }
}

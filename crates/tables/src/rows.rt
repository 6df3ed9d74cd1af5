//! Rows in one buffer.

ghost use Rattle.std.specs.Prelude.{◌≡◌, ◌-◌, ◌^◌, ◌<◌, ◌∷◌, [], ◌++◌, IfOk, OnErr, OnOk, Some, ◌==◌, length, min, true};
ghost use Rattle.std.specs.List.{slice_get};
ghost use Rattle.tables.specs.Rows.{are_ends, memory_of, pieces};

use std::alloc::{AllocError, Global};
use std::marker::Model;

/// Rows in their order, in one buffer, with the places where they end.
#[derive(Debug, Drop)]
pub struct Rows {
    bytes: Vec<u8>,
    ends: Vec<usize>,
}

impl Model for Rows {
    ghost use Rattle.std.specs.Prelude.{◌≡◌, ℕ, List, length, true};
    ghost use Rattle.tables.specs.Rows.{are_ends, pieces};

    ghost Value = { List (List ℕ) };

    ghost view = { λ r. pieces 0 r.ends.items r.bytes.items };

    ghost invariant = { λ r. are_ends 0 r.ends.items (length r.bytes.items) ≡ true };
}

impl Rows {
    /// No rows.
    pub fn new(alloc: Global) -> Rows
        ensures { result ≡ [] }
    {
        Rows {
            bytes: Vec::new(alloc),
            ends: Vec::new(alloc),
        }
    }

    /// One row, whose bytes are taken over.
    #[tactic(auto, using(crate::proofs::Pieces::one_piece, crate::proofs::Pieces::one_end))]
    pub fn one(alloc: Global, row: Vec<u8>) -> Result<Rows, AllocError>
        ensures { IfOk result (λ rows. rows ≡ row.items ∷ []) }
    {
        let mut ends = Vec::new(alloc);
        ends.push(row.len())?;
        Ok(Rows { bytes: row, ends })
    }

    /// Adds a copy of the row. Out of memory, nothing is added.
    #[tactic(auto, using(crate::proofs::Pieces::pieces_push, crate::proofs::Pieces::ends_pushed))]
    pub fn push(&mut self, row: &[u8]) -> Result<(), AllocError>
        ensures ok { OnOk result (self.new ≡ self.old ++ row.now ∷ []) }
        ensures err { OnErr result (self.new ≡ self.old) }
    {
        push_piece(&mut self.bytes, &mut self.ends, row)?;
        Ok(())
    }

    /// How many rows there are.
    #[tactic(auto, using(crate::proofs::Pieces::pieces_count))]
    pub fn len(&self) -> usize
        ensures { result ≡ length self.now }
    {
        self.ends.len()
    }

    /// Whether there is no row.
    #[tactic(auto, using(crate::proofs::Pieces::pieces_count))]
    pub fn is_empty(&self) -> bool
        ensures { result ≡ (length self.now == 0) }
    {
        self.ends.is_empty()
    }

    /// The bytes that the rows take in memory: their own, and 8 for where each ends. It stops at 2^64 - 1.
    #[tactic(auto, using(crate::proofs::Pieces::memory_taken))]
    pub fn memory(&self) -> usize
        ensures { result ≡ min (memory_of self.now) (2 ^ 64 - 1) }
    {
        self.bytes
            .len()
            .saturating_add(self.ends.len().saturating_mul(8))
    }

    /// The bytes of row `i`, counted from 0.
    pub fn row(&self, i: usize) -> &[u8]
        requires { i < length self.now }
        ensures { slice_get self.now i ≡ Some result.now }
    {
        piece(self.bytes.as_slice(), self.ends.as_slice(), i)
    }
}

// Piece i of the bytes, whose pieces end at these places.
#[tactic(auto, using(crate::proofs::Pieces::first_fits, crate::proofs::Pieces::first_is, crate::proofs::Pieces::rises_at, crate::proofs::Pieces::fits_at, crate::proofs::Pieces::piece_at))]
fn piece<'a>(bytes: &'a [u8], ends: &[usize], i: usize) -> &'a [u8]
    requires ends { are_ends 0 ends.now (length bytes.now) ≡ true }
    requires inside { i < length ends.now }
    ensures { slice_get (pieces 0 ends.now bytes.now) i ≡ Some result.now }
{
    if i == 0 {
        return &bytes[0..ends[0]];
    }
    &bytes[ends[i - 1]..ends[i]]
}

// Adds the bytes and their end. Out of memory, nothing is added.
fn push_piece(bytes: &mut Vec<u8>, ends: &mut Vec<usize>, more: &[u8]) -> Result<(), AllocError>
    ensures bytes { OnOk result (bytes.new.items ≡ bytes.old.items ++ more.now) }
    ensures ends { OnOk result (ends.new.items ≡ ends.old.items ++ length (bytes.old.items ++ more.now) ∷ []) }
    ensures same_bytes { OnErr result (bytes.new.items ≡ bytes.old.items) }
    ensures same_ends { OnErr result (ends.new.items ≡ ends.old.items) }
{
    let start = bytes.len();
    bytes.extend_from_slice(more)?;
    if ends.push(bytes.len()).is_err() {
        bytes.truncate(start);
        return Err(AllocError);
    }
    Ok(())
}

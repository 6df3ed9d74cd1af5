//! A record, in memory and on the disk.
ghost use Rattle.std.specs.Prelude.{◌≡◌, ◌∷◌};
ghost use Rattle.std.specs.Int.{w32, to_be_bytes};
ghost use Rattle.drda_disk.specs.Layout.{open_gate};
ghost use Rattle.unit_journal.specs.Kind.{code_of};

use crate::Kind;
use drda_disk::OPEN_GATE;

/// The bytes of a record in front of its body: its gate, its kind, and the length of the body in four bytes.
pub const HEAD_BYTES: usize = 6;

/// A record: its gate's offset on the disk, its kind and its body, of less than 2^32 bytes. Where
/// records are written, `at` is not read.
#[derive(Debug, Drop)]
pub struct Record {
    pub at: usize,
    pub kind: Kind,
    pub body: Vec<u8>,
}

/// A record's bytes before its body, with an open gate.
pub(crate) fn head_of(kind: Kind, len: u32) -> [u8; 6]
    ensures { result ≡ open_gate ∷ (code_of kind ∷ to_be_bytes w32 len) }
{
    let [a, b, c, d] = len.to_be_bytes();
    [OPEN_GATE, kind.code(), a, b, c, d]
}

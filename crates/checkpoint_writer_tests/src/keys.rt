//! Rows that are known by their first byte.
ghost use Rattle.std.specs.Prelude.{◌≡◌, take};

use std::alloc::{AllocError, Global};
use std::cmp::Ordering;
use table_map::RowKeys;

/// Keys of one byte: the first one of each row.
pub struct FirstByte;

fn first_byte(row: &[u8]) -> &[u8]
    ensures { result.now ≡ take 1 row.now }
{
    if row.is_empty() { row } else { &row[..1] }
}

impl RowKeys for FirstByte {
    ghost key_of = { λ _ row. take 1 row };

    fn key(&self, alloc: Global, row: &[u8]) -> Result<Vec<u8>, AllocError> {
        first_byte(row).to_vec(alloc)
    }

    fn put_key(&self, out: &mut Vec<u8>, row: &[u8]) -> Result<(), AllocError> {
        out.extend_from_slice(first_byte(row))
    }

    fn compare(&self, key: &[u8], row: &[u8]) -> Ordering {
        key.cmp(first_byte(row))
    }
}

/// A key and a length, which a colon parts.
pub fn pair(word: &str) -> (u8, usize) {
    let (key, length) = word.split_once(':').unwrap_or((word, ""));
    (
        key.parse::<u8>().unwrap_or(0),
        length.parse::<usize>().unwrap_or(0),
    )
}

/// The byte that each byte of a row is, or 256.
pub fn byte_of(row: &[u8]) -> u16 {
    let first = row.first().copied().unwrap_or(0);
    for byte in row {
        if *byte != first {
            return 256;
        }
    }
    u16::from(first)
}

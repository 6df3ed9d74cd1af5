//! The keys of rows.
ghost use Rattle.std.specs.Prelude.{◌≡◌, ◌++◌, ℕ, List, IfOk, OnOk};
ghost use Rattle.key_map.specs.Slots.{by_bytes};

use std::alloc::{AllocError, Global};
use std::cmp::Ordering;

/// The keys of a table's rows, in a form whose bytes sort as the keys do.
pub trait RowKeys {
    /// The key of a row.
    ghost key_of: { Self → List ℕ → List ℕ };

    /// The key of a row, in new memory.
    fn key(&self, alloc: Global, row: &[u8]) -> Result<Vec<u8>, AllocError>
        ensures { IfOk result (λ key. key.items ≡ key_of self.now row.now) };

    /// Writes the key of a row behind what a list has. Where memory is refused, some of it may stand
    /// there.
    fn put_key(&self, out: &mut Vec<u8>, row: &[u8]) -> Result<(), AllocError>
        ensures { OnOk result (out.new.items ≡ out.old.items ++ key_of self.now row.now) };

    /// How a key stands to that of a row, which is read where it lies. Takes no memory.
    fn compare(&self, key: &[u8], row: &[u8]) -> Ordering
        ensures { result ≡ by_bytes key.now (key_of self.now row.now) };
}

//! Where the parts of a store lie.
ghost use Rattle.std.specs.Prelude.{◌≡◌, ◌+◌, ◌*◌, ◌^◌, ◌<◌, ◌≤◌, IsTrue};
ghost use Rattle.drda_disk.specs.Layout.{page_bytes};
ghost use Rattle.half_store.specs.Layout.{is_store_size, half_len, are_printable};

use drda_disk::PAGE_BYTES;

/// The offset of the first half: behind the page of the head.
pub const FIRST_AT: usize = PAGE_BYTES;

/// A store has 2 MiB at least.
const LEAST_SIZE: usize = 2_097_152;

/// And 1 GiB at most.
const GREATEST_SIZE: usize = 1_073_741_824;

/// One of the two halves of a store.
#[derive(Clone, Copy, Debug, PartialEq, Eq)]
pub enum Half {
    /// The one behind the page of the head.
    First,
    /// The one behind the first.
    Second,
}

impl Half {
    ghost use Rattle.half_store.specs.Layout.{offset_of, other_than};

    /// The other one.
    pub fn other(self) -> Half
        ensures { result ≡ other_than self }
    {
        match self {
            Half::First => Half::Second,
            Half::Second => Half::First,
        }
    }

    /// Its offset on the disk, where halves have so many bytes.
    pub(crate) fn offset(self, half_bytes: usize) -> usize
        requires { half_bytes < 2 ^ 40 }
        ensures { result ≡ offset_of half_bytes self }
    {
        match self {
            Half::First => FIRST_AT,
            Half::Second => FIRST_AT + half_bytes,
        }
    }
}

/// A store may have so many bytes.
pub(crate) fn is_store_size(size: usize) -> bool
    ensures { result ≡ is_store_size size }
{
    LEAST_SIZE <= size && size <= GREATEST_SIZE
}

/// The bytes of a half of a store of this size: whole pages, as many as there are twice behind the first page.
#[tactic(auto, unfolding(crate::specs::Layout::half_len))]
pub fn half_bytes(size: usize) -> usize
    requires { IsTrue (is_store_size size) }
    ensures len { result ≡ half_len size }
    ensures large { 1040384 ≤ result }
    ensures inside { page_bytes + (result + result) ≤ size }
    ensures small { result ≤ 2 ^ 30 }
{
    PAGE_BYTES * ((size - PAGE_BYTES) / (2 * PAGE_BYTES))
}

/// Printable ASCII without blanks.
pub(crate) fn are_printable(bytes: &[u8]) -> bool
    ensures { result ≡ are_printable bytes.now }
{
    bytes.iter().all(|byte| 0x21 <= *byte && *byte <= 0x7E)
}

//! A part of a disk.
ghost use Rattle.std.specs.Prelude.{◌≡◌, ◌+◌, ◌^◌, ◌<◌};

/// A range of a disk's bytes: `length` bytes from the offset `at` on. Its end is an offset too, so it
/// is less than 2^64.
#[derive(Clone, Copy, Debug, PartialEq, Eq)]
pub struct Region {
    pub at: usize,
    pub length: usize,
    ghost ends: { at + length < 2 ^ 64 },
}

impl Region {
    ghost use Rattle.drda_disk.specs.Region.{end_of};

    /// The offset behind it.
    pub fn end(self) -> usize
        ensures { result ≡ end_of self }
    {
        self.at + self.length
    }
}

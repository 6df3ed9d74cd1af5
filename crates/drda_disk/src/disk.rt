//! What a disk does.
ghost use Rattle.std.specs.Prelude.{◌≡◌, ◌+◌, ◌-◌, ◌^◌, ◌≤◌, min, Bool, is_ok, IsTrue, ℕ, List, length, OnOk};
ghost use Rattle.drda_words.specs.Place.{part};
ghost use Rattle.drda_disk.specs.Disk.{Life, overlaid, Stays, Tears, Torn, Only, Now, CountsFault};

use crate::{Flushed, Flusher};
use thiserror::Error;

/// A call to the device failed.
#[derive(Clone, Copy, Debug, PartialEq, Eq, Error)]
#[error("the device failed")]
pub struct DiskFault;

/// A disk: a list of bytes of a fixed length. Offsets and lengths count bytes.
///
/// A write is sure to outlast a crash only when a `sync` after it has succeeded. Until then a crash
/// may leave any bytes in the range that was written, whether the write succeeded or not; the bytes
/// outside of it stay.
///
/// Nothing can be known of what a real device gives back. So that it does give back what was written
/// is a premise, `is_modelled`, of the clauses on what a read gives; the others hold of any disk.
pub trait Disk {
    /// The disk gives back what was written.
    ghost is_modelled: { Bool };

    /// What a read gives, what a crash may leave, and the count of failures.
    ghost life: { Self → Life };

    /// What a read of these bytes from an offset on, successful or not, makes of the disk. It is for
    /// those who pass a call on, to say that they made that call and no other; so are the next two.
    ghost reads: { Self → ℕ → List ℕ → Bool → Self → Type 0 } = { λ _ _ _ _ _. Unit {0} };

    /// What a write of these bytes from an offset on makes of it.
    ghost writes: { Self → ℕ → List ℕ → Bool → Self → Type 0 } = { λ _ _ _ _ _. Unit {0} };

    /// What a sync makes of it.
    ghost syncs: { Self → Bool → Self → Type 0 } = { λ _ _ _. Unit {0} };

    /// The number of bytes.
    fn size(&self) -> usize
        ensures { result ≡ length (life self.now).seen };

    /// How many calls have failed. The count itself has no greatest value; what is returned stops
    /// at 2^64 - 1.
    fn failures(&self) -> u64
        ensures { result ≡ min (life self.now).faults (2 ^ 64 - 1) };

    /// Reads the bytes from `at` on. The range lies inside the disk.
    fn read_at(&mut self, at: usize, into: &mut [u8]) -> Result<(), DiskFault>
        requires { at + length into.old ≤ length (life self.old).seen }
        ensures read { OnOk result (IsTrue is_modelled → into.new ≡ part (life self.old).seen at (length into.old)) }
        ensures stays { Stays (life self.old) (life self.new) }
        ensures call { reads self.old at into.new (is_ok result) self.new }
        ensures faults { CountsFault result (life self.old).faults (life self.new).faults };

    /// Writes the bytes from `at` on. The range lies inside the disk. A write that fails may have
    /// changed its range.
    fn write_at(&mut self, at: usize, bytes: &[u8]) -> Result<(), DiskFault>
        requires { at + length bytes.now ≤ length (life self.old).seen }
        ensures written { OnOk result (IsTrue is_modelled → (life self.new).seen ≡ overlaid (life self.old).seen at bytes.now) }
        ensures tears { Tears at (length bytes.now) (life self.old) (life self.new) }
        ensures call { writes self.old at bytes.now (is_ok result) self.new }
        ensures faults { CountsFault result (life self.old).faults (life self.new).faults };

    /// Once it succeeds, a crash leaves what is read and nothing else.
    fn sync(&mut self) -> Result<(), DiskFault>
        ensures durable { OnOk result (Only (life self.new)) }
        ensures stays { Stays (life self.old) (life self.new) }
        ensures call { syncs self.old (is_ok result) self.new }
        ensures faults { CountsFault result (life self.old).faults (life self.new).faults };

    /// What flushes it from outside, while others read it; made under the lock that its writes are made under.
    fn flusher(&self) -> Flusher;

    /// As `sync`, after a flush: free where it succeeded and no write came since its flusher was made, an error where it
    /// failed, and else a sync.
    fn settle(&mut self, flushed: Flushed) -> Result<(), DiskFault>
        ensures durable { OnOk result (Only (life self.new)) }
        ensures stays { Stays (life self.old) (life self.new) }
        ensures call { syncs self.old (is_ok result) self.new }
        ensures faults { CountsFault result (life self.old).faults (life self.new).faults };

    /// By an image of its `life` that a crash may leave, one that a crash of the device may leave besides, where a byte is written early.
    ghost allows: { List ℕ → List ℕ → Type 0 } = { λ _ _. Unit {0} };

    /// Writes the byte at an offset of the device ahead of its being written: a hint, and no more. All is as it was, to whoever reads
    /// and writes. Where the same byte is written there next, that needs no call of the device; any other write takes it back.
    /// Meanwhile a crash of the device may leave any byte at its place, in each image that it may leave else. Whether it was done: a
    /// disk does not by itself.
    fn write_early(&mut self, at: usize, byte: u8) -> Result<bool, DiskFault>
        requires inside { at + 1 ≤ length (life self.old).seen }
        requires allowed { IsTrue is_modelled → (d c : List ℕ) → Now (life self.old) d → Torn at 1 d c → allows d c }
        ensures stays { Stays (life self.old) (life self.new) }
        ensures faults { CountsFault result (life self.old).faults (life self.new).faults }
    {
        let _ = (at, byte);
        Ok(false)
    }

    /// What is read is one of the images that a crash may leave.
    ghost read_is_image: { (disk : Self) → IsTrue is_modelled → Now (life disk) (life disk).seen };

    /// This moment is one of those since an earlier one.
    ghost now_counts: { (disk : Self) (t : ℕ) (c : _) → t ≤ (life disk).moment → Now (life disk) c → (life disk).left_since t c };
}

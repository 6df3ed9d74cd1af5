//! What a file as a disk is made of: a file at offsets, some bytes at a time.
ghost use Rattle.std.specs.Prelude.{◌≡◌, ◌+◌, ◌≤◌, Bool, IsTrue, ℕ, length, take, replicate, OnOk, IfOk};
ghost use Rattle.drda_words.specs.Place.{part};
ghost use Rattle.drda_disk.specs.Disk.{Life, overlaid, Stays, Only, Now};
ghost use Rattle.drda_disk.specs.PositionalFile.{MayTear};

use crate::{FileFault, Flushed, Flusher};
use std::io;

/// A file that is read and written at offsets. As the system's calls do, a read or a write may take
/// fewer bytes than it was asked for, or be interrupted before it took any.
///
/// As of a `Disk`, nothing can be known of what a real file gives back: `is_modelled` is a premise of
/// the clauses on that.
pub trait PositionalFile {
    /// The file gives back what was written.
    ghost is_modelled: { Bool };

    /// What a read gives, and what a crash may leave. Its count of failures is of no use here.
    ghost life: { Self → Life };

    /// The number of bytes.
    fn len(&self) -> usize
        ensures { result ≡ length (life self.now).seen };

    /// Locks the file against other openings, where the system can. Refused as `InUse` where it is
    /// locked already.
    fn lock(&mut self) -> Result<(), FileFault>
        ensures { Stays (life self.old) (life self.new) };

    /// Gives a new file its length, by zeros.
    fn lengthen(&mut self, len: usize) -> io::Result<()>
        ensures length { OnOk result (length (life self.new).seen ≡ len) }
        ensures zeros { OnOk result (IsTrue is_modelled → (life self.new).seen ≡ replicate len 0) };

    /// Reads bytes from `at` on, as many as are returned; none at the end of the file.
    fn read_some(&mut self, at: usize, into: &mut [u8]) -> io::Result<usize>
        requires { at + length into.old ≤ length (life self.old).seen }
        ensures count { IfOk result (λ n. n ≤ length into.old) }
        ensures read { IfOk result (λ n. IsTrue is_modelled → take n into.new ≡ part (life self.old).seen at n) }
        ensures stays { Stays (life self.old) (life self.new) };

    /// Writes the first of the bytes from `at` on, as many as are returned. Whatever is returned, the
    /// whole range may have changed.
    fn write_some(&mut self, at: usize, bytes: &[u8]) -> io::Result<usize>
        requires { at + length bytes.now ≤ length (life self.old).seen }
        ensures count { IfOk result (λ n. n ≤ length bytes.now) }
        ensures written { IfOk result (λ n. IsTrue is_modelled → (life self.new).seen ≡ overlaid (life self.old).seen at (take n bytes.now)) }
        ensures tears { MayTear at (length bytes.now) (life self.old) (life self.new) };

    /// Once it succeeds, a crash leaves what is read and nothing else.
    fn sync(&mut self) -> io::Result<()>
        ensures durable { OnOk result (Only (life self.new)) }
        ensures stays { Stays (life self.old) (life self.new) };

    /// What flushes all that was written so far from outside, while others read it.
    fn flusher(&self) -> Flusher;

    /// As `sync`, after a flush: no call where it succeeded and nothing was written since its flusher was made, an error
    /// where it failed.
    fn settle(&mut self, flushed: Flushed) -> io::Result<()>
        ensures durable { OnOk result (Only (life self.new)) }
        ensures stays { Stays (life self.old) (life self.new) };

    /// What is read is one of the images that a crash may leave.
    ghost read_is_image: { (file : Self) → IsTrue is_modelled → Now (life file) (life file).seen };

    /// This moment is one of those since an earlier one.
    ghost now_counts: { (file : Self) (t : ℕ) (c : _) → t ≤ (life file).moment → Now (life file) c → (life file).left_since t c };
}

/// A name in a folder, for a file.
pub trait FilePlace {
    type File: PositionalFile;

    /// The folder keeps what was synced; of a real one nothing can be known.
    ghost is_modelled: { Bool };

    /// A crash leaves the folder's entry of the file.
    ghost is_kept: { Self → Bool };

    /// Makes an empty file. Refused where there is one of this name already.
    fn create(&mut self) -> io::Result<Self::File>;

    /// The file of this name, to be read and written.
    fn open(&mut self) -> io::Result<Self::File>;

    /// Syncs the folder.
    fn sync_folder(&mut self) -> io::Result<()>
        ensures { OnOk result (IsTrue is_modelled → IsTrue (is_kept self.new)) };

    /// Takes the file away again, if it can be.
    fn remove(&mut self);
}

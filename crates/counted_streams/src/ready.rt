//! Bytes that can be read at once.

ghost use Rattle.std.specs.Prelude.{◌≡◌, ℕ, Some, IfSome, length};
ghost use Rattle.std.specs.Io.{StartsWith};
ghost use Rattle.std.specs.Io.Buffered.{reader_buffer};
ghost use Rattle.std.specs.Io.BufRead.{DropsConsumable};

use std::io::{BufRead, BufReader, Read};

/// A reader that can tell which bytes lie ready in it.
pub trait Ready: Read {
    // How many bytes `ready` shows.
    ghost ready_len: { Self → ℕ } = { λ _. 0 };

    /// The first bytes that can be read without waiting for anybody; none where that is not known.
    fn ready(&self) -> &[u8]
        ensures count { length result.now ≡ ready_len self.now }
        ensures front { IfSome (Self.remaining self.now) (λ left. StartsWith left result.now) };

    /// Takes so many of the ready bytes away, as if they were read. Of more than there are ready it says
    /// nothing.
    fn skip(&mut self, count: usize)
        ensures { DropsConsumable (Self.remaining self.old) (Self.remaining self.new) (Some (ready_len self.old)) count };
}

impl<R: Read> Ready for BufReader<R> {
    ghost ready_len = { λ r. length (reader_buffer r) };

    fn ready(&self) -> &[u8] {
        self.buffer()
    }

    fn skip(&mut self, count: usize) {
        self.consume(count);
    }
}

impl Ready for &[u8] {
    ghost ready_len = { λ s. length s.now };

    fn ready(&self) -> &[u8] {
        self
    }

    fn skip(&mut self, count: usize) {
        self.consume(count);
    }
}

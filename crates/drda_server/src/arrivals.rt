//! Streams, as they come.

ghost use Rattle.std.specs.Prelude.{Option};
ghost use Rattle.drda_server.specs.Threads.{any_streams};

use std::io::{Read, Write};
use std::net::{OpenStream, SocketAddr};

/// Streams of conversations, as they come.
pub trait Streams {
    /// What a conversation's bytes are read from.
    type Reader: Read + Drop;

    /// What its answers are written on.
    type Writer: Write + OpenStream + Drop;

    /// What the wait for the next stream comes to. It says nothing unless an impl says more.
    ghost gives: { Self → Option (Self.Reader × Self.Writer) → Self → Type 0 } = { any_streams };

    /// Waits for the next stream; none where no more will come.
    fn next(&mut self) -> Option<(Self::Reader, Self::Writer)>
        ensures { gives self.old result self.new };

    /// Whose stream it is that is read from, where that is known.
    fn peer(&self, _reader: &Self::Reader) -> Option<SocketAddr> {
        None
    }

    /// A handle more of the stream that is read from, by which it can be ended from another thread, where there is one.
    fn handle(&self, _reader: &Self::Reader) -> Option<Self::Writer> {
        None
    }
}

//! A stream that is written.

ghost use Rattle.std.specs.Prelude.{◌≡◌, ◌<◌, ◌+◌, ℕ, IfOk, OnErr, OnOk, length, take};
ghost use Rattle.std.specs.Io.{WritesAtMost};
ghost use Rattle.std.specs.Io.KnownBytes.{Appends, Keeps, WriteAppends};
ghost use Rattle.counted_streams.specs.Faults.{CountsFault};

use crate::fault::StreamFault;
use crate::tally::Tally;
use std::io::{self, Write};

/// A stream that is written. How often a write or a flush failed only clauses read.
#[derive(Drop)]
pub struct Writer<W> {
    stream: W,
    faults: Tally,
}

impl<W> Writer<W> {
    ghost use Rattle.counted_streams.specs.Counts.{sink_of, write_faults_of};

    /// A stream on which nothing was written since it is counted.
    pub fn new(stream: W) -> Writer<W>
        ensures sink { sink_of result ≡ stream }
        ensures faults { write_faults_of result ≡ 0 }
    {
        Writer {
            stream,
            faults: Tally::new(),
        }
    }

    /// The stream, which is not counted any more.
    pub fn into_inner(self) -> W
        ensures { result ≡ sink_of self }
    {
        self.stream
    }
}

impl<W: Write> Write for Writer<W> {
    ghost use Rattle.counted_streams.specs.Counts.{sink_of, write_faults_of};

    ghost contents = { λ w. W.contents w.stream };

    fn write(&mut self, bytes: &[u8]) -> io::Result<usize>
        ensures bound { WritesAtMost result bytes.now }
        ensures bytes { WriteAppends (W.contents (sink_of self.old)) (W.contents (sink_of self.new)) result bytes.now }
        ensures faults { CountsFault result (write_faults_of self.old) (write_faults_of self.new) }
    {
        match self.stream.write(bytes) {
            Ok(count) => Ok(count),
            Err(error) => {
                self.faults.raise();
                Err(error)
            }
        }
    }

    fn flush(&mut self) -> io::Result<()>
        ensures bytes { Keeps (W.contents (sink_of self.old)) (W.contents (sink_of self.new)) }
        ensures faults { CountsFault result (write_faults_of self.old) (write_faults_of self.new) }
    {
        match self.stream.flush() {
            Ok(()) => Ok(()),
            Err(error) => {
                self.faults.raise();
                Err(error)
            }
        }
    }
}

impl<W: Write> Writer<W> {
    ghost use Rattle.counted_streams.specs.Counts.{sink_of, write_faults_of};

    // Writes a front of these bytes, at least the first. To take none of them is a fault.
    fn write_some(&mut self, bytes: &[u8]) -> Result<usize, StreamFault>
        requires { 0 < length bytes.now }
        ensures bound { WritesAtMost result bytes.now }
        ensures some { IfOk result (λ count. 0 < count) }
        ensures bytes { WriteAppends (W.contents (sink_of self.old)) (W.contents (sink_of self.new)) result bytes.now }
        ensures faults { CountsFault result (write_faults_of self.old) (write_faults_of self.new) }
    {
        match self.stream.write(bytes) {
            Ok(0) | Err(_) => {
                self.faults.raise();
                Err(StreamFault)
            }
            Ok(count) => Ok(count),
        }
    }

    /// Writes all the bytes, or after a fault a front of them. A write that fails is counted as a fault, and so is one that takes none of
    /// some bytes; nothing else is.
    pub fn write_whole(&mut self, bytes: &[u8]) -> Result<(), StreamFault>
        ensures ok { OnOk result (Appends (W.contents (sink_of self.old)) (W.contents (sink_of self.new)) bytes.now) }
        ensures err { OnErr result ((count : ℕ) × Appends (W.contents (sink_of self.old)) (W.contents (sink_of self.new)) (take count bytes.now)) }
        ensures faults { CountsFault result (write_faults_of self.old) (write_faults_of self.new) }
    {
        let mut at = 0;
        'writing: while at < bytes.len() {
            at += self.write_some(&bytes[at..])?;
        }
        Ok(())
    }
}

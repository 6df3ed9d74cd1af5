//! A stream that is read.

ghost use Rattle.std.specs.Prelude.{◌≡◌, ◌+◌, ℕ, Some, IfSome, length};
ghost use Rattle.std.specs.Io.{ReadsAtMost, StartsWith};
ghost use Rattle.std.specs.Io.BufRead.{DropsConsumable};
ghost use Rattle.std.specs.Io.KnownBytes.{ReadConsumes};
ghost use Rattle.counted_streams.specs.Faults.{CountsFault};

use crate::fault::StreamFault;
use crate::ready::Ready;
use crate::tally::Tally;
use std::io::Read;

/// A stream that is read. How often it was read from, and how often that failed, only clauses read.
#[derive(Drop)]
pub struct Reader<R> {
    stream: R,
    reads: Tally,
    faults: Tally,
}

impl<R> Reader<R> {
    ghost use Rattle.counted_streams.specs.Counts.{read_faults_of, reads_of, source_of};

    /// A stream from which nothing was read since it is counted.
    pub fn new(stream: R) -> Reader<R>
        ensures source { source_of result ≡ stream }
        ensures reads { reads_of result ≡ 0 }
        ensures faults { read_faults_of result ≡ 0 }
    {
        Reader {
            stream,
            reads: Tally::new(),
            faults: Tally::new(),
        }
    }

    /// The stream, which is not counted any more.
    pub fn into_inner(self) -> R
        ensures { result ≡ source_of self }
    {
        self.stream
    }
}

impl<R: Read> Reader<R> {
    ghost use Rattle.counted_streams.specs.Counts.{read_faults_of, reads_of, source_of};

    /// Reads into a buffer what the stream gives. A read that fails is counted as a fault, and nothing else is.
    pub fn read(&mut self, buf: &mut [u8]) -> Result<usize, StreamFault>
        ensures bound { ReadsAtMost result buf.new }
        ensures bytes { ReadConsumes (R.remaining (source_of self.old)) (R.remaining (source_of self.new)) result buf.new }
        ensures reads { reads_of self.new ≡ reads_of self.old + 1 }
        ensures faults { CountsFault result (read_faults_of self.old) (read_faults_of self.new) }
    {
        self.reads.raise();
        match self.stream.read(buf) {
            Ok(count) => Ok(count),
            Err(_) => {
                self.faults.raise();
                Err(StreamFault)
            }
        }
    }
}

impl<R: Ready> Reader<R> {
    ghost use Rattle.counted_streams.specs.Counts.{read_faults_of, reads_of, source_of};

    /// The first bytes that can be read without waiting for anybody; none where that is not known.
    pub fn ready(&self) -> &[u8]
        ensures count { length result.now ≡ R.ready_len (source_of self.now) }
        ensures front { IfSome (R.remaining (source_of self.now)) (λ left. StartsWith left result.now) }
    {
        self.stream.ready()
    }

    /// Takes so many of the ready bytes away, which counts as a read. Of more than there are ready it says nothing.
    pub fn skip(&mut self, count: usize)
        ensures bytes { DropsConsumable (R.remaining (source_of self.old)) (R.remaining (source_of self.new)) (Some (R.ready_len (source_of self.old))) count }
        ensures reads { reads_of self.new ≡ reads_of self.old + 1 }
        ensures faults { read_faults_of self.new ≡ read_faults_of self.old }
    {
        self.reads.raise();
        self.stream.skip(count);
    }
}

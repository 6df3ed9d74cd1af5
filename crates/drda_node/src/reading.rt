//! Reading events from a stream of records.

ghost use Rattle.std.specs.Prelude.{◌≡◌, ◌<◌, ◌≤◌, ◌+◌, None, IfSome, length, min};
ghost use Rattle.counted_streams.specs.Counts.{read_faults_of, reads_of, source_of};
ghost use Rattle.drda_node.specs.Reading.{CountsFilling, CountsReading, Fills, IsWithin, Receives, ReadsEvent, event_of, size_of};

use crate::event::{HEAD_SIZE, Head, head_of, number_in};
use counted_streams::{Reader, Ready};
use std::io::Read;

/// How a buffer was filled.
#[derive(Clone, Copy, Debug, PartialEq, Eq)]
pub(crate) enum Filled {
    /// To its end.
    Whole,
    /// The stream ended behind so many bytes.
    Ended(usize),
    /// Reading failed.
    Fault,
}

/// What comes next in a stream of records.
#[derive(Clone, Copy, Debug, PartialEq, Eq)]
pub(crate) enum Incoming {
    /// An event, its bytes to the front of the buffer.
    Event(Head),
    /// Nothing.
    Ended,
    /// Bytes that are no event's record.
    Bad,
    /// Reading failed.
    Fault,
}

/// Reads until the buffer is full.
fn fill<R: Read>(reader: &mut Reader<R>, buffer: &mut [u8]) -> Filled
    ensures fills { Fills (R.remaining (source_of reader.old)) (R.remaining (source_of reader.new)) result buffer.new }
    ensures made { reads_of reader.old + min 1 (length buffer.old) ≤ reads_of reader.new }
    ensures faults { CountsFilling result (read_faults_of reader.old) (read_faults_of reader.new) }
{
    let mut at = 0;
    'reading: while at < buffer.len() {
        match reader.read(&mut buffer[at..]) {
            Ok(0) => return Filled::Ended(at),
            Ok(count) => at += count,
            Err(_) => return Filled::Fault,
        }
    }
    Filled::Whole
}

/// Reads an event. One whose record lies ready is taken at once; of any other the first six bytes are
/// judged before its others are read.
pub(crate) fn read_event<R: Ready>(reader: &mut Reader<R>, buffer: &mut [u8]) -> Incoming
    requires { length buffer.old ≡ 65536 }
    ensures reads { ReadsEvent (R.remaining (source_of reader.old)) (R.remaining (source_of reader.new)) result buffer.new }
    ensures within { IsWithin result }
    ensures made { reads_of reader.old < reads_of reader.new }
    ensures faults { CountsReading result (read_faults_of reader.old) (read_faults_of reader.new) }
{
    match take_ready(reader, buffer) {
        Some(head) => Incoming::Event(head),
        None => await_event(reader, buffer),
    }
}

// Takes an event whose record lies ready, its bytes to the front of the buffer; where there is none, nothing.
#[inline(always)]
fn take_ready<R: Ready>(reader: &mut Reader<R>, buffer: &mut [u8]) -> Option<Head>
    requires { length buffer.old ≡ 65536 }
    ensures takes { IfSome result (λ head. Receives (R.remaining (source_of reader.old)) (R.remaining (source_of reader.new)) (event_of head buffer.new)) }
    ensures within { IfSome result (λ head. size_of head ≤ 65536) }
    ensures some { IfSome result (λ head. reads_of reader.old < reads_of reader.new) }
    ensures later { reads_of reader.old ≤ reads_of reader.new }
    ensures faults { read_faults_of reader.new ≡ read_faults_of reader.old }
    ensures none { result ≡ None → R.remaining (source_of reader.new) ≡ R.remaining (source_of reader.old) }
{
    let [kind, number, a, b, c, d, data @ ..] = reader.ready() else {
        return None;
    };
    let size = number_in(*a, *b, *c, *d) as usize;
    let head = head_of(*kind, *number, size)?;
    let bytes = data.get(..size)?;
    buffer[..size].copy_from_slice(bytes);
    reader.skip(HEAD_SIZE + size);
    Some(head)
}

// Reads an event, and waits for its bytes.
fn await_event<R: Read>(reader: &mut Reader<R>, buffer: &mut [u8]) -> Incoming
    requires { length buffer.old ≡ 65536 }
    ensures reads { ReadsEvent (R.remaining (source_of reader.old)) (R.remaining (source_of reader.new)) result buffer.new }
    ensures within { IsWithin result }
    ensures made { reads_of reader.old < reads_of reader.new }
    ensures faults { CountsReading result (read_faults_of reader.old) (read_faults_of reader.new) }
{
    let mut front = [0u8; HEAD_SIZE];
    match fill(reader, &mut front) {
        Filled::Whole => {}
        Filled::Ended(0) => return Incoming::Ended,
        Filled::Ended(_) => return Incoming::Bad,
        Filled::Fault => return Incoming::Fault,
    }
    let [kind, number, a, b, c, d] = front;
    let Some(head) = head_of(kind, number, number_in(a, b, c, d) as usize) else {
        return Incoming::Bad;
    };
    if let Head::Sends(_, size) = head {
        match fill(reader, &mut buffer[..size]) {
            Filled::Whole => {}
            Filled::Ended(_) => return Incoming::Bad,
            Filled::Fault => return Incoming::Fault,
        }
    }
    Incoming::Event(head)
}

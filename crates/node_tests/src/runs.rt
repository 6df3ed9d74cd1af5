//! Runs of a node over streams that give and take a little, and fail.

use crate::records::tell_records;
use crate::spoiled::SpoiledDisk;
use counted_streams::{Reader, Writer};
use drda_disk::{FuseDisk, MemDisk};
use drda_node::{ConversationId, Node, RunEnd, run};
use std::alloc::Global;
use std::io::{self, BufReader, ErrorKind, Read, Write};

/// A node over a disk that may fail, or give back another byte than was written.
pub type Bench = Node<SpoiledDisk<FuseDisk<MemDisk>>>;

/// A stream that gives so many bytes at a time, and may fail behind them; and how often it failed.
#[derive(Drop)]
struct Pieces<'a> {
    bytes: &'a [u8],
    size: usize,
    fails: bool,
    faults: u32,
}

impl Read for Pieces<'_> {
    fn read(&mut self, buffer: &mut [u8]) -> io::Result<usize> {
        if self.fails && self.bytes.is_empty() {
            self.faults = self.faults.saturating_add(1);
            return Err(io::Error::from(ErrorKind::Other));
        }
        let size = buffer.len().min(self.size);
        self.bytes.read(&mut buffer[..size])
    }
}

/// A stream that takes so many bytes at a time and fails behind so many; how often it was written to, and how often it failed.
#[derive(Drop)]
struct Taking {
    taken: Vec<u8>,
    times: usize,
    faults: u32,
    size: usize,
    room: usize,
}

impl Write for Taking {
    fn write(&mut self, bytes: &[u8]) -> io::Result<usize> {
        if self.taken.len() >= self.room {
            self.faults = self.faults.saturating_add(1);
            return Err(io::Error::from(ErrorKind::Other));
        }
        let count = bytes.len().min(self.size);
        self.taken.extend_from_slice(&bytes[..count])?;
        self.times = self.times.wrapping_add(1);
        Ok(count)
    }

    fn flush(&mut self) -> io::Result<()> {
        Ok(())
    }
}

// How a node ends over these events, and how often reading failed: where they lie ready; by `slow` and `fails` they come byte by byte, and
// by `pieces` in pieces of this size; by `fails` the stream fails behind them.
fn end_of(
    alloc: Global,
    node: &mut Bench,
    how: &str,
    size: usize,
    events: &[u8],
    writer: &mut Writer<Taking>,
) -> (RunEnd, u32) {
    let size = match how {
        "pieces" => size,
        "slow" | "fails" => 1,
        _ => {
            let mut reader = Reader::new(events);
            return (run(alloc, node, &mut reader, writer), 0);
        }
    };
    let pieces = Pieces {
        bytes: events,
        size,
        fails: how == "fails",
        faults: 0,
    };
    match BufReader::with_capacity(alloc, 64, pieces) {
        Ok(reader) => {
            let mut reader = Reader::new(reader);
            let end = run(alloc, node, &mut reader, writer);
            (end, reader.into_inner().into_inner().faults)
        }
        Err(_) => (RunEnd::NoMemory, 0),
    }
}

/// Tells how a node ends over these events, how much it writes and how often, and the records. By `full` the writer takes a byte at a time
/// and fails behind so many; by `feed` the bytes are fed to a new conversation.
pub fn tell_run(
    alloc: Global,
    node: &mut Bench,
    how: &str,
    size: &str,
    events: &[u8],
    told: &mut String,
) -> Option<()> {
    if how == "feed" {
        return tell_fed(alloc, node, events, told);
    }
    let size = size.parse::<usize>().unwrap_or(0);
    let (most, room) = if how == "full" {
        (1, size)
    } else {
        (usize::MAX, usize::MAX)
    };
    let mut writer = Writer::new(Taking {
        taken: Vec::new(alloc),
        times: 0,
        faults: 0,
        size: most,
        room,
    });
    let (end, faults) = end_of(alloc, node, how, size, events, &mut writer);
    tell_end(end, faults, &writer.into_inner(), told)
}

fn tell_end(end: RunEnd, reads: u32, writer: &Taking, told: &mut String) -> Option<()> {
    let (count, times, writes) = (writer.taken.len(), writer.times, writer.faults);
    writeln!(told, "  {end:?}, {count} bytes in {times} writes").ok()?;
    if reads > 0 || writes > 0 {
        writeln!(told, "  failed: reads {reads}, writes {writes}").ok()?;
    }
    tell_records(&writer.taken, told)
}

// Tells how many of these bytes a new conversation takes, and how it stands then.
fn tell_fed(alloc: Global, node: &mut Bench, bytes: &[u8], told: &mut String) -> Option<()> {
    let id = node.open_conversation().ok()?;
    if !node.is_open(id) {
        return None;
    }
    let fed = node.feed(id, bytes, &mut Vec::new(alloc));
    writeln!(told, "  {fed:?}").ok()
}

// Opens a conversation, and tells its name, whether it is open, and whether the first one is.
fn tell_next(node: &mut Bench, first: ConversationId, told: &mut String) -> Option<()> {
    let opened = node.open_conversation();
    let is_first = node.is_open(first);
    match opened {
        Ok(id) => {
            let is_open = node.is_open(id);
            writeln!(told, "  {id:?}, open {is_open}, first open {is_first}").ok()
        }
        Err(error) => writeln!(told, "  {error:?}, first open {is_first}").ok(),
    }
}

/// Opens a conversation and 64 more, of which there is no room for the last; then the first one is lost and another opened in its place.
/// Tells of each that comes behind the first, and of a checkpoint then.
pub fn tell_opened(node: &mut Bench, told: &mut String) -> Option<()> {
    let first = node.open_conversation().ok()?;
    for _ in 0..64_usize {
        tell_next(node, first, told)?;
    }
    if node.is_open(first) {
        node.lost(first);
    }
    tell_next(node, first, told)?;
    let done = node.checkpoint();
    writeln!(told, "  {first:?} was first, checkpoint {done:?}").ok()
}

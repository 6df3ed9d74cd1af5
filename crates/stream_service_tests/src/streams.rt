//! Streams that give and take little at a time, and that fail.

use std::io::{self, ErrorKind, Read, Write};

/// How the streams of a conversation behave.
#[derive(Clone, Copy)]
pub struct Manner {
    /// How many bytes are given at the most at a time.
    pub given: usize,
    /// How many bytes come at the most in all.
    pub coming: usize,
    /// Whether the reader fails behind them.
    pub fails: bool,
    /// How many bytes the writer takes at the most at a time.
    pub taken: usize,
    /// How many it takes in all before it fails.
    pub room: usize,
}

/// All comes and goes at once.
pub const AT_ONCE: Manner = Manner {
    given: usize::MAX,
    coming: usize::MAX,
    fails: false,
    taken: usize::MAX,
    room: usize::MAX,
};

/// A stream that gives bytes, counts how often it gave some and how often it failed, and remembers whether a buffer held any before.
#[derive(Drop)]
pub struct Giving<'a> {
    pub bytes: &'a [u8],
    pub manner: Manner,
    pub times: u32,
    pub faults: u32,
    pub finds: bool,
}

impl Read for Giving<'_> {
    fn read(&mut self, buffer: &mut [u8]) -> io::Result<usize> {
        for byte in buffer.iter() {
            self.finds |= *byte != 0;
        }
        if !self.bytes.is_empty() {
            self.times = self.times.saturating_add(1);
        } else if self.manner.fails {
            self.faults = self.faults.saturating_add(1);
            return Err(io::Error::from(ErrorKind::Other));
        }
        let size = buffer.len().min(self.manner.given);
        self.bytes.read(&mut buffer[..size])
    }
}

/// A stream that takes bytes, counts how often it failed, and remembers the longest piece that it was handed.
#[derive(Drop)]
pub struct Taking {
    pub bytes: Vec<u8>,
    pub manner: Manner,
    pub faults: u32,
    pub longest: usize,
}

impl Write for Taking {
    fn write(&mut self, bytes: &[u8]) -> io::Result<usize> {
        self.longest = self.longest.max(bytes.len());
        if self.bytes.len() >= self.manner.room {
            self.faults = self.faults.saturating_add(1);
            return Err(io::Error::from(ErrorKind::Other));
        }
        let count = bytes.len().min(self.manner.taken);
        self.bytes.extend_from_slice(&bytes[..count])?;
        Ok(count)
    }

    fn flush(&mut self) -> io::Result<()> {
        Ok(())
    }
}

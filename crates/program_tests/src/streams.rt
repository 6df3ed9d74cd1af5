//! Streams that fail.

use drda_program::Ready;
use std::io::{self, ErrorKind, Read, Write};

/// A stream that gives bytes, none of which lie ready, or can't be read.
#[derive(Drop)]
pub struct Input<'a> {
    pub bytes: &'a [u8],
    pub is_broken: bool,
}

impl Read for Input<'_> {
    fn read(&mut self, buffer: &mut [u8]) -> io::Result<usize> {
        if self.is_broken {
            return Err(io::Error::from(ErrorKind::Other));
        }
        self.bytes.read(buffer)
    }
}

impl Ready for Input<'_> {
    fn ready(&self) -> &[u8] {
        &[]
    }

    fn skip(&mut self, _count: usize) {}
}

/// A stream that takes all bytes, or none where it is broken; or it fails at its flush.
#[derive(Drop)]
pub struct Output {
    pub taken: Vec<u8>,
    pub is_broken: bool,
    pub is_unflushed: bool,
}

impl Write for Output {
    fn write(&mut self, bytes: &[u8]) -> io::Result<usize> {
        if self.is_broken {
            return Err(io::Error::from(ErrorKind::Other));
        }
        self.taken.extend_from_slice(bytes)?;
        Ok(bytes.len())
    }

    fn flush(&mut self) -> io::Result<()> {
        if self.is_unflushed {
            return Err(io::Error::from(ErrorKind::Other));
        }
        Ok(())
    }
}

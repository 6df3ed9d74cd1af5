//! A disk in memory, and the store on it.

use crate::images::{Image, begin, opened, put};
use drda_disk::{Disk, FuseDisk, MemDisk};
use half_store::format;
use std::alloc::{AllocError, Global};
use test_bytes::bytes_of;

/// A disk in memory behind a fuse, and the image that is written to it.
#[derive(Drop)]
pub struct Store {
    alloc: Global,
    disk: FuseDisk<MemDisk>,
    image: Option<Image>,
}

// The number that a text begins with, and the text behind it.
fn number_in(text: &str) -> (usize, &str) {
    let (word, rest) = text.split_once(' ').unwrap_or((text, ""));
    (word.parse::<usize>().unwrap_or(0), rest)
}

// Writes bytes to a disk: the offset stands in front of them.
fn put_asked<D: Disk>(alloc: Global, disk: &mut D, asked: &str) -> Result<(), AllocError> {
    let (at, bytes) = number_in(asked);
    let bytes = bytes_of(alloc, &[bytes])?;
    let _ = put(disk, at, &bytes);
    Ok(())
}

impl Store {
    /// No bytes, and no image.
    pub fn new(alloc: Global) -> Result<Store, AllocError> {
        Ok(Store {
            alloc,
            disk: FuseDisk::new(MemDisk::new(alloc, 0)?, u64::MAX, false),
            image: None,
        })
    }

    // What a copy opens as behind a crash.
    fn left(&self, pick: u64) -> Result<String, AllocError> {
        let mut left = self.disk.inner().copy(self.alloc)?.after_crash(pick);
        opened(self.alloc, &mut left)
    }

    // Whether each crash of the picks 2 to 7 leaves what one of the picks 0 and 1 leaves.
    fn is_either(&self) -> Result<bool, AllocError> {
        let without = self.left(0)?;
        let with = self.left(1)?;
        let mut is_either = true;
        for pick in 2..8 {
            let left = self.left(pick)?;
            is_either = is_either && (left == without || left == with);
        }
        Ok(is_either)
    }

    // What a copy opens as with other bytes at some places.
    fn changed(&self, asked: &str) -> Result<String, AllocError> {
        let mut copy = self.disk.inner().copy(self.alloc)?;
        for bytes in asked.split(", ") {
            put_asked(self.alloc, &mut copy, bytes)?;
        }
        opened(self.alloc, &mut copy)
    }

    // Has a disk of so many zeros.
    fn begin_disk(&mut self, size: usize) -> Result<(), AllocError> {
        self.disk = FuseDisk::new(MemDisk::new(self.alloc, size)?, u64::MAX, false);
        self.image = None;
        Ok(())
    }

    // Lets so many calls of the device through, and then none.
    fn stop_behind(&mut self, calls: u64) -> Result<(), AllocError> {
        self.disk = FuseDisk::new(self.disk.inner().copy(self.alloc)?, calls, false);
        Ok(())
    }

    fn write_pages(&mut self, asked: &str, out: &mut String) -> Result<(), AllocError> {
        let (byte, count) = asked.split_once(' ').unwrap_or((asked, ""));
        let byte = byte.parse::<u8>().unwrap_or(0);
        match &mut self.image {
            Some(image) => image.write(self.alloc, &mut self.disk, (byte, number_in(count).0), out),
            None => writeln!(out, "  no image"),
        }
    }

    fn switch(&mut self, out: &mut String) -> Result<(), AllocError> {
        match self.image.take() {
            Some(image) => image.switch(self.alloc, &mut self.disk, out),
            None => writeln!(out, "  no image"),
        }
    }

    /// Does a step, and tells what it comes to. `disk` is one of zeros, `format` makes a store, `put` changes bytes and `stop` the device;
    /// `begin`, `pages` and `switch` write the other half. `open` tells what stands there, `with` what with other bytes, and `left` and
    /// `either` what crashes leave.
    pub fn answer(&mut self, step: &str, out: &mut String) -> Result<(), AllocError> {
        let (verb, rest) = step.split_once(' ').unwrap_or((step, ""));
        let (number, _) = number_in(rest);
        match verb {
            "disk" => self.begin_disk(number),
            "format" => writeln!(out, "  {:?}", format(self.alloc, &mut self.disk, rest)),
            "put" => put_asked(self.alloc, &mut self.disk, rest),
            "stop" => self.stop_behind(number as u64),
            "open" => writeln!(out, "  {}", opened(self.alloc, &mut self.disk)?),
            "begin" => {
                self.image = begin(self.alloc, &mut self.disk, out)?;
                Ok(())
            }
            "pages" => self.write_pages(rest, out),
            "switch" => self.switch(out),
            "left" => writeln!(out, "  {}", self.left(number as u64)?),
            "either" => writeln!(out, "  {}", self.is_either()?),
            "with" => writeln!(out, "  {}", self.changed(rest)?),
            _ => Ok(()),
        }
    }
}

//! A store in memory, and runs over it one after the other.

use counted_streams::{Reader, Writer};
use drda_disk::MemDisk;
use std::alloc::Global;
use store_service::{OpenError, RunEnd, run_store};
use test_bytes::push_texts;
use test_core::{fresh_store, store_of};

/// The size of the least store.
const TWO_MIB: usize = 2_097_152;

/// A little more than 64 MiB.
const LARGE: usize = 67_117_056;

/// A store, what is still to come in over it, and all that was written so far.
#[derive(Drop)]
pub struct Store {
    alloc: Global,
    disk: Option<MemDisk>,
    sent: Vec<u8>,
    written: Vec<u8>,
}

impl Store {
    /// No store, and nothing that comes in.
    pub fn new(alloc: Global) -> Store {
        Store {
            alloc,
            disk: None,
            sent: Vec::new(alloc),
            written: Vec::new(alloc),
        }
    }

    /// What the runs have written, and the names that stood between them.
    pub fn written(&self) -> &[u8] {
        &self.written
    }

    /// Does what each word asks for. None where a word's store is missing, and without memory.
    pub fn follow(&mut self, text: &str) -> Option<()> {
        for word in text.split_ascii_whitespace() {
            self.take(word)?;
        }
        Some(())
    }

    // `bare` makes a disk that is no store, `fresh` and `large` a store of that size. `run` is a run over the bytes so far. `loses` and
    // `keeps` leave of the store what a crash leaves, without and with the writes that were not synced; `tears` some of them. A name,
    // behind #, is written down, and all else is bytes.
    fn take(&mut self, word: &str) -> Option<()> {
        match word {
            "bare" => self.make(MemDisk::new(self.alloc, TWO_MIB).ok()),
            "fresh" => self.make(fresh_store(self.alloc)),
            "large" => self.make(store_of(self.alloc, LARGE)),
            "run" => self.answer(),
            "loses" => self.crash(0),
            "keeps" => self.crash(1),
            "tears" => self.crash(7),
            name if name.starts_with('#') => self.note(name),
            bytes => push_texts(&mut self.sent, &[bytes]).ok(),
        }
    }

    fn make(&mut self, disk: Option<MemDisk>) -> Option<()> {
        self.disk = Some(disk?);
        Some(())
    }

    fn crash(&mut self, pick: u64) -> Option<()> {
        let disk = self.disk.take()?;
        self.disk = Some(disk.after_crash(pick));
        Some(())
    }

    fn note(&mut self, line: &str) -> Option<()> {
        self.written.extend_from_slice(line.as_bytes()).ok()?;
        self.written.push(b'\n').ok()
    }

    fn answer(&mut self) -> Option<()> {
        let disk = self.disk.take()?;
        let mut reader = Reader::new(self.sent.as_slice());
        let mut writer = Writer::new(Vec::new(self.alloc));
        let (disk, end) = run_store(self.alloc, disk, "ana", "pw", &mut reader, &mut writer);
        self.disk = Some(disk);
        self.written.extend_from_slice(&writer.into_inner()).ok()?;
        self.sent.clear();
        match end {
            Ok(RunEnd::Ended) => Some(()),
            Err(OpenError::NotAStore) => self.note("not a store"),
            _ => None,
        }
    }
}

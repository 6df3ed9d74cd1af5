//! Flushing a disk from another thread, while it is read.

use std::fs::File;
use std::io;
use std::sync::Arc;

/// What flushes a disk without it: as the disk was when this was made. Another thread may do so while the disk is
/// read. Where there is nothing to be flushed so, it does nothing.
#[derive(Drop)]
pub struct Flusher {
    file: Option<Arc<File>>,
    writes: u64,
}

/// What became of a flush. It says nothing by itself: the disk settles by it, or syncs.
#[derive(Clone, Copy, Debug, PartialEq, Eq)]
pub struct Flushed {
    /// The count of the disk's writes when the flush began, where it was flushed.
    pub(crate) writes: Option<u64>,
    /// Why it failed, where it did.
    pub(crate) fault: Option<io::ErrorKind>,
}

impl Flusher {
    /// Of a disk that is not flushed so.
    pub fn nothing() -> Flusher {
        Flusher {
            file: None,
            writes: 0,
        }
    }

    /// Of a file, behind so many writes.
    pub(crate) fn of(file: Arc<File>, writes: u64) -> Flusher {
        Flusher {
            file: Some(file),
            writes,
        }
    }

    /// Flushes, by the system's fdatasync. That it failed is told to the disk, by what is handed out. Takes no memory.
    pub fn flush(self) -> Flushed {
        let Flusher { file, writes } = self;
        let Some(file) = file else {
            return Flushed {
                writes: None,
                fault: None,
            };
        };
        match file.sync_data() {
            Ok(()) => Flushed {
                writes: Some(writes),
                fault: None,
            },
            Err(error) => Flushed {
                writes: None,
                fault: Some(error.kind()),
            },
        }
    }
}

impl Flushed {
    /// Whether the flush failed: then the disk is to be told, whatever was done meanwhile.
    pub fn is_failed(&self) -> bool {
        self.fault.is_some()
    }
}

//! What all conversations keep together.

use core_calls::{Answer, CoreCall};
use core_history::Acted;
use std::sync::atomic::{AtomicU64, Ordering};

/// How many bytes of commands that came and of rows for cursors all conversations keep together, and how many they may. No contract says
/// anything of it: what it refuses is refused as memory is.
#[derive(Drop)]
pub(crate) struct Keeping {
    most: u64,
    kept: AtomicU64,
}

impl Keeping {
    /// Nothing is kept, and never more than so many bytes.
    pub(crate) fn new(most: u64) -> Keeping {
        Keeping {
            most,
            kept: AtomicU64::new(0),
        }
    }

    /// So many bytes more are kept. False where that would be too many: then nothing is counted.
    fn add(&self, bytes: u64) -> bool {
        let most = self.most;
        self.kept
            .fetch_update(Ordering::SeqCst, Ordering::SeqCst, |kept| {
                sum_within(kept, bytes, most)
            })
            .is_ok()
    }

    /// As many of so many bytes as may be kept: they count as kept.
    fn take(&self, bytes: u64) -> u64 {
        let most = self.most;
        let before = self
            .kept
            .fetch_update(Ordering::SeqCst, Ordering::SeqCst, |kept| {
                Some(kept.saturating_add(left_of(kept, bytes, most)))
            });
        match before {
            Ok(kept) => left_of(kept, bytes, most),
            Err(_) => 0,
        }
    }

    /// So many bytes are kept no more.
    fn give_back(&self, bytes: u64) {
        let _ = self
            .kept
            .fetch_update(Ordering::SeqCst, Ordering::SeqCst, |kept| {
                Some(kept.saturating_sub(bytes))
            });
    }
}

// The sum of what is kept and what comes to it, where it is not too much.
fn sum_within(kept: u64, bytes: u64, most: u64) -> Option<u64> {
    match kept.checked_add(bytes) {
        Some(sum) if sum <= most => Some(sum),
        _ => None,
    }
}

// As many of so many bytes as may be kept beside what is.
fn left_of(kept: u64, bytes: u64, most: u64) -> u64 {
    most.saturating_sub(kept).min(bytes)
}

/// What one conversation keeps, and how many bytes it may keep with the rows of its cursors. The first 65,536 are its own, whatever others
/// keep: so a short answer finds room where others have taken all.
#[derive(Clone, Copy)]
pub(crate) struct Share {
    bytes: u64,
    most: u64,
}

impl Share {
    /// It keeps nothing.
    pub(crate) fn new(most: usize) -> Share {
        Share {
            bytes: 0,
            most: most as u64,
        }
    }

    /// It keeps so many bytes from now on. False where all would keep too many: then it is counted as before.
    pub(crate) fn set(&mut self, keeping: &Keeping, bytes: usize) -> bool {
        let bytes = bytes as u64;
        let (before, behind) = (counted(self.bytes), counted(bytes));
        if behind > before {
            if !keeping.add(behind.saturating_sub(before)) {
                return false;
            }
        } else if behind < before {
            keeping.give_back(before.saturating_sub(behind));
        }
        self.bytes = bytes;
        true
    }

    /// Before a call, under the lock: how many bytes of rows it may be answered, 0 where it asks for none. All of them are kept until
    /// `settle`, so that whoever finds no room meanwhile is to ask again under the lock.
    pub(crate) fn set_aside(&mut self, keeping: &Keeping, call: &CoreCall<'_, '_, '_>) -> usize {
        if !matches!(call, CoreCall::Query { .. }) {
            return 0;
        }
        let wanted = self.most.saturating_sub(self.bytes);
        let free = OWN.saturating_sub(self.bytes).min(wanted);
        let reserved = free.saturating_add(keeping.take(wanted.saturating_sub(free)));
        self.bytes = self.bytes.saturating_add(reserved);
        reserved as usize
    }

    /// Behind that call, under the lock still: of what was reserved it keeps the rows that it was answered.
    pub(crate) fn settle(&mut self, keeping: &Keeping, reserved: usize, acted: &Acted) {
        if reserved > 0 {
            let unused = reserved.saturating_sub(rows_of(acted));
            let kept = self.bytes.saturating_sub(unused as u64);
            let _ = self.set(keeping, kept as usize);
        }
    }

    /// It has ended, and keeps nothing.
    pub(crate) fn end(self, keeping: &Keeping) {
        keeping.give_back(counted(self.bytes));
    }
}

// So many bytes of each conversation are its own.
const OWN: u64 = 65_536;

// How many of so many bytes of a conversation all are counted for.
fn counted(bytes: u64) -> u64 {
    bytes.saturating_sub(OWN)
}

// The bytes of the rows that a call was answered.
fn rows_of(acted: &Acted) -> usize {
    match acted {
        Acted::Answered(Answer::Rows(rows)) => rows.memory(),
        Acted::Answered(_) | Acted::StrangerPass => 0,
    }
}

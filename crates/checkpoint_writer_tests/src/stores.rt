//! Fresh stores.

use drda_disk::{FuseDisk, MemDisk};
use half_store::{Active, format, open};
use std::alloc::{AllocError, Global};

/// The bytes of a store.
pub const STORE_BYTES: usize = 2_097_152;

/// Pages that lie one behind another.
#[derive(Clone, Copy)]
pub struct Run {
    pub at: usize,
    pub pages: usize,
}

/// A number, which stands alone; `-` is the greatest one.
pub fn number(word: &str) -> u64 {
    word.parse::<u64>().unwrap_or(u64::MAX)
}

/// The first three numbers of a line.
pub fn numbers(asked: &str) -> [u64; 3] {
    let mut numbers = [0; 3];
    for (place, word) in numbers.iter_mut().zip(asked.split_ascii_whitespace()) {
        *place = number(word);
    }
    numbers
}

/// An empty store as it is opened, whose device fails behind so many calls from now on.
pub fn new_store(alloc: Global, calls: u64) -> Result<(FuseDisk<MemDisk>, Active), AllocError> {
    let mut disk = MemDisk::new(alloc, STORE_BYTES)?;
    let is_made = format(alloc, &mut disk, "TEST").is_ok();
    match open(alloc, &mut disk) {
        Ok(active) if is_made => Ok((FuseDisk::new(disk, calls, false), active)),
        _ => Err(AllocError),
    }
}

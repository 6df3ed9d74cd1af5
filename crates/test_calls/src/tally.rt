//! Texts that come one after the other, and how often in a row each came.

use crate::answers::push_text;
use std::alloc::Global;

/// The last text, and how often it came.
#[derive(Drop)]
pub(crate) struct Tally {
    alloc: Global,
    last: Vec<u8>,
    count: u64,
}

impl Tally {
    /// No text.
    pub(crate) fn new(alloc: Global) -> Tally {
        Tally {
            alloc,
            last: Vec::new(alloc),
            count: 0,
        }
    }

    /// One more. Where it is another text, a line tells of the one before it.
    pub(crate) fn add(&mut self, text: Vec<u8>, out: &mut Vec<u8>) -> Option<()> {
        if self.last != text {
            self.tell(out)?;
            self.last = text;
        }
        self.count = self.count.wrapping_add(1);
        Some(())
    }

    /// A line tells of the last one.
    pub(crate) fn tell(&mut self, out: &mut Vec<u8>) -> Option<()> {
        let count = self.count;
        if count > 0 {
            push_text(out, &format!(in self.alloc; "  {count} times ").ok()?)?;
            out.extend_from_slice(&self.last).ok()?;
            push_text(out, "\n")?;
        }
        self.count = 0;
        Some(())
    }
}

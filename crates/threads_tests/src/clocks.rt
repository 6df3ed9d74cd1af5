//! A clock that a sync puts forward.

use crate::boards::Board;
use std::io;
use std::sync::Wait;
use std::thread::Threads;
use std::time::{Clock, Duration};

/// A runtime, whose clock is ahead by what a board tells.
#[derive(Drop)]
pub struct Ahead<'r, R> {
    pub rt: &'r R,
    pub board: &'r Board,
}

impl<R: Wait> Wait for Ahead<'_, R> {}

impl<R: Threads> Threads for Ahead<'_, R> {}

impl<R: Clock> Clock for Ahead<'_, R> {
    fn monotonic(&self) -> io::Result<Duration> {
        let time = self.rt.monotonic()?;
        Ok(time.saturating_add(self.board.ahead()))
    }

    fn since_1970(&self) -> io::Result<Duration> {
        self.rt.since_1970()
    }

    fn sleep(&self, duration: Duration) {
        self.rt.sleep(duration);
    }
}

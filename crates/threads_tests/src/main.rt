//! Conversations that are served side by side, a thread for each. A line of standard input says what conversations say and where they, and
//! the disk, wait for each other; what became of them goes to standard output, which is compared.
#![tactic(auto)]

mod boards;
mod clocks;
mod cues;
mod plays;
mod rows;
mod sleepers;
mod stages;
mod standing;
mod talks;

use crate::boards::Board;
use crate::plays::House;
use crate::rows::Rows;
use std::alloc::Global;
use std::io::{self, Write};
use std::marker::Sync;
use std::process::ExitCode;
use std::sync::Wait;
use std::thread::Threads;
use std::time::Clock;

fn main(rt: HostRuntime) -> ExitCode {
    let Ok(text) = io::read_to_string(rt.alloc(), rt.stdin()) else {
        return ExitCode::from(1);
    };
    let board = Board::new(rt.alloc());
    let (written, is_done) = answered(&rt, rt, rt.alloc(), &board, &text);
    match tell(&rt, &written) {
        Ok(()) if is_done => ExitCode::from(0),
        _ => ExitCode::from(1),
    }
}

// What the lines came to, and whether there was an answer to each.
fn answered<R: Threads + Wait + Clock + Sync>(
    rt: &R,
    files: HostRuntime,
    alloc: Global,
    board: &Board,
    text: &str,
) -> (Vec<u8>, bool) {
    let mut rows = Rows::new(House {
        rt,
        files,
        alloc,
        board,
    });
    let is_done = rows.follow(text).is_some();
    (rows.into_written(), is_done)
}

// Writes what the lines came to.
fn tell(rt: &HostRuntime, written: &[u8]) -> io::Result<()> {
    let mut out = rt.stdout();
    out.write_all(written)?;
    out.flush()
}

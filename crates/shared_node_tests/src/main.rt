//! Tests of shared_node: calls of a book, by its own passes and by those of another one, under a lock or not. What each line of standard
//! input comes to goes to standard output, which is compared.
#![tactic(auto)]

mod bench;
mod books;
mod groups;
mod locks;
mod tallies;

use crate::bench::Bench;
use std::io::{self, Write};
use std::process::ExitCode;
use test_calls::Scripts;

fn main(rt: HostRuntime) -> ExitCode {
    let Ok(text) = io::read_to_string(rt.alloc(), rt.stdin()) else {
        return ExitCode::from(1);
    };
    let mut bench = Bench::new(&rt, rt.alloc());
    let mut scripts = Scripts::new(rt.alloc());
    let is_done = scripts.follow(&mut bench, &text).is_some();
    match tell(&rt, scripts.written()) {
        Ok(()) if is_done => ExitCode::from(0),
        _ => ExitCode::from(1),
    }
}

// Writes what the lines came to.
fn tell(rt: &HostRuntime, written: &[u8]) -> io::Result<()> {
    let mut out = rt.stdout();
    out.write_all(written)?;
    out.flush()
}

//! Tests of durable_core: scripts of calls over stores on disks in memory, what crashes leave of them, and disks that are no stores or
//! damaged ones. What each line of standard input comes to goes to standard output, which is compared.
#![tactic(auto)]

mod bench;
mod told;
mod worn;

use crate::bench::Bench;
use std::io::{self, Write};
use std::process::ExitCode;
use test_calls::Scripts;

fn main(rt: HostRuntime) -> ExitCode {
    match answer_all(&rt) {
        Ok(true) => ExitCode::from(0),
        _ => ExitCode::from(1),
    }
}

// Whether each line was answered.
fn answer_all(rt: &HostRuntime) -> io::Result<bool> {
    let text = io::read_to_string(rt.alloc(), rt.stdin())?;
    let mut bench = Bench::new(rt.alloc());
    let mut scripts = Scripts::new(rt.alloc());
    let is_done = scripts.follow(&mut bench, &text).is_some();
    let mut out = rt.stdout();
    out.write_all(scripts.written())?;
    out.flush()?;
    Ok(is_done)
}

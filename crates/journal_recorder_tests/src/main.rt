//! Tests of journal_recorder. Each line of standard input has steps for a recorder, which semicolons part; what they come to goes to
//! standard output, which is compared.
#![tactic(auto)]

mod bench;
mod changes;
mod disks;
mod keeper;
mod records;
mod untold;

use crate::bench::Bench;
use std::io::{self, Write};
use std::process::ExitCode;

fn main(rt: HostRuntime) -> ExitCode {
    match answer_all(&rt) {
        Ok(true) => ExitCode::from(0),
        _ => ExitCode::from(1),
    }
}

// Whether each line was answered.
fn answer_all(rt: &HostRuntime) -> io::Result<bool> {
    let text = io::read_to_string(rt.alloc(), rt.stdin())?;
    let mut told = String::new(rt.alloc());
    let is_done = Bench::new(rt.alloc()).follow(&text, &mut told).is_some();
    let mut out = rt.stdout();
    out.write_all(told.as_bytes())?;
    out.flush()?;
    Ok(is_done)
}

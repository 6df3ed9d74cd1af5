//! Tests of paged_tables: changes of its tables and of plain ones, over pages and without, and what both show. What each line of standard
//! input comes to goes to standard output, which is compared.
#![tactic(auto)]

mod ahead;
mod asked;
mod changes;
mod given;
mod held;
mod lent;
mod stores;

use crate::asked::follow;
use std::io::{self, Write};
use std::process::ExitCode;

fn main(rt: HostRuntime) -> ExitCode {
    match answer_all(&rt) {
        Ok(true) => ExitCode::from(0),
        _ => ExitCode::from(1),
    }
}

// Whether each line was answered.
fn answer_all(rt: &HostRuntime) -> io::Result<bool> {
    let text = io::read_to_string(rt.alloc(), rt.stdin())?;
    let mut told = Vec::new(rt.alloc());
    let is_done = follow(rt.alloc(), &text, &mut told).is_some();
    let mut out = rt.stdout();
    out.write_all(&told)?;
    out.flush()?;
    Ok(is_done)
}

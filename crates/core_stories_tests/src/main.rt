//! Random lists of calls of three conversations, each answered by a core as a plain program answers it, code, state, count and rows: that
//! program (tests/gate/core_stories) writes standard input, rules by which the lists are made, and what has to be written. It says what is
//! covered.
#![tactic(auto)]

mod asked;
mod bench;
mod calls;
mod lists;

use crate::asked::tell;
use crate::bench::Bench;
use crate::calls::rules_of;
use std::io::{self, Write};
use std::process::ExitCode;

fn main(rt: HostRuntime) -> ExitCode {
    match answer_all(&rt) {
        Ok(true) => ExitCode::from(0),
        _ => ExitCode::from(1),
    }
}

// Whether each line was answered.
fn answer_all(rt: &HostRuntime) -> io::Result<bool> {
    let text = io::read_to_string(rt.alloc(), rt.stdin())?;
    let mut written = Vec::new(rt.alloc());
    let is_done = follow(rt, &text, &mut written).is_some();
    rt.stdout().write_all(&written)?;
    Ok(is_done)
}

fn follow(rt: &HostRuntime, text: &str, out: &mut Vec<u8>) -> Option<()> {
    let rules = rules_of(rt.alloc(), text).ok()?;
    let mut bench = Bench::new(rt.alloc());
    for line in text.lines() {
        tell(rt.alloc(), &rules, &mut bench, line, out)?;
    }
    Some(())
}

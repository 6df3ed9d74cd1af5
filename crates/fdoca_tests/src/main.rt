//! Tests of fdoca: descriptors and rows of parameters and of answers. What each line of standard input comes to goes to standard output,
//! which is compared.
#![tactic(auto)]

mod answers;
mod asked;
mod changes;
mod parameters;

use crate::asked::Asked;
use std::io::{self, Write};
use std::process::ExitCode;

fn main(rt: HostRuntime) -> ExitCode {
    match answer_all(&rt) {
        Ok(true) => ExitCode::from(0),
        _ => ExitCode::from(1),
    }
}

// Whether each line was answered.
fn answer_all(rt: &HostRuntime) -> io::Result<bool> {
    let text = io::read_to_string(rt.alloc(), rt.stdin())?;
    let mut asked = Asked::new(rt.alloc());
    let is_done = asked.follow(&text).is_some();
    let mut out = rt.stdout();
    out.write_all(asked.written())?;
    out.flush()?;
    Ok(is_done)
}

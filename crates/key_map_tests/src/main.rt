//! Tests of key_map. Each line of standard input does something to rows by their keys or to an overlay, or looks at them; what is seen
//! goes to standard output, which is compared.
#![tactic(auto)]

mod asked;

use crate::asked::Asked;
use std::io::{self, Write};
use std::process::ExitCode;

fn main(rt: HostRuntime) -> ExitCode {
    match answer_all(&rt) {
        Ok(true) => ExitCode::from(0),
        _ => ExitCode::from(1),
    }
}

// Whether each line was answered.
fn answer_all(rt: &HostRuntime) -> io::Result<bool> {
    let text = io::read_to_string(rt.alloc(), rt.stdin())?;
    let mut asked = Asked::new(rt.alloc());
    let is_done = asked.follow(&text).is_some();
    let mut out = rt.stdout();
    out.write_all(asked.written())?;
    out.flush()?;
    Ok(is_done)
}

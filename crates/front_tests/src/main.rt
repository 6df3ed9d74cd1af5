//! Tests of conversation: requests and their replies, which stand in standard input, whatever pieces the requests come in. What became
//! of each goes to standard output, which is compared.
#![tactic(auto)]

mod pieces;
mod rows;

use crate::rows::Rows;
use std::io::{self, Write};
use std::process::ExitCode;

fn main(rt: HostRuntime) -> ExitCode {
    match answer_all(&rt) {
        Ok(true) => ExitCode::from(0),
        _ => ExitCode::from(1),
    }
}

// Whether all words were followed.
fn answer_all(rt: &HostRuntime) -> io::Result<bool> {
    let text = io::read_to_string(rt.alloc(), rt.stdin())?;
    let mut rows = Rows::new(rt.alloc());
    let is_done = rows.follow(&text).is_some();
    let mut out = rt.stdout();
    out.write_all(rows.written())?;
    out.flush()?;
    Ok(is_done)
}

//! Tests of sql_text. Each line of standard input is a text; the tree of the statement that it is, or why it is none, goes to standard
//! output, which is compared.
#![tactic(auto)]

mod show;
mod texts;

use crate::texts::Texts;
use std::io::{self, Write};
use std::process::ExitCode;

fn main(rt: HostRuntime) -> ExitCode {
    match answer_all(&rt) {
        Ok(true) => ExitCode::from(0),
        _ => ExitCode::from(1),
    }
}

// Whether each line was answered.
fn answer_all(rt: &HostRuntime) -> io::Result<bool> {
    let text = io::read_to_string(rt.alloc(), rt.stdin())?;
    let mut texts = Texts::new(rt.alloc());
    let is_done = texts.follow(&text).is_some();
    let mut out = rt.stdout();
    out.write_all(texts.written())?;
    out.flush()?;
    Ok(is_done)
}

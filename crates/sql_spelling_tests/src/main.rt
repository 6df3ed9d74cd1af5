//! Tests of sql_spelling. A line `table` has a name, columns and the places of the key, and a line `row` values of the table that was told
//! last; the SQL that each is, and whether it is parsed, goes to standard output, which is compared.
#![tactic(auto)]

mod texts;

use crate::texts::Texts;
use std::io::{self, Write};
use std::process::ExitCode;

fn main(rt: HostRuntime) -> ExitCode {
    match answer_all(&rt) {
        Ok(true) => ExitCode::from(0),
        _ => ExitCode::from(1),
    }
}

// Whether each line was answered.
fn answer_all(rt: &HostRuntime) -> io::Result<bool> {
    let text = io::read_to_string(rt.alloc(), rt.stdin())?;
    let mut texts = Texts::new(rt.alloc());
    let is_done = texts.follow(&text).is_some();
    let mut out = rt.stdout();
    out.write_all(texts.written())?;
    out.flush()?;
    Ok(is_done)
}

//! Tests of half_store. Each line of standard input has steps, which semicolons part, for one disk: a store is made on it, changed, opened
//! and written anew. What each step tells goes to standard output, which is compared.
#![tactic(auto)]

mod images;
mod store;

use crate::store::Store;
use std::alloc::{AllocError, Global};
use std::io::{self, Write};

fn main(rt: HostRuntime) -> io::Result<()> {
    let text = io::read_to_string(rt.alloc(), rt.stdin())?;
    let mut told = String::new(rt.alloc());
    follow(rt.alloc(), &text, &mut told)?;
    let mut out = rt.stdout();
    out.write_all(told.as_bytes())?;
    out.flush()
}

// Writes each line down, and what its steps tell.
fn follow(alloc: Global, text: &str, out: &mut String) -> Result<(), AllocError> {
    let mut store = Store::new(alloc)?;
    let mut done = Ok(());
    for line in text.lines() {
        done = answer(&mut store, line, out);
        if done.is_err() {
            break;
        }
    }
    done
}

// Writes a line down, and what its steps tell. Lines that are empty or begin with # have none.
fn answer(store: &mut Store, line: &str, out: &mut String) -> Result<(), AllocError> {
    writeln!(out, "{line}")?;
    if line.is_empty() || line.starts_with('#') {
        return Ok(());
    }
    for step in line.split("; ") {
        store.answer(step, out)?;
    }
    Ok(())
}

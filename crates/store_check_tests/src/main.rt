//! Tests of store_check. Each line of standard input has steps, which semicolons part: pages are laid on a disk, bytes of them changed, and
//! what they are is checked. What a check tells goes to standard output, which is compared.
#![tactic(auto)]

mod checks;
mod first_column;
mod pages;

use crate::pages::Pages;
use std::alloc::{AllocError, Global};
use std::io::{self, Write};

fn main(rt: HostRuntime) -> io::Result<()> {
    let text = io::read_to_string(rt.alloc(), rt.stdin())?;
    let mut told = String::new(rt.alloc());
    follow(rt.alloc(), &text, &mut told)?;
    let mut out = rt.stdout();
    out.write_all(told.as_bytes())?;
    out.flush()
}

// Writes each line down, and what its steps tell.
fn follow(alloc: Global, text: &str, out: &mut String) -> Result<(), AllocError> {
    let mut pages = Pages::new(alloc)?;
    let mut done = Ok(());
    for line in text.lines() {
        done = answer(&mut pages, line, out);
        if done.is_err() {
            break;
        }
    }
    done
}

// Writes a line down, and what its steps tell. Lines that are empty or begin with # have none.
fn answer(pages: &mut Pages, line: &str, out: &mut String) -> Result<(), AllocError> {
    writeln!(out, "{line}")?;
    if line.is_empty() || line.starts_with('#') {
        return Ok(());
    }
    for step in line.split("; ") {
        pages.answer(step, out)?;
    }
    Ok(())
}

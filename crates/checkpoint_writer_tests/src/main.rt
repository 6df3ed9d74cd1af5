//! Tests of checkpoint_writer. Each line of standard input writes images into a fresh store; what it comes to goes to standard output,
//! which is compared.
#![tactic(auto)]

mod catalogues;
mod endings;
mod keys;
mod pages;
mod stores;
mod written;

use crate::endings::tell_switched;
use crate::written::{tell_copied, tell_written};
use std::alloc::{AllocError, Global};
use std::io::{self, Write};

fn main(rt: HostRuntime) -> io::Result<()> {
    let text = io::read_to_string(rt.alloc(), rt.stdin())?;
    let mut told = String::new(rt.alloc());
    follow(rt.alloc(), &text, &mut told)?;
    let mut out = rt.stdout();
    out.write_all(told.as_bytes())?;
    out.flush()
}

// Writes each line down, and what it comes to. One that is empty or begins with # asks for nothing.
fn follow(alloc: Global, text: &str, out: &mut String) -> Result<(), AllocError> {
    for line in text.lines() {
        writeln!(out, "{line}")?;
        let (verb, asked) = line.split_once(' ').unwrap_or(("#", ""));
        let done = match verb {
            "#" => Ok(()),
            "switch" => tell_switched(alloc, asked, out),
            "copied" => tell_copied(alloc, asked, out),
            _ => tell_written(alloc, verb, asked, out),
        };
        done?;
    }
    Ok(())
}

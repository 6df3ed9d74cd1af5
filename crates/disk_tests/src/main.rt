//! Tests of drda_disk and unit_journal. Each line of standard input names a disk and has steps for it, which semicolons part; what each
//! step tells goes to standard output, which is compared.
#![tactic(auto)]

mod calls;
mod fake_file;
mod files;
mod journals;
mod memory;
mod staged;

use crate::files::Files;
use crate::memory::Memory;
use std::alloc::AllocError;
use std::io::{self, Write};

/// The disks of the lines so far.
#[derive(Drop)]
struct Disks {
    memory: Memory,
    files: Files,
}

fn main(rt: HostRuntime) -> io::Result<()> {
    let text = io::read_to_string(rt.alloc(), rt.stdin())?;
    let mut told = String::new(rt.alloc());
    follow(&rt, &text, &mut told)?;
    let mut out = rt.stdout();
    out.write_all(told.as_bytes())?;
    out.flush()
}

// Writes each line down, and what its steps tell.
fn follow(rt: &HostRuntime, text: &str, out: &mut String) -> Result<(), AllocError> {
    let mut disks = Disks {
        memory: Memory::new(rt.alloc())?,
        files: Files::new(),
    };
    disks.answer_all(rt, text, out)
}

impl Disks {
    fn answer_all(
        &mut self,
        rt: &HostRuntime,
        text: &str,
        out: &mut String,
    ) -> Result<(), AllocError> {
        for line in text.lines() {
            writeln!(out, "{line}")?;
            self.answer(rt, line, out)?;
        }
        Ok(())
    }

    // Tells what the steps of a line tell. Lines that are empty or begin with # have none.
    fn answer(&mut self, rt: &HostRuntime, line: &str, out: &mut String) -> Result<(), AllocError> {
        let (subject, steps) = line.split_once(' ').unwrap_or((line, ""));
        for step in steps.split("; ") {
            self.answer_step(rt, subject, step, out)?;
        }
        Ok(())
    }

    fn answer_step(
        &mut self,
        rt: &HostRuntime,
        subject: &str,
        step: &str,
        out: &mut String,
    ) -> Result<(), AllocError> {
        let (verb, rest) = step.split_once(' ').unwrap_or((step, ""));
        match subject {
            "memory" => self.memory.answer(verb, rest, out),
            "fake" => self.files.answer_fake(rt.alloc(), verb, rest, out),
            "file" => self.files.answer_real(rt, verb, rest, out),
            _ => Ok(()),
        }
    }
}

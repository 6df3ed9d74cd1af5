//! Tests of stream_service: conversations over streams that are whole, in bytes, and broken. Each line of standard input is one; what
//! became of it goes to standard output, which is compared.
#![tactic(auto)]

mod conversations;
mod cores;
mod devices;
mod names;
mod sockets;
mod streams;

use crate::conversations::tell_served;
use crate::cores::{Core, core_over};
use crate::devices::tell_places;
use crate::sockets::tell_socket;
use std::alloc::AllocError;
use std::io::{self, Write};

fn main(rt: HostRuntime) -> io::Result<()> {
    let text = io::read_to_string(rt.alloc(), rt.stdin())?;
    let mut told = String::new(rt.alloc());
    follow(&rt, &text, &mut told)?;
    let mut out = rt.stdout();
    out.write_all(told.as_bytes())?;
    out.flush()
}

// Each part of the text, of which `core` stands in front, is heard by a core of its own.
fn follow(rt: &HostRuntime, text: &str, out: &mut String) -> Result<(), AllocError> {
    for part in text.split("core\n") {
        if !part.is_empty() {
            hear(rt, text, part, out)?;
        }
    }
    Ok(())
}

// Writes each line down, and what it comes to, over one core.
fn hear(rt: &HostRuntime, text: &str, part: &str, out: &mut String) -> Result<(), AllocError> {
    writeln!(out, "core")?;
    let mut core = core_over(rt.alloc(), u64::MAX)?;
    answer_all(rt, &mut core, text, part, out)
}

// Answers each line of a part over this core, up to the first that finds no memory.
fn answer_all(
    rt: &HostRuntime,
    core: &mut Core,
    text: &str,
    part: &str,
    out: &mut String,
) -> Result<(), AllocError> {
    for line in part.lines() {
        answer(rt, core, text, line, out)?;
    }
    Ok(())
}

// Writes down a line, and what it comes to: how the streams behave, requests behind a colon, and what they are to be answered behind <. A
// line without a colon asks for nothing.
fn answer(
    rt: &HostRuntime,
    core: &mut Core,
    text: &str,
    line: &str,
    out: &mut String,
) -> Result<(), AllocError> {
    writeln!(out, "{line}")?;
    let Some((how, asked)) = line.split_once(" : ") else {
        return Ok(());
    };
    let (requests, replies) = asked.split_once(" < ").unwrap_or((asked, ""));
    match how {
        "socket" => tell_socket(rt, core, text, (requests, replies), out),
        "places" => tell_places(rt.alloc(), text, (requests, replies), out),
        _ => tell_served(rt.alloc(), core, text, how, (requests, replies), out),
    }
}

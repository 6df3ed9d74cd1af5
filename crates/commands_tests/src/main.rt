//! Tests of what commands are refused for, bring, ask of the core and are replied: of drda_commands, core_calls, command_kit, sql_commands and
//! cursor_commands. What each line of standard input comes to goes to standard output, which is compared.
#![tactic(auto)]

mod asked;
mod bench;
mod calls;
mod described;
mod judged;
mod replies;
mod rows;
mod scripted;
mod written;

use crate::asked::tell;
use crate::bench::Bench;
use std::alloc::AllocError;
use std::io;

fn main(rt: HostRuntime) -> io::Result<()> {
    let text = io::read_to_string(rt.alloc(), rt.stdin())?;
    let mut told = String::new(rt.alloc());
    follow(&rt, &text, &mut told)?;
    print!(rt; "{told}")
}

fn follow(rt: &HostRuntime, text: &str, told: &mut String) -> Result<(), AllocError> {
    let mut bench = Bench::new(rt.alloc());
    for line in text.lines() {
        tell(&mut bench, line, told)?;
    }
    Ok(())
}

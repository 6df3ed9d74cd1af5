//! Tests of xa_manager: the table of answers cell by cell, with values from C193 chapter 6, its limits, and what a lost conversation
//! leaves. What each line of standard input comes to goes to standard output, which is compared.
#![tactic(auto)]

mod asked;
mod calls;

use crate::asked::tell;
use std::alloc::AllocError;
use std::io;
use xa_manager::XaTable;

fn main(rt: HostRuntime) -> io::Result<()> {
    let text = io::read_to_string(rt.alloc(), rt.stdin())?;
    let mut told = String::new(rt.alloc());
    follow(&rt, &text, &mut told)?;
    print!(rt; "{told}")
}

fn follow(rt: &HostRuntime, text: &str, told: &mut String) -> Result<(), AllocError> {
    let mut table = XaTable::new(rt.alloc());
    for line in text.lines() {
        tell(rt.alloc(), &mut table, line, told)?;
    }
    Ok(())
}

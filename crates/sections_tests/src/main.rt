//! Tests of sections: statements that are prepared, and cursors that are opened, read block by block, and ended. What each line of
//! standard input comes to goes to standard output, which is compared.
#![tactic(auto)]

mod asked;
mod rows;

use crate::asked::tell;
use sections::Sections;
use std::alloc::AllocError;
use std::io;

fn main(rt: HostRuntime) -> io::Result<()> {
    let text = io::read_to_string(rt.alloc(), rt.stdin())?;
    let mut told = String::new(rt.alloc());
    follow(&rt, &text, &mut told)?;
    print!(rt; "{told}")
}

fn follow(rt: &HostRuntime, text: &str, told: &mut String) -> Result<(), AllocError> {
    let mut sections = Sections::new(rt.alloc());
    for line in text.lines() {
        tell(rt.alloc(), &mut sections, line, told)?;
    }
    Ok(())
}

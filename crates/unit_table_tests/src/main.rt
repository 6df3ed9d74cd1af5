//! Tests of unit_table: units that begin, go on and end, and claims of several. What each line of standard input comes to goes to standard
//! output, which is compared.
#![tactic(auto)]

mod asked;
mod changing;
mod fixtures;

use crate::asked::tell;
use std::alloc::AllocError;
use std::io;
use unit_table::Units;

fn main(rt: HostRuntime) -> io::Result<()> {
    let text = io::read_to_string(rt.alloc(), rt.stdin())?;
    let mut told = String::new(rt.alloc());
    follow(&rt, &text, &mut told)?;
    print!(rt; "{told}")
}

fn follow(rt: &HostRuntime, text: &str, told: &mut String) -> Result<(), AllocError> {
    let mut units = Units::new(rt.alloc());
    for line in text.lines() {
        tell(rt.alloc(), &mut units, line, told)?;
    }
    Ok(())
}

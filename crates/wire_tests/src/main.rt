//! Tests of ebcdic_500, ddm_objects and dss_frames: texts in code page 500, code points, objects, and streams however they are cut. What
//! each line of standard input comes to goes to standard output, which is compared.
#![tactic(auto)]

mod asked;
mod code_points;
mod frames;
mod objects;
mod pages;
mod told;
mod written;

use crate::asked::tell;
use dss_frames::Segments;
use std::io;

fn main(rt: HostRuntime) -> io::Result<()> {
    let text = io::read_to_string(rt.alloc(), rt.stdin())?;
    follow(&rt, &text)
}

fn follow(rt: &HostRuntime, text: &str) -> io::Result<()> {
    let mut segments = Segments::new(rt.alloc());
    let mut told = String::new(rt.alloc());
    for line in text.lines() {
        tell(rt.alloc(), &mut segments, line, &mut told)?;
    }
    print!(rt; "{told}")
}

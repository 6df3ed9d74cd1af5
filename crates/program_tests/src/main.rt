//! Tests of drda_program: each job over files in memory, a network that is made up, and streams that fail, and some over files and sockets
//! of the system. The words of each trial stand in a line of standard input; what it comes to goes to standard output, which is compared.
#![tactic(auto)]

mod logs;
mod networks;
mod shelves;
mod streams;
mod system;
mod trials;

use crate::system::Place;
use crate::trials::follow;
use std::io::{self, ErrorKind, Write};
use std::process;

fn main(rt: HostRuntime) -> io::Result<()> {
    let text = io::read_to_string(rt.alloc(), rt.stdin())?;
    let front = front_of_paths(&rt)?;
    let mut told = Vec::new(rt.alloc());
    let place = Place {
        rt: &rt,
        alloc: rt.alloc(),
        front: &front,
    };
    let is_done = follow(&place, &text, &mut told).is_some();
    let mut out = rt.stdout();
    out.write_all(&told)?;
    out.flush()?;
    if is_done {
        Ok(())
    } else {
        Err(io::Error::from(ErrorKind::Other))
    }
}

// What the paths of files of this process begin with.
fn front_of_paths(rt: &HostRuntime) -> io::Result<String> {
    let folder = std::env::temp_dir(rt)?;
    let id = process::id(rt.process());
    Ok(format!(in rt.alloc(); "{}/program_tests-{id}-", folder.as_str())?)
}

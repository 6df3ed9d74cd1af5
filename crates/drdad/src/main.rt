//! `drdad`: a DRDA application server.
#![tactic(auto)]

use drda_program::{ErrorLog, Fault, Reader, SystemFiles, SystemNetwork, Writer, run_words};
use std::io::BufReader;
use std::process::ExitCode;

/// The bytes that are read in one call of the system. Answers to records that came together are written
/// together, and before more is waited for, so that whoever waits for one has it.
const STREAM_BUFFER: usize = 65536;

fn main(rt: HostRuntime) -> ExitCode {
    let alloc = rt.alloc();
    let Ok(words) = words(&rt) else {
        return without_memory(&rt);
    };
    let Ok(reader) = BufReader::with_capacity(alloc, STREAM_BUFFER, rt.stdin()) else {
        return without_memory(&rt);
    };
    ExitCode::from(run_words(
        &rt,
        alloc,
        words.as_slice(),
        &mut SystemFiles::new(alloc, &rt),
        &mut SystemNetwork::new(alloc, &rt),
        &ErrorLog::new(&rt),
        &mut Reader::new(reader),
        &mut Writer::new(rt.stdout()),
        &mut rt.stderr(),
    ))
}

// The words of the command line, the program's name first.
fn words(rt: &HostRuntime) -> anyhow::Result<Vec<String>> {
    Ok(std::env::args(rt)?.collect(rt.alloc())?)
}

// Tells that there was no memory for the words or for what is read.
fn without_memory(rt: &HostRuntime) -> ExitCode {
    let fault = Fault::NoMemory;
    fault.say(rt.alloc(), &mut rt.stderr());
    ExitCode::from(fault.status())
}

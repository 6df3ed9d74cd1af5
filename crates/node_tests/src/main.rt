//! Tests of drda_node and store_service: events and conversations side by side, over stores on disks in memory. Each line of standard input
//! says what comes in over which node, and behind them stand the conversations that are kept as event records; what is written goes to
//! standard output, which is compared.
#![tactic(auto)]

mod conversations;
mod kept;
mod records;
mod rows;
mod runs;
mod spoiled;
mod sweeps;

use crate::kept::Store;
use std::alloc::Global;
use std::io::{self, ErrorKind, Write};

/// The line between the rows and the conversations that are kept.
const KEPT: &str = "\n== kept conversations\n";

fn main(rt: HostRuntime) -> io::Result<()> {
    let text = io::read_to_string(rt.alloc(), rt.stdin())?;
    let mut written = Vec::new(rt.alloc());
    let is_done = follow(rt.alloc(), &text, &mut written).is_some();
    let mut out = rt.stdout();
    out.write_all(&written)?;
    out.flush()?;
    if is_done {
        Ok(())
    } else {
        Err(io::Error::from(ErrorKind::Other))
    }
}

fn follow(alloc: Global, text: &str, written: &mut Vec<u8>) -> Option<()> {
    let (rows, kept) = text.split_once(KEPT)?;
    follow_rows(alloc, rows, written)?;
    written.extend_from_slice(KEPT.as_bytes()).ok()?;
    let mut store = Store::new(alloc);
    let done = store.follow(kept);
    written.extend_from_slice(store.written()).ok()?;
    done
}

fn follow_rows(alloc: Global, rows: &str, written: &mut Vec<u8>) -> Option<()> {
    let mut told = String::new(alloc);
    let done = rows::follow(alloc, rows, &mut told);
    written.extend_from_slice(told.as_bytes()).ok()?;
    done
}

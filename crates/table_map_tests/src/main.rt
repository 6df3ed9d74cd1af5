//! Tests of row_pages and of table_map. Each line of standard input makes pages of rows or looks at one, lays pages of a table or asks for
//! its rows; what it comes to goes to standard output, which is compared.
#![tactic(auto)]

mod asked;
mod judged;
mod kept;
mod opened;
mod pages;
mod table;

use crate::kept::{Counted, answer_of_disk};
use crate::pages::answer_of_page;
use crate::table::Table;
use drda_disk::{FuseDisk, MemDisk};
use row_pages::{PageCache, Pager};
use std::alloc::{AllocError, Global};
use std::io::{self, Write};

fn main(rt: HostRuntime) -> io::Result<()> {
    let text = io::read_to_string(rt.alloc(), rt.stdin())?;
    let mut told = Vec::new(rt.alloc());
    let _ = follow(rt.alloc(), &text, &mut told);
    let mut out = rt.stdout();
    out.write_all(&told)?;
    out.flush()
}

// A disk of four pages, of which two are kept.
fn new_pager(alloc: Global) -> Result<Counted, AllocError> {
    let cache = PageCache::new(alloc, 2)?;
    match MemDisk::new(alloc, 32_768) {
        Ok(disk) => Ok(Pager::over(FuseDisk::new(disk, u64::MAX, false), cache)),
        Err(_) => Err(AllocError),
    }
}

// Answers each line. None, in the middle of it, without memory.
fn follow(alloc: Global, text: &str, out: &mut Vec<u8>) -> Option<()> {
    let mut pager = new_pager(alloc).ok()?;
    let mut table = Table::new(alloc)?;
    let mut done = Some(());
    for line in text.lines() {
        done = answer(alloc, &mut pager, &mut table, line, out);
        if done.is_none() {
            break;
        }
    }
    done
}

// Writes a line down, and what it comes to. One that is empty or begins with # asks for nothing.
fn answer(
    alloc: Global,
    pager: &mut Counted,
    table: &mut Table,
    line: &str,
    out: &mut Vec<u8>,
) -> Option<()> {
    out.extend_from_slice(line.as_bytes()).ok()?;
    out.push(b'\n').ok()?;
    let (verb, rest) = line.split_once(' ').unwrap_or((line, ""));
    match verb {
        "" | "#" => Some(()),
        "fill"
        | "shown"
        | "changed"
        | "lay"
        | "write"
        | "keys"
        | "byte"
        | "forget"
        | "at"
        | "refill"
        | "judged"
        | "known" => push_told(alloc, pager, (verb, rest), out),
        _ => table.answer(line, verb, rest, out),
    }
}

// Appends what comes of pages that are no table's.
fn push_told(
    alloc: Global,
    pager: &mut Counted,
    (verb, rest): (&str, &str),
    out: &mut Vec<u8>,
) -> Option<()> {
    let mut told = String::new(alloc);
    let done = match verb {
        "fill" | "shown" | "changed" | "lay" => answer_of_page(alloc, verb, rest, &mut told),
        _ => answer_of_disk(alloc, pager, verb, rest, &mut told),
    };
    done.ok()?;
    out.extend_from_slice(told.as_bytes()).ok()
}

//! What is asked, a line each.

use crate::rows::rows_of;
use sections::{NotPrepared, OpenFault, QueryNotOpen, Sections};
use sql_text::{Command, parse};
use std::alloc::{AllocError, Global};
use test_bytes::bytes_of;

// The shortest name: 64 bytes, of which the first two are a number.
fn name_of(number: u16) -> [u8; 64] {
    let mut name = [0x20; 64];
    let [high, low] = number.to_be_bytes();
    name[0] = high;
    name[1] = low;
    name
}

fn said_opening(opening: Result<(), OpenFault>) -> &'static str {
    match opening {
        Ok(()) => "may be opened",
        Err(OpenFault::NotPrepared) => "not prepared",
        Err(OpenFault::QueryOpen) => "open already",
        Err(OpenFault::NoInstance) => "no instance",
    }
}

// Opens a cursor in blocks of a size over rows of these lengths.
fn open(
    alloc: Global,
    sections: &mut Sections,
    name: &[u8],
    rest: &str,
    told: &mut String,
) -> Result<(), AllocError> {
    let (size, lengths) = rest.split_once(' ').unwrap_or((rest, ""));
    let (Ok(size), Some(rows)) = (size.parse::<u32>(), rows_of(alloc, lengths)) else {
        return told.push_str("no rows");
    };
    match sections.open_cursor(name, rows, size) {
        Ok(instance) => write!(told, "cursor {instance}"),
        Err(fault) => told.push_str(said_opening(Err(fault))),
    }
}

// The next block of the cursor of an instance, in a size. A number may be left out by -.
fn tell_block(
    sections: &mut Sections,
    name: &[u8],
    rest: &str,
    is_sent: bool,
    told: &mut String,
) -> Result<(), AllocError> {
    let (instance, size) = rest.split_once(' ').unwrap_or((rest, ""));
    let (instance, size) = (instance.parse::<u64>().ok(), size.parse::<u32>().ok());
    let (start, count, size, is_last) = match sections.next_block(name, instance, size) {
        Ok(block) => (block.start, block.count, block.size, block.is_last),
        Err(QueryNotOpen) => return told.push_str("no cursor"),
    };
    if is_sent {
        sections.advance(name, count, size);
    }
    let last = if is_last { ", the last" } else { "" };
    write!(told, "{count} from {start} in {size}{last}")
}

fn said_closed(sections: &mut Sections, name: &[u8], instance: &str) -> &'static str {
    match sections.close(name, instance.parse::<u64>().ok()) {
        Ok(()) => "closed",
        Err(QueryNotOpen) => "no cursor",
    }
}

fn said_statement(sections: &Sections, name: &[u8]) -> &'static str {
    match sections.statement(name) {
        Ok(statement) => match statement.command {
            Command::Select { .. } => "a SELECT",
            Command::Insert { .. } => "an INSERT",
            _ => "another statement",
        },
        Err(NotPrepared) => "not prepared",
    }
}

// Prepares the statement that a text is, or makes room for it.
fn prepare(
    alloc: Global,
    sections: &mut Sections,
    verb: &str,
    name: &[u8],
    text: &str,
) -> Result<(), AllocError> {
    match parse(alloc, text) {
        Ok(statement) => {
            let done = match verb {
                "reserve" => sections.reserve_prepare(name, &statement, false),
                _ => sections.prepare(name, &statement, verb == "hold"),
            };
            drop(statement);
            done
        }
        Err(_) => Err(AllocError),
    }
}

fn tell_section(
    alloc: Global,
    sections: &mut Sections,
    verb: &str,
    name: &[u8],
    rest: &str,
    told: &mut String,
) -> Result<(), AllocError> {
    match verb {
        "open" => return open(alloc, sections, name, rest, told),
        "look" | "fetch" => return tell_block(sections, name, rest, verb == "fetch", told),
        "prepare" | "hold" | "reserve" => prepare(alloc, sections, verb, name, rest)?,
        "check" => return told.push_str(said_opening(sections.check_opening(name))),
        "close" => return told.push_str(said_closed(sections, name, rest)),
        "statement" => return told.push_str(said_statement(sections, name)),
        _ => return told.push_str("nothing is asked"),
    }
    told.push_str("done")
}

// Of sections with the numbers from one to another the last answer is told.
fn tell_last(
    alloc: Global,
    sections: &mut Sections,
    verb: &str,
    (first, last): (u16, u16),
    rest: &str,
    told: &mut String,
) -> Result<(), AllocError> {
    let mut one = String::new(alloc);
    for number in first..=last {
        one.clear();
        tell_section(alloc, sections, verb, &name_of(number), rest, &mut one)?;
    }
    told.push_str(&one)
}

// A name is a number, or the bytes of the name.
fn tell_named(
    alloc: Global,
    sections: &mut Sections,
    verb: &str,
    rest: &str,
    told: &mut String,
) -> Result<(), AllocError> {
    let (names, rest) = rest.split_once(' ').unwrap_or((rest, ""));
    let (first, last) = names.split_once("..").unwrap_or((names, names));
    match (first.parse::<u16>(), last.parse::<u16>()) {
        (Ok(first), Ok(last)) => tell_last(alloc, sections, verb, (first, last), rest, told),
        _ => tell_section(
            alloc,
            sections,
            verb,
            &bytes_of(alloc, &[names])?,
            rest,
            told,
        ),
    }
}

// `new` begins with no section, `commit` and `rollback` end a unit, and `prepare-reserved` and `drop-reserved` do what they say; all else
// is asked of the section of a name, or of those with the numbers from one to another, as 0..63.
fn answer(
    alloc: Global,
    sections: &mut Sections,
    line: &str,
    told: &mut String,
) -> Result<(), AllocError> {
    let (verb, rest) = line.split_once(' ').unwrap_or((line, ""));
    match verb {
        "new" => *sections = Sections::new(alloc),
        "commit" => sections.end_unit(true),
        "rollback" => sections.end_unit(false),
        "prepare-reserved" => sections.prepare_reserved(),
        "drop-reserved" => sections.drop_reserved(),
        _ => return tell_named(alloc, sections, verb, rest, told),
    }
    told.push_str("done")
}

/// Tells a line, and what it comes to where it does not begin with #.
pub fn tell(
    alloc: Global,
    sections: &mut Sections,
    line: &str,
    told: &mut String,
) -> Result<(), AllocError> {
    write!(told, "{line}\n")?;
    if line.starts_with('#') {
        return Ok(());
    }
    told.push_str("  ")?;
    answer(alloc, sections, line, told)?;
    told.push_str("\n")
}

//! What is asked, a line each.

use crate::changing::{clashes, count_copies, keep, restore, take_turns};
use crate::fixtures::owner_of;
use std::alloc::{AllocError, Global};
use unit_table::{KeepError, Owner, Units};

fn said_kept(kept: Option<Result<(), KeepError>>) -> &'static str {
    match kept {
        Some(Ok(())) => "kept",
        Some(Err(KeepError::TooMany)) => "too many",
        Some(Err(KeepError::NoMemory)) => "no memory",
        None => "nothing is asked",
    }
}

fn said_done(done: Option<()>) -> &'static str {
    match done {
        Some(()) => "done",
        None => "nothing is asked",
    }
}

fn said_clash(clash: Option<bool>) -> &'static str {
    match clash {
        Some(true) => "clashes",
        Some(false) => "clashes with none",
        None => "nothing is asked",
    }
}

// All that is asked of one unit.
fn look(units: &Units, owner: &Owner, told: &mut String) -> Result<(), AllocError> {
    let (has_work, has_changes) = (units.has_work(owner), units.has_changes(owner));
    let (changes, claims) = (units.changes(owner).len(), units.claims(owner).len());
    let (is_listed, left) = (units.unit(owner).is_some(), units.left(owner));
    write!(
        told,
        "work {has_work}, listed {is_listed}, changed {has_changes}: {changes} changes, {claims} claims, {left} bytes left"
    )
}

// How many changes and claims each unit has, in their order.
fn tell_plain(units: &Units, told: &mut String) -> Result<(), AllocError> {
    told.push_str("changes and claims")?;
    for unit in units.plain()?.iter() {
        let (changes, claims) = (unit.changes.len(), unit.claims.len());
        write!(told, ", {changes} and {claims}")?;
    }
    Ok(())
}

fn ask(
    alloc: Global,
    units: &mut Units,
    verb: &str,
    owner: &Owner,
    rest: &str,
    told: &mut String,
) -> Result<(), AllocError> {
    let said = match verb {
        "look" => return look(units, owner, told),
        "keep" => said_kept(keep(alloc, units, owner, rest)),
        "restore" => said_done(restore(alloc, units, owner, rest)),
        "clash" => said_clash(clashes(alloc, units, owner, rest)),
        "end" => {
            let count = units.end(owner).as_slice().len();
            return write!(told, "{count} changes");
        }
        _ => "nothing is asked",
    };
    told.push_str(said)
}

fn ask_of_word(
    alloc: Global,
    units: &mut Units,
    verb: &str,
    rest: &str,
    told: &mut String,
) -> Result<(), AllocError> {
    let (word, rest) = rest.split_once(' ').unwrap_or((rest, ""));
    match owner_of(word) {
        Some(owner) => ask(alloc, units, verb, &owner, rest, told),
        None => told.push_str("nothing is asked"),
    }
}

// `new` begins with no unit; `turns` has so many units begin and end, `plain` looks at all, and `copy` counts what is copied of some
// owners'; all else is asked of an owner's.
fn answer(
    alloc: Global,
    units: &mut Units,
    line: &str,
    told: &mut String,
) -> Result<(), AllocError> {
    let (verb, rest) = line.split_once(' ').unwrap_or((line, ""));
    match verb {
        "new" => {
            *units = Units::new(alloc);
            told.push_str("done")
        }
        "plain" => tell_plain(units, told),
        "turns" => told.push_str(said_done(take_turns(
            alloc,
            units,
            rest.parse::<u64>().unwrap_or(0),
        ))),
        "copy" => {
            let count = count_copies(alloc, units, rest).unwrap_or(usize::MAX);
            write!(told, "{count} changes")
        }
        _ => ask_of_word(alloc, units, verb, rest, told),
    }
}

/// Tells a line, and what it comes to where it does not begin with #.
pub fn tell(
    alloc: Global,
    units: &mut Units,
    line: &str,
    told: &mut String,
) -> Result<(), AllocError> {
    if line.starts_with('#') {
        return write!(told, "{line}\n");
    }
    write!(told, "{line}\n  ")?;
    answer(alloc, units, line, told)?;
    told.push_str("\n")
}

//! What is asked, a line each.

use crate::bench::Bench;
use crate::calls::{lent, tell_bare};
use crate::described::{tell_refusals, tell_selected, tell_types};
use crate::judged::{tell_brought, tell_verdict};
use crate::replies::{add, tell_refused_room};
use crate::written::command_of;
use drda_commands::{Stage, judge};
use dss_frames::{Group, Segments};
use sqlam_replies::UnitEnd;
use std::alloc::AllocError;
use test_bytes::bytes_of;

fn said_room(has_room: Option<bool>) -> &'static str {
    match has_room {
        Some(true) => "done",
        Some(false) => "past its room",
        None => "not accepted",
    }
}

// `bring` tells what an accepted command brings; `sql`, `immediate` and `sync` do it.
fn do_judged<'a>(
    bench: &mut Bench,
    verb: &str,
    contents: &'a [u8],
    objects: Group<'a>,
    told: &mut String,
) -> Result<(), AllocError> {
    let Ok(accepted) = judge(Stage::Opened, false, contents, objects) else {
        return told.push_str("not accepted");
    };
    if verb == "bring" {
        return tell_brought(&accepted, told);
    }
    bench.do_accepted(verb, accepted)?;
    told.push_str("done")
}

// `judge` tells how a command is judged, and `judge-early` how that is where the database is not open.
fn do_command<'a>(
    bench: &mut Bench,
    verb: &str,
    contents: &'a [u8],
    objects: Group<'a>,
    told: &mut String,
) -> Result<(), AllocError> {
    match verb {
        "judge" => tell_verdict(judge(Stage::Opened, false, contents, objects), told),
        "judge-early" => tell_verdict(judge(Stage::Checked, false, contents, objects), told),
        "cursor" => told.push_str(said_room(bench.do_cursor(contents, objects)?)),
        _ => do_judged(bench, verb, contents, objects, told),
    }
}

fn hear(bench: &mut Bench, verb: &str, bytes: &[u8], told: &mut String) -> Result<(), AllocError> {
    let mut segments = Segments::new(bench.alloc);
    let _ = segments.feed(bytes);
    if let Ok(Some(group)) = segments.next()
        && let Some((request, objects)) = group.split_first()
    {
        return do_command(bench, verb, request.contents, objects, told);
    }
    told.push_str("no command")
}

// What is asked of core_calls.
fn tell_call(
    bench: &mut Bench,
    verb: &str,
    rest: &str,
    told: &mut String,
) -> Result<(), AllocError> {
    match verb {
        "lend" => {
            let (markers, parameters) = lent(bench.alloc, rest);
            write!(told, "{markers} {parameters}")
        }
        "select" => tell_selected(bench.alloc, bytes_of(bench.alloc, &[rest])?, told),
        "types" => tell_types(bench.alloc, told),
        "refusals" => tell_refusals(told),
        _ => tell_bare(told),
    }
}

// `new` begins over a core with a script, `prepare` prepares a statement, `told-change` has it that a change was told, `end` ends the unit,
// `clear` takes the replies away, and what begins with add- adds to them.
fn change(bench: &mut Bench, verb: &str, rest: &str) -> Result<(), AllocError> {
    match verb {
        "new" => {
            let (word, rest) = rest.split_once(' ').unwrap_or((rest, ""));
            bench.begin(word, rest)
        }
        "prepare" => bench.prepare(rest),
        "told-change" => {
            bench.statements.is_change_told = true;
            Ok(())
        }
        "commit" => bench.end(UnitEnd::Committed),
        "rollback" => bench.end(UnitEnd::RolledBack),
        "clear" => {
            bench.replies.clear();
            Ok(())
        }
        _ => add(&mut bench.replies, verb),
    }
}

// `command` does something with a command, and `call` tells of calls and their answers.
fn answer(bench: &mut Bench, verb: &str, rest: &str, told: &mut String) -> Result<(), AllocError> {
    let (word, text) = rest.split_once(' ').unwrap_or((rest, ""));
    match verb {
        "command" => hear(bench, word, &command_of(bench.alloc, text)?, told),
        "call" => tell_call(bench, word, text, told),
        "told" => bench.tell(told),
        "refuse-room" => tell_refused_room(&mut bench.replies, told),
        _ => {
            change(bench, verb, rest)?;
            told.push_str("done")
        }
    }
}

/// Tells a line, and what it comes to where it does not begin with #.
pub fn tell(bench: &mut Bench, line: &str, told: &mut String) -> Result<(), AllocError> {
    if line.starts_with('#') {
        return write!(told, "{line}\n");
    }
    write!(told, "{line}\n  ")?;
    let (verb, rest) = line.split_once(' ').unwrap_or((line, ""));
    answer(bench, verb, rest, told)?;
    told.push_str("\n")
}

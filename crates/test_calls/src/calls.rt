//! A line's call.

use crate::requests::request_of;
use crate::scripts::Scripts;
use core_calls::{Answer, CoreCall, Side};
use row_values::Value;
use sql_text::{SqlError, Statement, parse};
use std::alloc::Global;
use test_rows::{cells_of, values_of};
use xa_calls::{InvalidRequest, Request};

/// Who is asked.
pub trait Calls {
    /// A call is made.
    fn step(&mut self, conversation: u64, call: &CoreCall<'_, '_, '_>) -> Option<Answer>;

    /// Does what a line asks for that is no call, and appends what it came to. None where it asks for nothing that there is, and
    /// without memory.
    fn do_other(
        &mut self,
        scripts: &Scripts,
        verb: &str,
        rest: &str,
        out: &mut Vec<u8>,
    ) -> Option<()>;
}

pub(crate) fn words_of<'a>(alloc: Global, text: &'a str) -> Option<Vec<&'a str>> {
    let mut words = Vec::new(alloc);
    for word in text.split_ascii_whitespace() {
        words.push(word).ok()?;
    }
    Some(words)
}

fn parsed<'a>(alloc: Global, text: &'a str) -> Result<Statement<'a>, SqlError> {
    parse(alloc, text)
}

/// What is asked, with a statement or without one.
#[derive(Clone, Copy)]
enum Asked {
    Run,
    Query,
    Describe(Side),
    Commit,
    RollBack,
    Lost,
    Xa(Result<Request, InvalidRequest>),
}

// `run`, `query`, `columns` and `parameters` have a statement behind them, `commit`, `rollback` and `lost` nothing. All else is an XA call.
fn asked_by(alloc: Global, verb: &str, rest: &str) -> Option<Asked> {
    match (verb, rest.is_empty()) {
        ("commit", true) => Some(Asked::Commit),
        ("rollback", true) => Some(Asked::RollBack),
        ("lost", true) => Some(Asked::Lost),
        ("run", _) => Some(Asked::Run),
        ("query", _) => Some(Asked::Query),
        ("columns", _) => Some(Asked::Describe(Side::Output)),
        ("parameters", _) => Some(Asked::Describe(Side::Input)),
        _ => Some(Asked::Xa(request_of(alloc, verb, rest)?)),
    }
}

// A function that holds a statement is dear to prove.
fn ask_statement<C: Calls>(
    alloc: Global,
    core: &mut C,
    conversation: u64,
    asked: Asked,
    text: &str,
    parameters: &[Value<'_>],
) -> Option<Answer> {
    let statement = parsed(alloc, text).ok()?;
    let call = match asked {
        Asked::Run => CoreCall::Run {
            statement: &statement,
            parameters,
        },
        Asked::Describe(side) => CoreCall::Describe {
            statement: &statement,
            side,
        },
        _ => CoreCall::Query {
            statement: &statement,
            parameters,
        },
    };
    let answer = core.step(conversation, &call);
    drop(statement);
    answer
}

// One that makes a call and holds none gets no proof, so this one holds one.
fn ask_bare<C: Calls>(
    alloc: Global,
    core: &mut C,
    conversation: u64,
    asked: Asked,
) -> Option<Answer> {
    let statement = parsed(alloc, "SELECT K FROM T").ok()?;
    let call = match asked {
        Asked::Commit => CoreCall::Commit,
        Asked::RollBack => CoreCall::RollBack,
        Asked::Lost => CoreCall::Lost,
        Asked::Xa(request) => CoreCall::Xa(request),
        _ => CoreCall::Query {
            statement: &statement,
            parameters: &[],
        },
    };
    let answer = core.step(conversation, &call);
    drop(statement);
    answer
}

// The values for its markers stand behind an upright line.
fn ask_text<C: Calls>(
    alloc: Global,
    core: &mut C,
    conversation: u64,
    asked: Asked,
    text: &str,
) -> Option<Answer> {
    let (text, values) = text.split_once(" |").unwrap_or((text, ""));
    let words = words_of(alloc, values)?;
    let cells = cells_of(alloc, &words)?;
    let values = values_of(alloc, &cells)?;
    ask_statement(alloc, core, conversation, asked, text, &values)
}

pub(crate) fn ask<C: Calls>(
    alloc: Global,
    core: &mut C,
    conversation: u64,
    verb: &str,
    rest: &str,
) -> Option<Answer> {
    let asked = asked_by(alloc, verb, rest)?;
    match asked {
        Asked::Run | Asked::Query | Asked::Describe(_) => {
            ask_text(alloc, core, conversation, asked, rest)
        }
        _ => ask_bare(alloc, core, conversation, asked),
    }
}

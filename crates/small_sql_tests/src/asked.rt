//! What is asked, a line each.

use crate::answers::{
    push, push_absent_claims, push_bound, push_claims, push_description, push_found, push_run,
};
use crate::watched::Watched;
use core_calls::Side;
use sql_text::{Command, SqlError, Statement, parse};
use std::alloc::Global;

/// A store, and what became of the lines so far.
#[derive(Drop)]
pub struct Asked {
    alloc: Global,
    view: Watched,
    written: Vec<u8>,
}

fn statement<'a>(alloc: Global, text: &'a str) -> Result<Statement<'a>, SqlError> {
    parse(alloc, text)
}

// `run LEFT` runs the command where so many bytes of changes are left, `find` tells the rows of a query, `claims` and `absent` tell what a
// command claims and would claim where its table is not there, `bound` what it is bound to, `columns` and `parameters` what it is
// described by.
fn push_answer(
    alloc: Global,
    command: &Command<'_>,
    asked: (&str, usize),
    view: &mut Watched,
    out: &mut Vec<u8>,
) -> Option<()> {
    match asked.0 {
        "run" => push_run(alloc, command, asked.1, view, out),
        "find" => push_found(alloc, command, view, out),
        "claims" => push_claims(alloc, command, view, out),
        "absent" => push_absent_claims(alloc, command, out),
        "bound" => push_bound(alloc, command, view, out),
        "columns" => push_description(alloc, Side::Output, command, view, out),
        "parameters" => push_description(alloc, Side::Input, command, view, out),
        _ => None,
    }
}

// It alone holds a statement, since a function that does so is dear to prove.
fn push_told(
    alloc: Global,
    view: &mut Watched,
    text: &str,
    asked: (&str, usize),
    out: &mut Vec<u8>,
) -> Option<()> {
    let statement = statement(alloc, text).ok()?;
    let told = push_answer(alloc, &statement.command, asked, view, out);
    drop(statement);
    told
}

impl Asked {
    /// No table.
    pub fn new(alloc: Global) -> Asked {
        Asked {
            alloc,
            view: Watched::new(alloc),
            written: Vec::new(alloc),
        }
    }

    /// Each line, and what it came to.
    pub fn written(&self) -> &[u8] {
        &self.written
    }

    /// Answers each line that is not empty and does not begin with #. None where a line asks for nothing that there is, and
    /// without memory.
    pub fn follow(&mut self, text: &str) -> Option<()> {
        for line in text.split('\n') {
            push(&mut self.written, line)?;
            if !line.is_empty() && !line.starts_with('#') {
                push(&mut self.written, "\n  ")?;
                self.answer(line)?;
            }
            push(&mut self.written, "\n")?;
        }
        Some(())
    }

    // `empty` lets all tables go, `reads` tells how often a row and how often all rows were read since it was asked last, and `more FROM
    // TO` creates tables of these numbers. All else is a statement behind what is asked of it.
    fn answer(&mut self, line: &str) -> Option<()> {
        let (verb, rest) = line.split_once(' ').unwrap_or((line, ""));
        match verb {
            "empty" => {
                self.view = Watched::new(self.alloc);
                push(&mut self.written, "done")
            }
            "reads" => self.tell_reads(),
            "more" => self.create_more(rest),
            "run" => {
                let (left, text) = rest.split_once(' ')?;
                self.ask(verb, left.parse::<usize>().ok()?, text)
            }
            _ => self.ask(verb, 0, rest),
        }
    }

    fn ask(&mut self, verb: &str, left: usize, text: &str) -> Option<()> {
        push_told(
            self.alloc,
            &mut self.view,
            text,
            (verb, left),
            &mut self.written,
        )
    }

    fn tell_reads(&mut self) -> Option<()> {
        let (gets, scans) = (self.view.gets, self.view.scans);
        self.view.gets = 0;
        self.view.scans = 0;
        push(
            &mut self.written,
            &format!(in self.alloc; "one row {gets} times, all rows {scans} times").ok()?,
        )
    }

    fn create_more(&mut self, rest: &str) -> Option<()> {
        let (from, to) = rest.split_once(' ')?;
        let mut made = 0_u32;
        for number in from.parse::<u32>().ok()?..to.parse::<u32>().ok()? {
            let text = format!(in self.alloc;
                "CREATE TABLE T{number} (A INT, PRIMARY KEY (A))"
            ).ok()?;
            let mut told = Vec::new(self.alloc);
            push_told(
                self.alloc,
                &mut self.view,
                &text,
                ("run", 10_000),
                &mut told,
            )?;
            made = made.wrapping_add(u32::from(told.as_slice() == b"changes 0".as_slice()));
        }
        push(
            &mut self.written,
            &format!(in self.alloc; "{made} made").ok()?,
        )
    }
}

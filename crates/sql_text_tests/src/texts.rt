//! Texts, and what each is answered.

use crate::show;
use sql_copies::copy_statement;
use sql_text::{SqlError, Statement, parse};
use std::alloc::{AllocError, Global};

/// What a text is answered.
#[derive(Drop)]
enum Answered {
    /// The number of markers, and the tree.
    Statement(String),
    /// No statement, from this byte on.
    At(usize),
    Limit,
    KeyUnknown,
    NoMemory,
}

// A copy of the statement, so that each line tells of what was read and of its copy.
fn parsed(alloc: Global, text: &str) -> Result<Statement<'static>, SqlError> {
    match parse(alloc, text) {
        Ok(statement) => {
            let copy = copy_statement(alloc, &statement);
            drop(statement);
            Ok(copy?)
        }
        Err(error) => Err(error),
    }
}

fn shown(alloc: Global, statement: &Statement<'_>) -> Result<String, AllocError> {
    let tree = show::command(alloc, &statement.command)?;
    let markers = statement.markers;
    format!(in alloc; "{markers} {tree}")
}

// It alone holds a statement, since a function that does so is dear to prove.
fn answer_of(alloc: Global, text: &str) -> Result<Answered, AllocError> {
    match parsed(alloc, text) {
        Ok(statement) => {
            let tree = shown(alloc, &statement);
            drop(statement);
            Ok(Answered::Statement(tree?))
        }
        Err(SqlError::SqlText { at }) => Ok(Answered::At(at)),
        Err(SqlError::Limit) => Ok(Answered::Limit),
        Err(SqlError::KeyUnknown) => Ok(Answered::KeyUnknown),
        Err(SqlError::NoMemory) => Ok(Answered::NoMemory),
    }
}

// A text whose blanks other than spaces are spelled \t, \n, \r, \v and \f.
fn unspelled(alloc: Global, spelled: &str) -> Result<String, AllocError> {
    let text = spelled.replace(alloc, "\\t", "\t")?;
    let text = text.replace(alloc, "\\n", "\n")?;
    let text = text.replace(alloc, "\\r", "\r")?;
    let text = text.replace(alloc, "\\v", "\x0b")?;
    text.replace(alloc, "\\f", "\x0c")
}

fn spelled(alloc: Global, text: &str) -> Result<String, AllocError> {
    let text = text.replace(alloc, '\t', "\\t")?;
    let text = text.replace(alloc, '\n', "\\n")?;
    text.replace(alloc, '\r', "\\r")
}

// What a text is answered, and once more where memory was refused: that leaves nothing behind.
fn answer_again(alloc: Global, text: &str) -> Result<Answered, AllocError> {
    match answer_of(alloc, text)? {
        Answered::NoMemory => answer_of(alloc, text),
        answer => Ok(answer),
    }
}

fn told(alloc: Global, text: &str) -> Result<String, AllocError> {
    match answer_again(alloc, text)? {
        Answered::Statement(tree) => spelled(alloc, &tree),
        Answered::At(at) => format!(in alloc; "at {at}"),
        Answered::Limit => format!(in alloc; "limit"),
        Answered::KeyUnknown => format!(in alloc; "key"),
        Answered::NoMemory => format!(in alloc; "no memory"),
    }
}

// How many of the beginnings of a text, itself among them, are statements; 1,000 more for each that is answered as none may be.
fn statements_among_prefixes(alloc: Global, text: &str) -> Result<usize, AllocError> {
    let mut found = 0_usize;
    for end in 0..text.len() + 1 {
        let Ok(prefix) = std::str::from_utf8(&text.as_bytes()[..end]) else {
            continue;
        };
        match answer_again(alloc, prefix)? {
            Answered::Statement(_) => found = found.saturating_add(1),
            Answered::At(at) if at <= end => {}
            _ => found = found.saturating_add(1_000),
        }
    }
    Ok(found)
}

// The text with so many blanks behind it.
fn padded(alloc: Global, text: &str, blanks: usize) -> Result<String, AllocError> {
    let mut text = String::from_str(alloc, text)?;
    for _blank in 0..blanks {
        text.push(' ')?;
    }
    Ok(text)
}

/// What became of the texts so far.
#[derive(Drop)]
pub struct Texts {
    alloc: Global,
    written: Vec<u8>,
}

impl Texts {
    /// No text.
    pub fn new(alloc: Global) -> Texts {
        Texts {
            alloc,
            written: Vec::new(alloc),
        }
    }

    /// Each line, and what it came to.
    pub fn written(&self) -> &[u8] {
        &self.written
    }

    /// Answers each line that is not empty and does not begin with #. None where a line asks for nothing that there is, and
    /// without memory.
    pub fn follow(&mut self, text: &str) -> Option<()> {
        for line in text.split('\n') {
            self.write("", line)?;
            if !line.is_empty() && !line.starts_with('#') {
                self.answer(line)?;
            }
        }
        Some(())
    }

    fn write(&mut self, before: &str, text: &str) -> Option<()> {
        self.written.extend_from_slice(before.as_bytes()).ok()?;
        self.written.extend_from_slice(text.as_bytes()).ok()?;
        self.written.push(b'\n').ok()
    }

    // A text stands between two bars. In front of it `prefixes` asks how many of its beginnings are statements, and a number puts so many
    // blanks behind it.
    fn answer(&mut self, line: &str) -> Option<()> {
        let (verb, rest) = line.split_once('|')?;
        let text = unspelled(self.alloc, rest.strip_suffix('|')?).ok()?;
        let answer = match verb.trim() {
            "" => told(self.alloc, &text).ok()?,
            "prefixes" => {
                let found = statements_among_prefixes(self.alloc, &text).ok()?;
                format!(in self.alloc; "{found} statements").ok()?
            }
            blanks => {
                let text = padded(self.alloc, &text, blanks.parse::<usize>().ok()?).ok()?;
                told(self.alloc, &text).ok()?
            }
        };
        self.write("  ", &answer)
    }
}

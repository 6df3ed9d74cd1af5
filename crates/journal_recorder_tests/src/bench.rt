//! A recorder, and what it answers.

use crate::changes::{change_of, key_of};
use crate::disks::{Keeping, recorder_of_layout_1, recorder_over, records_of};
use crate::records::{laid, saying_of};
use ahead_view::ReadError;
use half_store::Layout;
use journal_recorder::CheckpointError;
use row_values::Schema;
use std::alloc::{AllocError, Global};
use std::fmt::Debug;
use test_bytes::bytes_of;
use test_rows::schema_of;
use unit_journal::{Kind, Record};
use unit_records::{DeviceFailed, GroupError, RecordError, UnitRecord};

/// A record of each kind that has one, the schema of tables, and a recorder with its tables.
#[derive(Drop)]
pub struct Bench {
    alloc: Global,
    records: Vec<Record>,
    schema: Option<Schema>,
    recorder: Option<Keeping>,
}

fn kind_of(word: &str) -> Kind {
    match word {
        "prepare" => Kind::Prepare,
        "decide" => Kind::Decide,
        "heuristic" => Kind::Heuristic,
        "forget" => Kind::Forget,
        _ => Kind::Commit,
    }
}

// The words of a line.
fn words_of<'a>(alloc: Global, line: &'a str) -> Option<Vec<&'a str>> {
    let mut words = Vec::new(alloc);
    for word in line.split_ascii_whitespace() {
        words.push(word).ok()?;
    }
    Some(words)
}

fn tell<T: Debug>(out: &mut String, answer: &T) -> Option<()> {
    writeln!(out, "  {answer:?}").ok()
}

impl Bench {
    /// No record, no schema and no recorder.
    pub fn new(alloc: Global) -> Bench {
        Bench {
            alloc,
            records: Vec::new(alloc),
            schema: None,
            recorder: None,
        }
    }

    /// Writes each line down, and what it comes to. One that is empty or begins with # asks for nothing. None where one asks for nothing
    /// that there is, and without memory.
    pub fn follow(&mut self, text: &str, out: &mut String) -> Option<()> {
        for line in text.lines() {
            writeln!(out, "{line}").ok()?;
            if !line.is_empty() && !line.starts_with('#') {
                self.answer_line(line, out)?;
            }
        }
        Some(())
    }

    fn answer_line(&mut self, line: &str, out: &mut String) -> Option<()> {
        for step in line.split("; ") {
            self.answer(step, out)?;
        }
        Some(())
    }

    // `body KIND BYTES` lays the record of a kind. `one LENGTH CALLS` and `two LENGTH CALLS` are recorders of a layout with an empty
    // journal of so many bytes, and `half CALLS` that of a store of layout 1; each device fails behind so many calls. `make KINDS` makes
    // the records of these kinds up to the first that is not made, `group` three of them together, and `ahead` lays three ahead; `settle`
    // and `rest` go on; `checkpoint HELD` makes a checkpoint that holds so many bytes back. `found` tells which records the disk has, and
    // `laid KIND` the record that is laid behind a checkpoint. `schema` lays the schema of the tables; `create NAME`, `put NAME VALUES` and
    // `remove NAME KEY` change them in memory, and `row NAME KEY` and `rows NAME` tell rows; `fail` says of what was read last that it is
    // no row of its table.
    fn answer(&mut self, step: &str, out: &mut String) -> Option<()> {
        let (verb, rest) = step.split_once(' ').unwrap_or((step, ""));
        match verb {
            "body" => self.lay(rest),
            "one" | "two" | "half" => self.begin(verb, rest, out),
            "make" => tell(out, &self.make(rest)?),
            "group" => tell(out, &self.make_group(rest)?),
            "ahead" => tell(out, &self.lay_ahead(rest)?),
            "settle" | "rest" => tell(out, &self.go_on(verb)?),
            "checkpoint" => tell(out, &self.checkpoint(rest)?),
            "state" => self.tell_state(out),
            "found" => tell(out, &records_of(self.alloc, self.recorder.take()?)?),
            "laid" => self.tell_laid(rest, out),
            "schema" => self.lay_schema(rest),
            "create" | "put" | "remove" => tell(out, &self.change(verb, rest)?),
            "row" => tell(out, &self.row(rest)?),
            "rows" => self.tell_rows(rest, out),
            "fail" => self.fail(),
            _ => None,
        }
    }

    fn lay(&mut self, asked: &str) -> Option<()> {
        let (kind, bytes) = asked.split_once(' ')?;
        let record = Record {
            at: 0,
            kind: kind_of(kind),
            body: bytes_of(self.alloc, &[bytes]).ok()?,
        };
        self.records.push(record).ok()
    }

    fn begin(&mut self, verb: &str, asked: &str, out: &mut String) -> Option<()> {
        let (length, calls) = asked.split_once(' ').unwrap_or(("0", asked));
        let (length, calls) = (length.parse::<usize>().ok()?, calls.parse::<u64>().ok()?);
        self.recorder = match verb {
            "one" => recorder_over(self.alloc, Layout::One, length, calls),
            "two" => recorder_over(self.alloc, Layout::Two, length, calls),
            _ => recorder_of_layout_1(self.alloc, calls),
        };
        self.tell_state(out)
    }

    // The layout, the room, what is held and whether the device has failed.
    fn tell_state(&self, out: &mut String) -> Option<()> {
        let Some(keeper) = &self.recorder else {
            return None;
        };
        let recorder = keeper.recorder();
        let (layout, room, held) = (recorder.layout(), recorder.room(), recorder.held());
        let is_failed = recorder.is_failed();
        writeln!(
            out,
            "  {layout:?}, room {room}, held {held}, failed {is_failed}"
        )
        .ok()
    }

    // The record of a kind.
    fn read(&self, kind: &str) -> Option<UnitRecord> {
        let kind = kind_of(kind);
        for record in &self.records {
            if record.kind == kind {
                return UnitRecord::read(self.alloc, kind, &record.body).ok();
            }
        }
        None
    }

    // Makes the record of a kind.
    fn make_one(&mut self, kind: &str) -> Option<Result<(), RecordError>> {
        let read = self.read(kind)?;
        let Some(recorder) = &mut self.recorder else {
            return None;
        };
        Some(recorder.record(saying_of(&read)))
    }

    // How many of these are made, in their order, and what becomes of the first that is not.
    fn make(&mut self, kinds: &str) -> Option<(u64, Result<(), RecordError>)> {
        let mut made = 0_u64;
        for kind in kinds.split_ascii_whitespace() {
            let answer = self.make_one(kind)?;
            if answer.is_err() {
                return Some((made, answer));
            }
            made = made.saturating_add(1);
        }
        Some((made, Ok(())))
    }

    fn read_all(&self, kinds: &str) -> Option<Vec<UnitRecord>> {
        let mut read = Vec::new(self.alloc);
        for kind in kinds.split_ascii_whitespace() {
            read.push(self.read(kind)?).ok()?;
        }
        Some(read)
    }

    // Makes three together.
    fn make_group(&mut self, kinds: &str) -> Option<Result<(), GroupError>> {
        let read = self.read_all(kinds)?;
        let Some(recorder) = &mut self.recorder else {
            return None;
        };
        match read.as_slice() {
            [first, second, third] => Some(recorder.record_three(
                saying_of(first),
                saying_of(second),
                saying_of(third),
            )),
            _ => None,
        }
    }

    // Whether three lie ahead.
    fn lay_ahead(&mut self, kinds: &str) -> Option<Result<bool, DeviceFailed>> {
        let read = self.read_all(kinds)?;
        let Some(recorder) = &mut self.recorder else {
            return None;
        };
        match read.as_slice() {
            [first, second, third] => Some(recorder.lay_three(
                saying_of(first),
                saying_of(second),
                saying_of(third),
            )),
            _ => None,
        }
    }

    // Settles, or comes to rest.
    fn go_on(&mut self, verb: &str) -> Option<Result<(), DeviceFailed>> {
        let Some(recorder) = &mut self.recorder else {
            return None;
        };
        match verb {
            "settle" => Some(recorder.settle()),
            _ => Some(recorder.rest()),
        }
    }

    fn checkpoint(&mut self, held: &str) -> Option<Result<(), CheckpointError>> {
        let held = held.parse::<usize>().ok()?;
        let Some(recorder) = &mut self.recorder else {
            return None;
        };
        Some(recorder.checkpoint(held))
    }

    fn tell_laid(&self, kind: &str, out: &mut String) -> Option<()> {
        let read = self.read(kind)?;
        let laid = laid(self.alloc, &read).ok()??;
        tell(out, &laid)
    }

    fn lay_schema(&mut self, asked: &str) -> Option<()> {
        let words = words_of(self.alloc, asked)?;
        self.schema = Some(schema_of(self.alloc, &words)??);
        Some(())
    }

    fn change(&mut self, verb: &str, asked: &str) -> Option<Result<(), AllocError>> {
        let words = words_of(self.alloc, asked)?;
        let ([name, words @ ..], Some(schema), Some(recorder)) = (
            words.as_slice(),
            &self.schema,
            &mut self.recorder,
        ) else {
            return None;
        };
        let change = change_of(self.alloc, schema, verb, name, words)?;
        Some(recorder.change(change))
    }

    fn row(&mut self, asked: &str) -> Option<Result<Option<Vec<u8>>, ReadError>> {
        let words = words_of(self.alloc, asked)?;
        let ([name, words @ ..], Some(schema), Some(recorder)) = (
            words.as_slice(),
            &self.schema,
            &mut self.recorder,
        ) else {
            return None;
        };
        let key = key_of(self.alloc, schema, words)?;
        Some(recorder.row(name, &key))
    }

    // Each row, in the order of their keys.
    fn tell_rows(&mut self, name: &str, out: &mut String) -> Option<()> {
        let Some(recorder) = &mut self.recorder else {
            return None;
        };
        match recorder.rows(name) {
            Ok(rows) => {
                for i in 0..rows.len() {
                    tell(out, &rows.row(i))?;
                }
                Some(())
            }
            Err(error) => tell(out, &error),
        }
    }

    fn fail(&mut self) -> Option<()> {
        let Some(recorder) = &mut self.recorder else {
            return None;
        };
        recorder.fail();
        Some(())
    }
}

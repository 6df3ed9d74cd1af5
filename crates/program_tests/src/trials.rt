//! Trials of the program, a line each.

use crate::logs::{Kept, push_lines, tell_notices};
use crate::networks::Callers;
use crate::shelves::Shelf;
use crate::streams::{Input, Output};
use crate::system::{Place, tell_sockets};
use drda_program::{Reader, StoreFiles, SystemFiles, Writer, run_words};
use std::alloc::Global;
use std::fs::File;
use std::marker::{Send, Sync};
use std::net::Net;
use std::rt::Files;
use std::sync::Wait;
use std::thread::Threads;
use std::time::Clock;
use test_bytes::push_texts;

/// What a trial is about: which streams fail, the network, and the input.
#[derive(Clone, Copy)]
struct Scene<'a> {
    streams: &'a str,
    way: &'a str,
    input: &'a [u8],
}

/// Tries each line: the streams, the network, behind how many calls devices fail, the input in hexadecimal, which a caller says too, and
/// then the program's words. `mute-in`, `mute-out` and `mute-err` are broken streams, `unflushed` an output that fails at its flush; all
/// are well by `whole`. With `doubt` the input is what makes the store of that name; with `notices` it is written what a log may be told;
/// with `files` words behind @ are files of the system, and their first one is looked at; with `file` the input is written into one with
/// the rights behind its name, or it is taken away where they are 0; with `sockets` two sockets meet.
///
/// Tells each line with what the program came to: its status, the size of the file that it made, what it wrote, the lines of its log, the
/// limit of a stream's reads and writes, how often letting one in was paused, and what it said on standard error. None where a line is none
/// of these, and without memory.
pub fn follow<T: Threads + Wait + Clock + Files<File = File> + Net + Sync>(
    place: &Place<'_, T>,
    text: &str,
    told: &mut Vec<u8>,
) -> Option<()> {
    let mut doubtful = Vec::new(place.alloc);
    for line in text.split('\n') {
        told.extend_from_slice(line.as_bytes()).ok()?;
        told.push(b'\n').ok()?;
        if !line.is_empty() {
            try_line(place, line, &mut doubtful, told)?;
        }
    }
    Some(())
}

fn try_line<T: Threads + Wait + Clock + Files<File = File> + Net + Sync>(
    place: &Place<'_, T>,
    line: &str,
    doubtful: &mut Vec<u8>,
    told: &mut Vec<u8>,
) -> Option<()> {
    let (streams, rest) = line.split_once('|')?;
    let (way, rest) = rest.split_once('|')?;
    let (calls, rest) = rest.split_once('|')?;
    let (digits, words) = rest.split_once('|')?;
    match streams {
        "doubt" => return push_texts(doubtful, &[digits]).ok(),
        "notices" => return tell_notices(place.alloc, told),
        "sockets" => return tell_sockets(place.rt, place.alloc, told),
        _ => {}
    }
    let mut input = Vec::new(place.alloc);
    push_texts(&mut input, &[digits]).ok()?;
    let scene = Scene {
        streams,
        way,
        input: &input,
    };
    match streams {
        "file" => place.lay(words, &input),
        "files" => try_files(place, words, scene, told),
        _ => {
            let calls = calls.parse::<u64>().unwrap_or(u64::MAX);
            let mut shelf = Shelf::new(place.alloc, calls, doubtful);
            try_shelf(place, words, &mut shelf, scene, told)
        }
    }
}

// Over files in memory.
fn try_shelf<T: Threads + Wait + Clock + Files<File = File> + Net + Sync>(
    place: &Place<'_, T>,
    words: &str,
    shelf: &mut Shelf<'_>,
    scene: Scene<'_>,
    told: &mut Vec<u8>,
) -> Option<()> {
    let mut said = Vec::new(place.alloc);
    let status = status_of(place, words, shelf, scene, &mut said)?;
    tell(place.alloc, status, shelf.made as u64, &said, told)
}

// Over files of the system.
fn try_files<T: Threads + Wait + Clock + Files<File = File> + Net + Sync>(
    place: &Place<'_, T>,
    words: &str,
    scene: Scene<'_>,
    told: &mut Vec<u8>,
) -> Option<()> {
    let mut said = Vec::new(place.alloc);
    let mut files = SystemFiles::new(place.alloc, place.rt);
    let status = status_of(place, words, &mut files, scene, &mut said)?;
    tell(place.alloc, status, place.length(words)?, &said, told)
}

// The program over these words: its status, and what was said. What is said on standard error of files of the system has their paths, and
// is left out.
fn status_of<T: Threads + Wait + Clock + Files<File = File> + Net + Sync, F: StoreFiles>(
    place: &Place<'_, T>,
    words: &str,
    files: &mut F,
    scene: Scene<'_>,
    said: &mut Vec<u8>,
) -> Option<u8>
where
    F::Disk: Send,
{
    let words = place.words(words)?;
    let mut net = Callers::new(scene.way, scene.input);
    let log = Kept::new(place.rt, place.alloc);
    let mut reader = Reader::new(Input {
        bytes: scene.input,
        is_broken: scene.streams == "mute-in",
    });
    let mut out = Writer::new(Output {
        taken: Vec::new(place.alloc),
        is_broken: scene.streams == "mute-out",
        is_unflushed: scene.streams == "unflushed",
    });
    let mut err = Output {
        taken: Vec::new(place.alloc),
        is_broken: scene.streams == "mute-err",
        is_unflushed: false,
    };
    let status = run_words(
        place.rt,
        place.alloc,
        words.as_slice(),
        files,
        &mut net,
        &log,
        &mut reader,
        &mut out,
        &mut err,
    );
    if scene.streams == "files" {
        err.taken.clear();
    }
    let lines = log.into_lines();
    match push_said(
        place.alloc,
        &out.into_inner().taken,
        &lines,
        &net,
        &err.taken,
        said,
    ) {
        Some(()) => Some(status),
        None => None,
    }
}

fn push_said(
    alloc: Global,
    out: &[u8],
    lines: &str,
    net: &Callers<'_>,
    err: &[u8],
    said: &mut Vec<u8>,
) -> Option<()> {
    said.extend_from_slice(out).ok()?;
    push_lines(said, lines, false)?;
    push_lines(said, lines, true)?;
    let (reads, writes, pauses) = (net.limit, net.limit_writes, net.pauses);
    if reads > 0 {
        let text = format!(in alloc; "reads limited to {reads} s, writes to {writes} s\n").ok()?;
        said.extend_from_slice(text.as_bytes()).ok()?;
    }
    if pauses > 0 {
        let text = format!(in alloc; "paused {pauses} times\n").ok()?;
        said.extend_from_slice(text.as_bytes()).ok()?;
    }
    said.extend_from_slice(err).ok()
}

fn tell(alloc: Global, status: u8, made: u64, said: &[u8], told: &mut Vec<u8>) -> Option<()> {
    let text = format!(in alloc; "status {status}, a file of {made} bytes\n").ok()?;
    told.extend_from_slice(text.as_bytes()).ok()?;
    told.extend_from_slice(said).ok()
}

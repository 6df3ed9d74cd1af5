//! Conversations, and what becomes of them.

use crate::cores::{Core, serve_over};
use crate::names::bytes_named;
use crate::streams::{AT_ONCE, Giving, Manner, Taking};
use counted_streams::{Reader, Writer};
use std::alloc::{AllocError, Global};
use stream_service::{Access, Host, Served};

/// What became of a conversation.
#[derive(Clone, Copy)]
pub struct Outcome {
    pub served: Option<Served>,
    /// How often there was something to read.
    pub reads: u32,
    /// How often reading failed, and how often writing did.
    pub failed: (u32, u32),
    /// How many bytes it was answered.
    pub size: usize,
    /// Whether these are a front of what it was to be answered.
    pub is_wanted: bool,
    /// Whether no byte was found in what was handed to the reader.
    pub is_clean: bool,
    /// Whether no more was written at once than 65,536 bytes and one answer of 69.
    pub is_short: bool,
    /// What its host saw.
    pub host: Seen,
}

/// A host that lets a conversation keep so many bytes for its cursors, and what it saw.
#[derive(Clone, Copy)]
pub struct Seen {
    pub cursor_bytes: usize,
    pub looks: u32,
    pub access: Access,
}

impl Host for Seen {
    fn cursor_bytes(&self) -> usize {
        self.cursor_bytes
    }

    fn look(&mut self, access: Access) {
        self.looks = self.looks.saturating_add(1);
        self.access = access;
    }
}

// Nothing was seen yet.
fn unseen(cursor_bytes: usize) -> Seen {
    Seen {
        cursor_bytes,
        looks: 0,
        access: Access {
            refused: 0,
            is_checked: false,
            is_opened: false,
        },
    }
}

/// What becomes of a conversation that sends this and is to be answered so.
pub fn heard(
    alloc: Global,
    core: &mut Core,
    input: &[u8],
    wanted: &[u8],
    manner: Manner,
    cursor_bytes: usize,
) -> Outcome {
    let mut reader = Reader::new(Giving {
        bytes: input.get(..manner.coming).unwrap_or(input),
        manner,
        times: 0,
        faults: 0,
        finds: false,
    });
    let mut writer = Writer::new(Taking {
        bytes: Vec::new(alloc),
        manner,
        faults: 0,
        longest: 0,
    });
    let mut host = unseen(cursor_bytes);
    let served = serve_over(alloc, core, &mut reader, &mut writer, &mut host);
    let (reader, writer) = (reader.into_inner(), writer.into_inner());
    let size = writer.bytes.len();
    Outcome {
        served,
        reads: reader.times,
        failed: (reader.faults, writer.faults),
        size,
        is_wanted: wanted.get(..size) == Some(writer.bytes.as_slice()),
        is_clean: !reader.finds,
        is_short: writer.longest <= 65_536 + 69,
        host,
    }
}

// How the streams behave: `slow` gives a byte at a time, and `sevens` seven; `cut` gives so many bytes, and `broken` fails behind them;
// `full` takes so many, one at a time, and then fails.
fn manner_of(verb: &str, count: usize) -> Manner {
    match verb {
        "slow" => Manner {
            given: 1,
            ..AT_ONCE
        },
        "sevens" => Manner {
            given: 7,
            ..AT_ONCE
        },
        "cut" => Manner {
            coming: count,
            ..AT_ONCE
        },
        "broken" => Manner {
            given: 1,
            coming: count,
            fails: true,
            ..AT_ONCE
        },
        "full" => Manner {
            taken: 1,
            room: count,
            ..AT_ONCE
        },
        _ => AT_ONCE,
    }
}

/// Tells what becomes of a conversation whose requests and replies have these names: all of them so many times behind `times`, else once;
/// and what its host saw, where it lets it keep the bytes behind `keeps` for its cursors.
pub fn tell_served(
    alloc: Global,
    core: &mut Core,
    text: &str,
    how: &str,
    names: (&str, &str),
    out: &mut String,
) -> Result<(), AllocError> {
    let (verb, count) = how.split_once(' ').unwrap_or((how, ""));
    let count = count.parse::<usize>().unwrap_or(0);
    let (came, all) = came_of(alloc, core, text, verb, count, names)?;
    tell_outcome(&came, all, out)?;
    tell_failed(came.failed, out)?;
    if verb == "keeps" {
        tell_host(came.host, out)?;
    }
    Ok(())
}

// What becomes of it, and how many bytes it was to be answered.
fn came_of(
    alloc: Global,
    core: &mut Core,
    text: &str,
    verb: &str,
    count: usize,
    (requests, replies): (&str, &str),
) -> Result<(Outcome, usize), AllocError> {
    let times = if verb == "times" { count } else { 1 };
    let keeps = if verb == "keeps" { count } else { usize::MAX };
    let input = bytes_named(alloc, text, requests, times)?;
    let wanted = bytes_named(alloc, text, replies, times)?;
    let came = heard(alloc, core, &input, &wanted, manner_of(verb, count), keeps);
    Ok((came, wanted.len()))
}

// Tells how it was served, and how many bytes of how many it was answered.
fn tell_outcome(came: &Outcome, all: usize, out: &mut String) -> Result<(), AllocError> {
    let (served, size) = (came.served, came.size);
    let (is_wanted, is_clean, is_short) = (came.is_wanted, came.is_clean, came.is_short);
    writeln!(
        out,
        "  {served:?}, {size} of {all} bytes; as wanted {is_wanted}, clean {is_clean}, short {is_short}"
    )
}

// Tells how often reading and writing failed, where they did.
fn tell_failed((reads, writes): (u32, u32), out: &mut String) -> Result<(), AllocError> {
    if reads == 0 && writes == 0 {
        return Ok(());
    }
    writeln!(out, "  failed: reads {reads}, writes {writes}")
}

fn tell_host(host: Seen, out: &mut String) -> Result<(), AllocError> {
    let (looks, refused) = (host.looks, host.access.refused);
    let (is_checked, is_opened) = (host.access.is_checked, host.access.is_opened);
    writeln!(
        out,
        "  shown {looks} times, refused {refused}, checked {is_checked}, opened {is_opened}"
    )
}

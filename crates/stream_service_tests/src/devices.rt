//! A device that fails in a conversation.

use crate::conversations::heard;
use crate::cores::core_over;
use crate::names::bytes_named;
use crate::streams::{AT_ONCE, Manner};
use std::alloc::{AllocError, Global};
use stream_service::Served;

// How a conversation is served over a store whose device fails behind so many calls, how often it is read, and whether it is answered just
// so. None where the store is not opened.
fn served_behind(
    alloc: Global,
    calls: u64,
    input: &[u8],
    wanted: &[u8],
    given: usize,
) -> Option<(Option<Served>, u32, bool)> {
    let mut core = core_over(alloc, calls).ok()?;
    let manner = Manner { given, ..AT_ONCE };
    let came = heard(alloc, &mut core, input, wanted, manner, usize::MAX);
    let is_whole = came.is_wanted && came.size == wanted.len();
    Some((came.served, came.reads, is_whole))
}

// In how many of 100 places the device fails so that it is answered just so and read once. None where it is not served whole and read twice
// behind them.
fn places_failed(alloc: Global, input: &[u8], wanted: &[u8], given: usize) -> Option<u32> {
    let mut failed = 0_u32;
    for calls in 0..100 {
        match served_behind(alloc, calls, input, wanted, given) {
            None => {}
            Some((Some(Served::Done), 1, true)) => failed = failed.saturating_add(1),
            Some((Some(Served::Done), 2, false)) => return Some(failed),
            Some(_) => return None,
        }
    }
    None
}

/// Tells in how many places the device fails in the request but one, all up to which come in one piece, so that it is answered so and the
/// last request is not read. Behind these places that is read.
pub fn tell_places(
    alloc: Global,
    text: &str,
    (requests, replies): (&str, &str),
    out: &mut String,
) -> Result<(), AllocError> {
    let (front, _) = requests.rsplit_once(' ').unwrap_or((requests, ""));
    let given = bytes_named(alloc, text, front, 1)?.len();
    let input = bytes_named(alloc, text, requests, 1)?;
    let wanted = bytes_named(alloc, text, replies, 1)?;
    let failed = places_failed(alloc, &input, &wanted, given);
    writeln!(out, "  {failed:?} places")
}

//! Random lists of calls.

use crate::bench::Bench;
use crate::calls::{next, push_call};
use std::alloc::{AllocError, Global};
use test_calls::push_text;

/// How many calls a list has.
const CALLS: u32 = 80;

// The call of this number in a list: the first two create a table.
fn push_call_at(
    alloc: Global,
    rules: &[&str],
    at: u32,
    seed: &mut u32,
    call: &mut String,
) -> Result<(), AllocError> {
    match at {
        0 => call.push_str(
            "0 run CREATE TABLE T (K INTEGER NOT NULL, N SMALLINT, PRIMARY KEY (K))",
        ),
        1 => call.push_str("0 commit"),
        _ => {
            let conversation = next(seed) % 3;
            push_call(alloc, rules, conversation, seed, call)
        }
    }
}

fn push_shown(call: &str, out: &mut Vec<u8>) -> Option<()> {
    push_text(out, "  ")?;
    push_text(out, call)?;
    push_text(out, "\n    ")
}

fn hear(
    alloc: Global,
    rules: &[&str],
    bench: &mut Bench,
    at: u32,
    seed: &mut u32,
    is_shown: bool,
    out: &mut Vec<u8>,
) -> Option<()> {
    let mut call = String::new(alloc);
    push_call_at(alloc, rules, at, seed, &mut call).ok()?;
    if is_shown {
        push_shown(&call, out)?;
    }
    bench.hear(&call, out)
}

fn push_list(
    alloc: Global,
    rules: &[&str],
    bench: &mut Bench,
    list: u32,
    is_shown: bool,
    out: &mut Vec<u8>,
) -> Option<()> {
    bench.restart();
    let mut seed = list.wrapping_mul(2_654_435_769).wrapping_add(1);
    for at in 0..CALLS {
        hear(alloc, rules, bench, at, &mut seed, is_shown, out)?;
    }
    Some(())
}

/// Appends what the calls of the lists from one to another, which is not taken, are answered, a line each; each behind the call itself, if
/// they are shown.
pub fn push_lists(
    alloc: Global,
    rules: &[&str],
    bench: &mut Bench,
    (first, last): (u32, u32),
    is_shown: bool,
    out: &mut Vec<u8>,
) -> Option<()> {
    for list in first..last {
        push_list(alloc, rules, bench, list, is_shown, out)?;
    }
    Some(())
}

// FNV-1a of 64 bits.
fn sum_of(bytes: &[u8]) -> u64 {
    let mut sum = 0xCBF2_9CE4_8422_2325_u64;
    for byte in bytes {
        sum = (sum ^ u64::from(*byte)).wrapping_mul(0x100_0000_01B3);
    }
    sum
}

/// The sum of what the calls of these lists are answered.
pub fn sum_of_lists(
    alloc: Global,
    rules: &[&str],
    bench: &mut Bench,
    lists: (u32, u32),
) -> Option<u64> {
    let mut answers = Vec::new(alloc);
    push_lists(alloc, rules, bench, lists, false, &mut answers)?;
    Some(sum_of(&answers))
}

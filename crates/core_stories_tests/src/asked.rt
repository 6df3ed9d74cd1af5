//! What is asked, a line each.

use crate::bench::Bench;
use crate::lists::{push_lists, sum_of_lists};
use std::alloc::Global;
use test_calls::push_text;

fn lists_of(text: &str) -> Option<(u32, u32)> {
    let (first, last) = text.split_once(' ')?;
    Some((first.parse::<u32>().ok()?, last.parse::<u32>().ok()?))
}

// `show` shows the lists from one to another, which is not taken, and `sum` tells the sum of what they are answered.
fn answer(
    alloc: Global,
    rules: &[&str],
    bench: &mut Bench,
    line: &str,
    out: &mut Vec<u8>,
) -> Option<()> {
    let (verb, rest) = line.split_once(' ')?;
    let lists = lists_of(rest)?;
    if verb == "show" {
        return push_lists(alloc, rules, bench, lists, true, out);
    }
    let sum = sum_of_lists(alloc, rules, bench, lists)?;
    push_text(out, &format!(in alloc; "  {sum:016X}\n").ok()?)
}

/// Tells a line, and what it comes to where it is neither a remark nor a rule.
pub fn tell(
    alloc: Global,
    rules: &[&str],
    bench: &mut Bench,
    line: &str,
    out: &mut Vec<u8>,
) -> Option<()> {
    push_text(out, line)?;
    push_text(out, "\n")?;
    if line.starts_with('#') || line.starts_with(':') {
        return Some(());
    }
    answer(alloc, rules, bench, line, out)
}

//! Random calls, by rules.

use std::alloc::{AllocError, Global};

/// The next number of a linear congruential generator (Knuth, volume 2, section 3.3.4).
pub fn next(seed: &mut u32) -> usize {
    *seed = seed.wrapping_mul(1_664_525).wrapping_add(1_013_904_223);
    (*seed >> 16) as usize
}

/// The lines of a text that are rules, each behind its :.
pub fn rules_of<'t>(alloc: Global, text: &'t str) -> Result<Vec<&'t str>, AllocError> {
    let mut rules = Vec::new(alloc);
    for line in text.lines() {
        if let Some(rule) = line.strip_prefix(':') {
            rules.push(rule)?;
        }
    }
    Ok(rules)
}

// The alternatives of a rule, which stand behind its name.
fn alternatives<'t>(rules: &[&'t str], name: &str) -> &'t str {
    for rule in rules {
        if let Some((first, rest)) = rule.split_once(' ')
            && first == name
        {
            return rest;
        }
    }
    ""
}

// One of a rule's alternatives: behind = it is the conversation's own.
fn chosen<'t>(rules: &[&'t str], name: &str, conversation: usize, seed: &mut u32) -> &'t str {
    let (number, name) = match name.strip_prefix('=') {
        Some(name) => (conversation, name),
        None => (next(seed), name),
    };
    let all = alternatives(rules, name);
    let count = all.split('/').count();
    all.split('/')
        .nth(number.checked_rem(count).unwrap_or(0))
        .unwrap_or("")
}

// The text with an alternative in the place of the first name in brackets; None where there is none.
fn expanded(
    alloc: Global,
    rules: &[&str],
    text: &str,
    conversation: usize,
    seed: &mut u32,
) -> Result<Option<String>, AllocError> {
    let Some((front, rest)) = text.split_once('[') else {
        return Ok(None);
    };
    let (name, behind) = rest.split_once(']').unwrap_or((rest, ""));
    let choice = chosen(rules, name, conversation, seed);
    Ok(Some(format!(in alloc; "{front}{choice}{behind}")?))
}

// The text without the values that stand in braces.
fn push_asked(text: &str, call: &mut String) -> Result<(), AllocError> {
    for piece in text.split('{') {
        let (_, rest) = piece.split_once('}').unwrap_or(("", piece));
        call.push_str(rest)?;
    }
    Ok(())
}

// The values behind it; - at the end takes all of them away.
fn push_values(text: &str, call: &mut String) -> Result<(), AllocError> {
    if !text.contains('{') || text.ends_with("{-}") {
        return Ok(());
    }
    call.push_str(" |")?;
    for piece in text.split('{') {
        if let Some((value, _)) = piece.split_once('}') {
            write!(call, " {value}")?;
        }
    }
    Ok(())
}

/// Appends a random call of a conversation.
pub fn push_call(
    alloc: Global,
    rules: &[&str],
    conversation: usize,
    seed: &mut u32,
    call: &mut String,
) -> Result<(), AllocError> {
    let mut text = String::from_str(alloc, "[call]")?;
    for _ in 0..100 {
        match expanded(alloc, rules, &text, conversation, seed)? {
            Some(next) => text = next,
            None => break,
        }
    }
    push_asked(&text, call)?;
    push_values(&text, call)
}

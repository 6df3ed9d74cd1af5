//! What conversations send. All commands have the correlator 6.

use std::alloc::Global;
use test_bytes::{ACCRDB, ACCSEC, EXCSAT_ALONE, SECCHK_ALONE, push_texts};

// EXCSQLIMM, and the text in a DSS of its own.
fn push_statement(bytes: &mut Vec<u8>, text: &str) -> Option<()> {
    let size = u8::try_from(text.len()).ok()?;
    let object = u8::try_from(text.len().wrapping_add(10)).ok()?;
    let whole = u8::try_from(text.len().wrapping_add(16)).ok()?;
    push_texts(bytes, &["000A D051 0006 0004 200A"]).ok()?;
    bytes
        .extend_from_slice(&[
            0, whole, 0xD0, 0x03, 0, 6, 0, object, 0x24, 0x14, 0, 0, 0, 0, size,
        ])
        .ok()?;
    bytes.extend_from_slice(text.as_bytes()).ok()?;
    bytes.push(0xFF).ok()
}

// Appends what a conversation sends which accesses the database SHOP, runs a statement at once, commits or rolls back, or sends just these
// bytes.
fn push_sent(bytes: &mut Vec<u8>, act: &str, rest: &str) -> Option<()> {
    match act {
        "opens" => push_texts(bytes, &[EXCSAT_ALONE, ACCSEC, SECCHK_ALONE, ACCRDB]).ok(),
        "runs" => push_statement(bytes, rest),
        "commits" => push_texts(bytes, &["000A D001 0006 0004 200E"]).ok(),
        "rolls" => push_texts(bytes, &["000A D001 0006 0004 200F"]).ok(),
        "sends" => push_texts(bytes, &[rest]).ok(),
        _ => None,
    }
}

// Appends a record of an event.
fn push_record(events: &mut Vec<u8>, kind: u8, number: u8, bytes: &[u8]) -> Option<()> {
    let [a, b, c, d] = u32::try_from(bytes.len()).ok()?.to_be_bytes();
    events.extend_from_slice(&[kind, number, a, b, c, d]).ok()?;
    events.extend_from_slice(bytes).ok()
}

/// Appends the event of a conversation that does so; before the first of them it opens, and `lost` is none of them.
pub fn push_act(alloc: Global, events: &mut Vec<u8>, number: u8, asked: &str) -> Option<()> {
    let (act, rest) = asked.split_once(' ').unwrap_or((asked, ""));
    if act == "lost" {
        return push_record(events, 3, number, &[]);
    }
    if act == "opens" {
        push_record(events, 1, number, &[])?;
    }
    let mut sent = Vec::new(alloc);
    push_sent(&mut sent, act, rest)?;
    push_record(events, 2, number, &sent)
}

//! XA calls as a line spells them.

use std::alloc::Global;
use test_bytes::bytes_of;
use xa_calls::{InvalidRequest, Request, Xid};

// SYNCTYPE and XAFLAGS.
type Spelled = (u8, Option<[u8; 4]>);

fn ending_of(verb: &str) -> Option<Spelled> {
    match verb {
        "success" => Some((0x0B, Some([0x04, 0, 0, 0]))),
        "suspend" => Some((0x0B, Some([0x02, 0, 0, 0]))),
        "fail" => Some((0x0B, Some([0x20, 0, 0, 0]))),
        _ => None,
    }
}

fn spelled(verb: &str) -> Option<Spelled> {
    match verb {
        "start" => Some((0x09, None)),
        "join" => Some((0x09, Some([0x00, 0x20, 0, 0]))),
        "resume" => Some((0x09, Some([0x08, 0x00, 0, 0]))),
        "prepare" => Some((0x01, None)),
        "commit" => Some((0x04, None)),
        "onephase" => Some((0x04, Some([0x40, 0, 0, 0]))),
        "rollback" => Some((0x07, None)),
        "forget" => Some((0x06, None)),
        "recover" => Some((0x0C, None)),
        _ => ending_of(verb),
    }
}

// Format 1, a global part of two bytes, which is this number, and no branch part.
fn numbered(alloc: Global, number: u16) -> Option<Vec<u8>> {
    let [high, low] = number.to_be_bytes();
    Vec::from_slice(alloc, &[0, 0, 0, 1, 0, 0, 0, 2, 0, 0, 0, 0, high, low]).ok()
}

// An XID is spelled by the digits of its bytes, or by its number behind =.
fn xid_data(alloc: Global, word: &str) -> Option<Vec<u8>> {
    match word.strip_prefix('=') {
        Some(number) => numbered(alloc, number.parse::<u16>().ok()?),
        None => bytes_of(alloc, &[word]).ok(),
    }
}

/// The XID that a word spells, by the digits of its bytes, or by its number behind =.
pub fn xid_of(alloc: Global, word: &str) -> Option<Xid> {
    Xid::read(&xid_data(alloc, word)?).ok()
}

/// What a SYNCCTL asks for that spells this, with these XID data; with none where there is no word.
pub(crate) fn request_of(
    alloc: Global,
    verb: &str,
    word: &str,
) -> Option<Result<Request, InvalidRequest>> {
    let (sync_type, flags) = spelled(verb)?;
    let data = xid_data(alloc, word)?;
    let data = if data.is_empty() {
        None
    } else {
        Some(data.as_slice())
    };
    let flags = match &flags {
        Some(bytes) => Some(bytes.as_slice()),
        None => None,
    };
    Some(Request::read(sync_type, flags, data))
}

//! The texts of replies.

use crate::fixtures::{columns, one_column, rows};
use row_values::Kind;
use sqlam_replies::{
    ReplyMessage, UnitEnd, are_described, null_sqlcard, qrydsc, qrydta, reply_message,
    resource_limit, sqlcard, sqldard, synccrd, synccrd_with, syntax_message,
};
use std::alloc::Global;
use std::test::Fail;
use xa_calls::Xid;

const SHOP: &[u8] = b"SHOP              ";

/// Messages, their severities and their texts.
const MESSAGES: [(ReplyMessage<'static>, u16, &[u8]); 18] = [
    (
        ReplyMessage::Syntax(0x0E),
        8,
        b"\x00\x0F\x12\x4C\x00\x06\x11\x49\x00\x08\x00\x05\x11\x4A\x0E",
    ),
    (
        ReplyMessage::OutOfTurn,
        8,
        b"\x00\x0A\x12\x45\x00\x06\x11\x49\x00\x08",
    ),
    (
        ReplyMessage::CommandNotSupported(0x2FFF),
        8,
        b"\x00\x10\x12\x50\x00\x06\x11\x49\x00\x08\x00\x06\x00\x0C\x2F\xFF",
    ),
    (
        ReplyMessage::ValueNotSupported(0x2114),
        8,
        b"\x00\x10\x12\x52\x00\x06\x11\x49\x00\x08\x00\x06\x00\x0C\x21\x14",
    ),
    (
        ReplyMessage::RdbNotFound(b"TOOL"),
        8,
        b"\x00\x12\x22\x11\x00\x06\x11\x49\x00\x08\x00\x08\x21\x10TOOL",
    ),
    (
        ReplyMessage::CommandViolation(SHOP),
        8,
        b"\x00\x20\x22\x1D\x00\x06\x11\x49\x00\x08\x00\x16\x21\x10SHOP              ",
    ),
    (
        ReplyMessage::OpenFailed(SHOP),
        8,
        b"\x00\x20\x22\x12\x00\x06\x11\x49\x00\x08\x00\x16\x21\x10SHOP              ",
    ),
    (
        ReplyMessage::QueryNotOpen {
            rdb: SHOP,
            section: b"S1",
        },
        8,
        b"\x00\x26\x22\x02\x00\x06\x11\x49\x00\x08\x00\x16\x21\x10SHOP              \x00\x06\x21\x13S1",
    ),
    (
        ReplyMessage::QueryOpen {
            rdb: SHOP,
            section: b"S1",
        },
        8,
        b"\x00\x26\x22\x0F\x00\x06\x11\x49\x00\x08\x00\x16\x21\x10SHOP              \x00\x06\x21\x13S1",
    ),
    (
        ReplyMessage::ManagerDependency,
        8,
        b"\x00\x0A\x12\x18\x00\x06\x11\x49\x00\x08",
    ),
    (
        ReplyMessage::ResourceLimit,
        8,
        b"\x00\x0A\x12\x33\x00\x06\x11\x49\x00\x08",
    ),
    (
        ReplyMessage::AgentFailed,
        64,
        b"\x00\x0A\x12\x32\x00\x06\x11\x49\x00\x40",
    ),
    (
        ReplyMessage::UnitEnded(UnitEnd::Committed),
        4,
        b"\x00\x0F\x22\x0C\x00\x06\x11\x49\x00\x04\x00\x05\x21\x15\x01",
    ),
    (
        ReplyMessage::UnitEnded(UnitEnd::RolledBack),
        4,
        b"\x00\x0F\x22\x0C\x00\x06\x11\x49\x00\x04\x00\x05\x21\x15\x02",
    ),
    (
        ReplyMessage::RdbUpdated(SHOP),
        0,
        b"\x00\x20\x22\x18\x00\x06\x11\x49\x00\x00\x00\x16\x21\x10SHOP              ",
    ),
    (
        ReplyMessage::QueryOpened {
            is_held: false,
            instance: 1,
        },
        0,
        b"\x00\x21\x22\x05\x00\x06\x11\x49\x00\x00\x00\x06\x21\x02\x24\x17\x00\x05\x21\x1F\xF0\x00\x0C\x21\x5B\x00\x00\x00\x00\x00\x00\x00\x01",
    ),
    (
        ReplyMessage::QueryOpened {
            is_held: true,
            instance: 0x0102_0304_0506_0708,
        },
        0,
        b"\x00\x21\x22\x05\x00\x06\x11\x49\x00\x00\x00\x06\x21\x02\x24\x17\x00\x05\x21\x1F\xF1\x00\x0C\x21\x5B\x01\x02\x03\x04\x05\x06\x07\x08",
    ),
    (
        ReplyMessage::EndOfQuery,
        4,
        b"\x00\x0A\x22\x0B\x00\x06\x11\x49\x00\x04",
    ),
];

#[test]
fn messages_are_written(rt: HostRuntime) -> Result<(), Fail> {
    for (message, severity, text) in MESSAGES {
        let mut out = Vec::new(rt.alloc());
        reply_message(&mut out, message)?;
        assert_eq!(rt; (message.severity(), out.as_slice()), (severity, text));
    }
    Ok(())
}

#[test]
fn messages_are_made_in_place(rt: HostRuntime) -> Result<(), Fail> {
    let syntax = syntax_message(0x16);
    assert_eq!(rt;
        syntax.as_slice(),
        b"\x00\x0F\x12\x4C\x00\x06\x11\x49\x00\x08\x00\x05\x11\x4A\x16".as_slice()
    );
    let limit = resource_limit();
    assert_eq!(rt;
        limit.as_slice(),
        b"\x00\x0A\x12\x33\x00\x06\x11\x49\x00\x08".as_slice()
    );
    Ok(())
}

/// SQLCODE, SQLSTATE and count, and the ten bytes that show them.
const CARDS: [(i32, &[u8; 5], u32, &[u8], &[u8]); 3] = [
    (0, b"00000", 1, b"\x00\x00\x00\x00", b"\x00\x00\x00\x01"),
    (-803, b"23505", 0, b"\xFF\xFF\xFC\xDD", b"\x00\x00\x00\x00"),
    (100, b"02000", 0, b"\x00\x00\x00\x64", b"\x00\x00\x00\x00"),
];

#[test]
fn cards_are_written(rt: HostRuntime) -> Result<(), Fail> {
    for (code, state, count, code_bytes, count_bytes) in CARDS {
        let mut want = b"\x00\x41\x24\x08\x00".to_vec(rt.alloc())?;
        want.extend_from_slice(code_bytes)?;
        want.extend_from_slice(state)?;
        want.extend_from_slice(b"RDA01000\x00\x00\x00\x00\x00\x00\x00\x00\x00")?;
        want.extend_from_slice(count_bytes)?;
        want.extend_from_slice(
            b"\x00\x00\x00\x00\x00\x00\x00\x00\x00\x00\x00\x00           \x00\x00\x00\x00\x00\x00\xFF",
        )?;
        let mut out = Vec::new(rt.alloc());
        sqlcard(&mut out, code, state, count)?;
        assert_eq!(rt; out.as_slice(), want.as_slice());
    }
    Ok(())
}

#[test]
fn nothing_is_reported(rt: HostRuntime) -> Result<(), Fail> {
    let mut out = Vec::new(rt.alloc());
    null_sqlcard(&mut out)?;
    assert_eq!(rt; out.as_slice(), b"\x00\x05\x24\x08\xFF".as_slice());
    Ok(())
}

const DESCRIPTION: &[u8] =
    b"\x00\x4C\x24\x11\xFF\xFF\x00\x02\x00\x00\x00\x00\x00\x00\x00\x00\x00\x00\x00\x04\x01\xF0\x00\x00\x00\x00\x00\x00\x01K\x00\x00\x00\x00\x00\x00\x00\x00\x00\x00\xFF\xFF\x00\x00\x00\x00\x00\x00\x00\x00\x00\x00\x02\x58\x01\xC1\x04\xB8\x00\x00\x00\x00\x01V\x00\x00\x00\x00\x00\x00\x00\x00\x00\x00\xFF\xFF";

#[test]
fn columns_are_described(rt: HostRuntime) -> Result<(), Fail> {
    let columns = columns(rt.alloc())?;
    let mut out = Vec::new(rt.alloc());
    assert!(rt; are_described(&columns));
    if are_described(&columns) {
        sqldard(&mut out, true, &columns)?;
    }
    assert_eq!(rt; out.as_slice(), DESCRIPTION);
    Ok(())
}

/// Of a column its type, whether it is nullable, the length that it is declared with, and what SQLDARD says
/// of it: length, type and CCSID.
const DESCRIBED: [(Kind, bool, u16, &[u8; 12]); 6] = [
    (
        Kind::SmallInt,
        false,
        0,
        b"\x00\x00\x00\x00\x00\x00\x00\x02\x01\xF4\x00\x00",
    ),
    (
        Kind::Integer,
        true,
        0,
        b"\x00\x00\x00\x00\x00\x00\x00\x04\x01\xF1\x00\x00",
    ),
    (
        Kind::BigInt,
        false,
        0,
        b"\x00\x00\x00\x00\x00\x00\x00\x08\x01\xEC\x00\x00",
    ),
    (
        Kind::BigInt,
        true,
        0,
        b"\x00\x00\x00\x00\x00\x00\x00\x08\x01\xED\x00\x00",
    ),
    (
        Kind::VarChar,
        false,
        1,
        b"\x00\x00\x00\x00\x00\x00\x00\x01\x01\xC0\x04\xB8",
    ),
    (
        Kind::VarBinary,
        true,
        2_000,
        b"\x00\x00\x00\x00\x00\x00\x07\xD0\x01\xC1\x00\x00",
    ),
];

// Whether SQLDARD says this of a column of a type.
fn is_described(
    alloc: Global,
    (kind, is_nullable, length): (Kind, bool, u16),
    described: &[u8],
) -> Result<bool, Fail> {
    let columns = one_column(alloc, kind, is_nullable, length)?;
    let mut out = Vec::new(alloc);
    if !are_described(&columns) {
        return Ok(false);
    }
    sqldard(&mut out, true, &columns)?;
    Ok(out.get(12..24) == Some(described))
}

#[test]
fn each_type_is_described(rt: HostRuntime) -> Result<(), Fail> {
    for (kind, is_nullable, length, described) in &DESCRIBED {
        let column = (*kind, *is_nullable, *length);
        let is_so = is_described(rt.alloc(), column, described.as_slice())?;
        assert!(rt; is_so, "{kind:?} {is_nullable}");
    }
    Ok(())
}

#[test]
fn rows_are_described_and_sent(rt: HostRuntime) -> Result<(), Fail> {
    let rows = rows(rt.alloc(), &[0], &[0, 0])?;
    let mut out = Vec::new(rt.alloc());
    qrydsc(&mut out, &rows)?;
    if rows.len() == 2 {
        qrydta(&mut out, &rows, 0, 2)?;
    }
    assert_eq!(rt;
        out.as_slice(),
        b"\x00\x19\x24\x1A\x06\x76\xD0\x02\x00\x04\x09\x71\xE0\x54\x00\x01\xD0\x00\x01\x06\x71\xF0\xE0\x00\x00\x00\x10\x24\x1B\xFF\x00\x00\x00\x00\x01\xFF\x00\x00\x00\x00\x02".as_slice()
    );
    Ok(())
}

#[test]
fn branches_are_listed(rt: HostRuntime) -> Result<(), Fail> {
    let mut out = Vec::new(rt.alloc());
    synccrd(&mut out, 0)?;
    let xid = Xid::read(b"\x00\x00\x00\x01\x00\x00\x00\x01\x00\x00\x00\x01GB")?;
    synccrd_with(&mut out, 0, &[xid])?;
    assert_eq!(rt;
        out.as_slice(),
        b"\x00\x0C\x12\x48\x00\x08\x19\x04\x00\x00\x00\x00\x00\x28\x12\x48\x00\x08\x19\x04\x00\x00\x00\x00\x00\x1C\x19\x05\x00\x06\x19\x06\x00\x01\x00\x12\x18\x01\x00\x00\x00\x01\x00\x00\x00\x01\x00\x00\x00\x01GB".as_slice()
    );
    Ok(())
}
